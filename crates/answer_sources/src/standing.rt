// Which boundaries stand as observations, with their own sources.
ghost use Rattle.std.specs.Prelude.{◌≡◌, cond, not, ◌&&◌, ◌+◌, ◌*◌, ◌≤◌, ◌<◌, eqb, length, get_or, set, replicate};
ghost use Rattle.format.specs.Sizes.{boundary_size};
ghost use Rattle.answer_sources.specs.Laying.{seen_count};
ghost use Rattle.answer_sources.specs.Gathered.{PlacesOrder};
ghost use Rattle.answer_sources.specs.Standing.{Sizes, Standing};

use format::{BOUNDARY_SIZE, read_boundary};

// One more that goes into rank i.
fn count_one(sizes: &mut [u32; 256], i: usize)
    requires { get_or sizes.old i 0 < 256 }
    ensures { (i < 256 → sizes.new ≡ set sizes.old i (get_or sizes.old i 0 + 1))
        × (256 ≤ i → sizes.new ≡ sizes.old) }
{
    if i >= 256 {
        return;
    }
    sizes[i] += 1;
}

// How many of n ranks go into each.
fn count_into(plan: &[u32; 256], n: usize, sizes: &mut [u32; 256])
    requires { (n ≤ 256) × (sizes.old ≡ replicate 256 0) }
    ensures { Sizes plan.now n sizes.new }
{
    for j in 0..n {
        count_one(sizes, plan[j] as usize);
    }
}

// 1 if one of `among` with so many observations stands as one itself. A number, not a bool: the definition `stands_at` is 1 or 0.
fn stands_as(observations: u32, among: u32) -> u32
    ensures { result ≡ cond (eqb observations 0 && not (eqb among 1)) 1 0 }
{
    if observations != 0 {
        return 0;
    }
    if among == 1 {
        return 0;
    }
    1
}

// Whether the boundary at place b, which goes into rank i, stands as an observation.
fn mark_one(job: &[u8], at: usize, b: usize, i: usize, sizes: &[u32; 256], stands: &mut [u32; 256])
    requires { (at + (b + 1) * boundary_size ≤ length job.now) × (b < 256) }
    ensures { (i < 256 → stands.new ≡ set stands.old b
        (cond (eqb (seen_count job.now at b) 0 && not (eqb (get_or sizes.now i 0) 1)) 1 0))
        × (256 ≤ i → stands.new ≡ stands.old) }
{
    if i >= 256 {
        return;
    }
    let x = read_boundary(job, at + b * BOUNDARY_SIZE);
    stands[b] = stands_as(x.observations, sizes[i]);
}

// 1 at the place of each boundary that observed nothing and is merged with others.
pub fn mark_standing(
    job: &[u8],
    at: usize,
    n: usize,
    order: &[u32; 256],
    plan: &[u32; 256],
    stands: &mut [u32; 256],
)
    requires { (n ≤ 256) × (at + n * boundary_size ≤ length job.now) × PlacesOrder order.now n × (length stands.old ≡ 256) }
    ensures { Standing order.now plan.now (seen_count job.now at) n stands.new }
{
    let mut sizes = [0u32; 256];
    count_into(plan, n, &mut sizes);
    for j in 0..n {
        mark_one(job, at, order[j] as usize, plan[j] as usize, &sizes, stands);
    }
}
