// The places of what those observed that go into each kept rank.
ghost use Rattle.std.specs.Prelude.{cond, [], ◌∷◌, ◌+◌, ◌≤◌, ◌<◌, eqb, length, get_or};
ghost use Rattle.order.specs.Lists.{gather, up_from};
ghost use Rattle.answer_sources.specs.Laying.{sum_below, seen_count};
ghost use Rattle.answer_gathering.specs.Runs.{Appended, going, places_at, seen_run, seen_weight, into, SeensBy, seen_total};
ghost use Rattle.answer_gathering.specs.Room.{SeenRoom, SeensRoom};

use crate::casts::counted;
use crate::observations::Observations;
use crate::runs::append_places;
use format::{BOUNDARY_SIZE, read_boundary};
use places::places::sort_places;

// The places of the m observations of the boundary at place b, the first at p: itself where it stands as one.
fn add_seen_places(
    base: usize,
    b: usize,
    p: usize,
    m: usize,
    stand: u32,
    seen: &mut [u32],
    to: usize,
) -> usize
    requires { (base + b < 1280) × (p + m ≤ 1280) × (to + m + 1 ≤ length seen.old) }
    ensures { Appended seen.old to (cond (eqb stand 1) ((base + b) ∷ []) (up_from p m)) seen.new result }
{
    if stand == 1 {
        return append_places(base + b, 1, seen, to);
    }
    append_places(p, m, seen, to)
}

// The places of what rank j observed, if it goes into rank i.
fn add_seen(
    job: &[u8],
    at: usize,
    order: &[u32; 256],
    plan: &[u32; 256],
    n: usize,
    j: usize,
    i: usize,
    base: usize,
    stands: &[u32; 256],
    firsts: &[u32],
    seen: &mut [u32],
    to: usize,
) -> usize
    requires { SeenRoom job.now at base order.now plan.now stands.now firsts.now n × (j < n) × (i < n)
        × (to + into plan.now (seen_weight order.now (seen_count job.now at)) i j ≤ length seen.old) }
    ensures { Appended seen.old to
        (cond (eqb (get_or plan.now j 0) i) (places_at base order.now firsts.now (seen_count job.now at)
        (length (going plan.now n i)) j)
        []) seen.new result }
{
    if plan[j] as usize != i {
        return to;
    }
    let b = order[j] as usize;
    let x = read_boundary(job, at + b * BOUNDARY_SIZE);
    add_seen_places(
        base,
        b,
        firsts[b] as usize,
        x.observations as usize,
        stands[b],
        seen,
        to,
    )
}

// The places of what all observed that go into rank i.
fn add_seens(
    job: &[u8],
    at: usize,
    order: &[u32; 256],
    plan: &[u32; 256],
    n: usize,
    i: usize,
    base: usize,
    stands: &[u32; 256],
    firsts: &[u32],
    seen: &mut [u32],
    from: usize,
) -> usize
    requires { SeenRoom job.now at base order.now plan.now stands.now firsts.now n × (i < n)
        × (from + sum_below (into plan.now (seen_weight order.now (seen_count job.now at)) i) n ≤ length seen.old) }
    ensures { Appended seen.old from
        (gather (places_at base order.now firsts.now (seen_count job.now at)
        (length (going plan.now n i))) (going plan.now n i))
        seen.new result × (result ≤ from + sum_below (into plan.now (seen_weight order.now (seen_count job.now at)) i) n) }
{
    let mut to = from;
    for j in 0..n {
        to = add_seen(
            job, at, order, plan, n, j, i, base, stands, firsts, seen, to,
        );
    }
    to
}

// These, sorted.
fn gather_seen(
    job: &[u8],
    at: usize,
    order: &[u32; 256],
    plan: &[u32; 256],
    n: usize,
    i: usize,
    base: usize,
    stands: &[u32; 256],
    firsts: &[u32],
    o: Observations,
    seen: &mut [u32],
    spare: &mut [u32],
    from: usize,
) -> usize
    requires { SeenRoom job.now at base order.now plan.now stands.now firsts.now n × (i < n)
        × (from + sum_below (into plan.now (seen_weight order.now (seen_count job.now at)) i) n ≤ length seen.old)
        × (from + sum_below (into plan.now (seen_weight order.now (seen_count job.now at)) i) n ≤ length spare.old) }
    ensures { Appended seen.old from
        (seen_run base order.now plan.now firsts.now o.entry.first.now o.entry.second.now o.entry.third.now
        o.entry.starts.now o.entry.counts.now o.entry.keys.now (seen_count job.now at) n i) seen.new result
        × (result ≤ from + sum_below (into plan.now (seen_weight order.now (seen_count job.now at)) i) n) }
{
    let end = add_seens(job, at, order, plan, n, i, base, stands, firsts, seen, from);
    sort_places(
        seen, spare, from, end, o.first, o.second, o.third, o.starts, o.counts, o.keys,
    );
    end
}

// One rank more: of a kept one how many observations it has, and their places.
fn seen_rank(
    job: &[u8],
    at: usize,
    order: &[u32; 256],
    plan: &[u32; 256],
    n: usize,
    i: usize,
    base: usize,
    stands: &[u32; 256],
    firsts: &[u32],
    o: Observations,
    seens: &mut [u32],
    seen: &mut [u32],
    spare: &mut [u32],
    k: usize,
    a: usize,
) -> usize
    requires { SeensRoom job.now at base order.now plan.now stands.now firsts.now seens.old seen.old spare.old n × (i < n)
        × SeensBy base order.now plan.now firsts.now o.first.now o.second.now o.third.now o.starts.now o.counts.now o.keys.now
        (seen_count job.now at) n i k a seens.old seen.old }
    ensures { SeensBy base order.now plan.now firsts.now o.entry.first.now o.entry.second.now o.entry.third.now
        o.entry.starts.now o.entry.counts.now o.entry.keys.now (seen_count job.now at) n (i + 1)
        (k + cond (eqb (get_or plan.now i 0) i) 1 0) result seens.new seen.new }
{
    if plan[i] as usize != i {
        return a;
    }
    let r = gather_seen(
        job, at, order, plan, n, i, base, stands, firsts, o, seen, spare, a,
    );
    seens[k] = (r - a) as u32;
    r
}

// The places of the observations of every kept rank: how many are kept.
pub fn gather_seens(
    job: &[u8],
    at: usize,
    order: &[u32; 256],
    plan: &[u32; 256],
    n: usize,
    base: usize,
    stands: &[u32; 256],
    firsts: &[u32],
    o: Observations,
    seens: &mut [u32],
    seen: &mut [u32],
    spare: &mut [u32],
) -> usize
    requires { SeensRoom job.now at base order.now plan.now stands.now firsts.now seens.old seen.old spare.old n }
    ensures { SeensBy base order.now plan.now firsts.now o.entry.first.now o.entry.second.now o.entry.third.now
        o.entry.starts.now o.entry.counts.now o.entry.keys.now (seen_count job.now at) n n result
        (seen_total base order.now plan.now firsts.now o.entry.first.now o.entry.second.now o.entry.third.now
        o.entry.starts.now o.entry.counts.now o.entry.keys.now (seen_count job.now at) n) seens.new seen.new }
{
    let mut k: usize = 0;
    let mut a: usize = 0;
    for i in 0..n {
        a = seen_rank(
            job, at, order, plan, n, i, base, stands, firsts, o, seens, seen, spare, k, a,
        );
        k += counted(plan[i], i);
    }
    k
}
