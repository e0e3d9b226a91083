// Of the own sources of those that go into each kept rank, the places of the first of each kind.
ghost use Rattle.std.specs.Prelude.{cond, ◌+◌, ◌*◌, ◌≤◌, ◌<◌, eqb, get_or};
ghost use Rattle.answer_firsts.specs.Links.{Linked};
ghost use Rattle.answer_sources.specs.Laying.{sum_below, elements};
ghost use Rattle.answer_gathering.specs.Runs.{own_weight, into, FirstsBy, OwnsBy};
ghost use Rattle.answer_gathering.specs.Room.{OwnRoom, OwnsRoom};

use crate::casts::counted;
use answer_firsts::finding::add_places;
use format::{BOUNDARY_SIZE, read_boundary};

// The own sources of rank j, if it goes into rank i: those of a kind without a number from `first` on get the next numbers.
fn add_own(
    job: &[u8],
    at: usize,
    from: usize,
    order: &[u32; 256],
    plan: &[u32; 256],
    n: usize,
    j: usize,
    i: usize,
    base: usize,
    starts: &[u32],
    heads: usize,
    first: usize,
    count: usize,
    links: &mut [u16],
    owned: &mut [u16],
) -> usize
    requires { OwnRoom job.now at from base order.now starts.now n × (j < n)
        × (4 * (first + sum_below (into plan.now (own_weight job.now at order.now) i) n) ≤ heads)
        × FirstsBy job.now at from base order.now plan.now starts.now heads first i j count owned.old links.old owned.old }
    ensures { FirstsBy job.now at from base order.now plan.now starts.now heads first i (j + 1) result
        owned.old links.new owned.new }
{
    if plan[j] as usize != i {
        return count;
    }
    let b = order[j] as usize;
    let p = starts[base + b] as usize;
    let x = read_boundary(job, at + b * BOUNDARY_SIZE);
    add_places(
        job,
        from,
        p,
        x.sources as usize,
        heads,
        first,
        count,
        links,
        owned,
    )
}

// The own sources of all that go into rank i, numbered from `first` on.
fn add_owns(
    job: &[u8],
    at: usize,
    from: usize,
    order: &[u32; 256],
    plan: &[u32; 256],
    n: usize,
    i: usize,
    base: usize,
    starts: &[u32],
    heads: usize,
    first: usize,
    links: &mut [u16],
    owned: &mut [u16],
) -> usize
    requires { OwnRoom job.now at from base order.now starts.now n
        × (4 * (first + sum_below (into plan.now (own_weight job.now at order.now) i) n) ≤ heads)
        × Linked heads job.now from first first links.old owned.old }
    ensures { FirstsBy job.now at from base order.now plan.now starts.now heads first i n result
        owned.old links.new owned.new }
{
    let mut count = first;
    for j in 0..n {
        count = add_own(
            job, at, from, order, plan, n, j, i, base, starts, heads, first, count, links, owned,
        );
    }
    count
}

// One rank more: of a kept one its place, how many kinds of own sources it has, and their places.
fn own_rank(
    job: &[u8],
    at: usize,
    from: usize,
    order: &[u32; 256],
    plan: &[u32; 256],
    n: usize,
    i: usize,
    base: usize,
    starts: &[u32],
    heads: usize,
    links: &mut [u16],
    kept: &mut [u32],
    owns: &mut [u32],
    owned: &mut [u16],
    k: usize,
    a: usize,
) -> usize
    requires { OwnsRoom job.now at from base order.now starts.now heads kept.old owns.old n × (i < n)
        × OwnsBy job.now at from base order.now plan.now starts.now heads n i k a kept.old owns.old links.old owned.old }
    ensures { OwnsBy job.now at from base order.now plan.now starts.now heads n (i + 1)
        (k + cond (eqb (get_or plan.now i 0) i) 1 0) result kept.new owns.new links.new owned.new }
{
    if plan[i] as usize != i {
        return a;
    }
    let r = add_owns(
        job, at, from, order, plan, n, i, base, starts, heads, a, links, owned,
    );
    kept[k] = order[i];
    owns[k] = (r - a) as u32;
    r
}

// The own sources of every kept rank: how many are kept.
pub fn gather_owns(
    job: &[u8],
    at: usize,
    from: usize,
    order: &[u32; 256],
    plan: &[u32; 256],
    n: usize,
    base: usize,
    starts: &[u32],
    heads: usize,
    links: &mut [u16],
    kept: &mut [u32],
    owns: &mut [u32],
    owned: &mut [u16],
) -> usize
    requires { OwnsRoom job.now at from base order.now starts.now heads kept.old owns.old n
        × Linked heads job.now from 0 0 links.old owned.old }
    ensures { OwnsBy job.now at from base order.now plan.now starts.now heads n n result
        (sum_below (elements owns.new) result) kept.new owns.new links.new owned.new }
{
    let mut k: usize = 0;
    let mut end: usize = 0;
    for i in 0..n {
        end = own_rank(
            job, at, from, order, plan, n, i, base, starts, heads, links, kept, owns, owned, k, end,
        );
        k += counted(plan[i], i);
    }
    k
}
