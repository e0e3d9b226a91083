// Where each boundary's own sources and each observation's sources stand.
ghost use Rattle.std.specs.Prelude.{◌≡◌, cond, ◌+◌, ◌*◌, ◌≤◌, eqb};
ghost use Rattle.answer_sources.specs.Laying.{own_count, seen_count, cited_count, LayRoom, Lays, Countable, PlanRoom, LaidAll};

use format::{BOUNDARY_SIZE, OBSERVATION_SIZE, read_boundary, read_observation};

// The sources of the n observations from place p on, from `run` on: where they end.
fn lay_observations(
    job: &[u8],
    at: usize,
    p: usize,
    n: usize,
    run: u32,
    starts: &mut [u32],
    counts: &mut [u32],
) -> u32
    requires { LayRoom job.now at p n run starts.old counts.old }
    ensures { Lays (cited_count job.now at) p n run starts.old counts.old starts.new counts.new result }
{
    let mut r = run;
    for i in 0..n {
        let o = read_observation(job, at + (p + i) * OBSERVATION_SIZE);
        let v = o.sources;
        starts[p + i] = r;
        counts[p + i] = v;
        r += v;
    }
    r
}

// How many of a boundary's own sources it stands with as an observation.
fn stood_with(own: u32, stands: u32) -> u32
    ensures { (result ≡ cond (eqb stands 1) own 0) × (result ≤ own) }
{
    if stands == 1 {
        return own;
    }
    0
}

// The sources of the n boundaries and of their observations: for each where they start and how many there are, at an observation's
// place and at `base` and a boundary's, where one that doesn't stand as an observation has none; and each boundary's first observation.
pub fn lay_boundaries(
    job: &[u8],
    at: usize,
    n: usize,
    ats: usize,
    base: usize,
    stands: &[u32; 256],
    firsts: &mut [u32],
    starts: &mut [u32],
    counts: &mut [u32],
)
    requires { Countable job.now at n ats base × PlanRoom base n firsts.old starts.old counts.old }
    ensures { LaidAll stands.now (own_count job.now at) (seen_count job.now at) (cited_count job.now ats)
        base n firsts.new starts.new counts.new }
{
    let mut run: u32 = 0;
    let mut p: usize = 0;
    for b in 0..n {
        let x = read_boundary(job, at + b * BOUNDARY_SIZE);
        let own = x.sources;
        let seen = x.observations as usize;
        firsts[b] = p as u32;
        starts[base + b] = run;
        counts[base + b] = stood_with(own, stands[b]);
        run = lay_observations(job, ats, p, seen, run + own, starts, counts);
        p += seen;
    }
}
