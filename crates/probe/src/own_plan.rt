// The merge plan alone, by the boundaries' own order.
ghost use Rattle.std.specs.Prelude.{◌≡◌, ◌*◌, ◌≤◌, ◌<◌, length, get_or};
ghost use Rattle.format.specs.Decode.{decode};
ghost use Rattle.grid.specs.Directions.{eight, directions_of};
ghost use Rattle.serial_links.specs.Limits.{limits000};
ghost use Rattle.serial_links.specs.HeldLimits.{limits_of};
ghost use Rattle.analysis.specs.Plans.{Leads, PlanLeft};
ghost use Rattle.probe.specs.Planning.{probe_checks, probe_spans, CountOf, PermutationOf, PlanInside, Words, PlanAnswer};

use analysis::{ChokesResult, plan_reduce, plan_reduce_by_list};
use checks::refusals::ANSWER_TOO_SHORT;
use format::{HEADER_SIZE, read_header};
use grid::neighbors::EIGHT;
use serial_links::limits::Limits;
use wire::write_u32;

// The plan of Reduce, or of Reduce by list where `which` isn't 0.
// `which` is C's number, not an enum: probe_checks and probe_spans of specs/Planning.antt take it.
fn plan_of(
    limits: Limits,
    directions: u32,
    job: &[u8],
    list: &[u8],
    which: u32,
    work: &mut [u8],
    order: &mut [u32; 256],
    plan: &mut [u32; 256],
) -> ChokesResult
    requires { (limits.most_spans ≤ 16) × Leads directions }
    ensures { PlanLeft (limits_of limits) (directions_of directions) (probe_checks which job.now list.now) (decode job.now)
        (probe_spans which job.now list.now)
        work.old work.new order.new plan.new result.number result.detail }
{
    if which == 0 {
        return plan_reduce(limits, directions, job, work, order, plan);
    }
    plan_reduce_by_list(limits, directions, job, list, work, order, plan)
}

// For each boundary, the one that it goes into.
fn write_plan(order: &[u32; 256], plan: &[u32; 256], n: usize, out: &mut [u8])
    requires { (n ≤ 256) × PermutationOf order.now n × PlanInside plan.now n × (4 * n ≤ length out.old) }
    ensures { Words order.now (λ i. get_or order.now (get_or plan.now i 0) 0) n n out.old out.new }
{
    for i in 0..n {
        let place = 4 * order[i] as usize;
        let to = plan[i] as usize;
        write_u32(out, place, order[to]);
    }
}

// How many boundaries a job has, of the first 256.
// A number, not an Option: a job that is none was refused before, and CountOf asks for at most 256.
fn count_of(job: &[u8]) -> usize
    ensures { CountOf job.now result }
{
    if job.len() < HEADER_SIZE {
        return 0;
    }
    let h = read_header(job);
    let c = h.counts;
    let n = c.boundaries as usize;
    if 256 < n {
        return 0;
    }
    n
}

// Little-endian words, one a boundary.
pub fn probe_plan(
    job: &[u8],
    list: &[u8],
    which: u32,
    work: &mut [u8],
    out: &mut [u8],
) -> ChokesResult
    ensures { PlanAnswer limits000 eight (probe_checks which job.now list.now) (decode job.now)
        (probe_spans which job.now list.now)
        work.old out.old work.new out.new result.number result.detail }
{
    let mut order = [0u32; 256];
    let mut plan = [0u32; 256];
    let r = plan_of(
        Limits::of_000(),
        EIGHT,
        job,
        list,
        which,
        work,
        &mut order,
        &mut plan,
    );
    if 0 < r.number {
        return r;
    }
    let n = count_of(job);
    let total = 4 * n;
    if out.len() < total {
        return ChokesResult {
            number: ANSWER_TOO_SHORT,
            detail: total as u64,
        };
    }
    write_plan(&order, &plan, n, out);
    ChokesResult {
        number: 0,
        detail: total as u64,
    }
}
