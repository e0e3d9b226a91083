// Checks, partition and plan of Reduce and Reduce by list: all but the answer.
ghost use Rattle.std.specs.Prelude.{◌≤◌};
ghost use Rattle.format.specs.Decode.{decode, decode_list};
ghost use Rattle.grid.specs.Directions.{directions_of};
ghost use Rattle.serial_links.specs.HeldLimits.{limits_of};
ghost use Rattle.checks.specs.Verdict.{meaning, number_of, detail_of};
ghost use Rattle.checks_calls.specs.Refusals.{reduce_checks, by_list_checks};
ghost use Rattle.results.specs.Results.{own_ends};
ghost use Rattle.analysis.specs.Plans.{Leads, PlanLeft};

use crate::drawing::{order_boundaries, plan_by_list, plan_own};
use crate::result::{ChokesResult, WORK_PER_CELL, check_pairs, check_room};
use checks::Refused;
use checks_calls::{check_reduce, check_reduce_by_list};
use format::read_header;
use serial_links::limits::Limits;

// The merges of a job by its boundaries' own ends: the plan by rank, or a refusal. Left free: what `order` and `plan` hold past the last
// boundary, and all that they hold after a refusal.
// Not one with merges_by_list over closures: two calls differ, and the clauses of both would be longer.
pub fn merges_by_own_ends(
    limits: Limits,
    directions: u32,
    job: &[u8],
    work: &mut [u8],
    order: &mut [u32; 256],
    plan: &mut [u32; 256],
) -> Result<(), Refused>
    requires { (limits.most_spans ≤ 16) × Leads directions }
    ensures { PlanLeft (limits_of limits) (directions_of directions) (reduce_checks job.now) (decode job.now)
        (own_ends (decode job.now)) work.old work.new order.new plan.new (number_of (meaning result)) (detail_of (meaning result)) }
{
    check_room(check_reduce(job), job, WORK_PER_CELL, work.len())?;
    let h = read_header(job);
    *order = [0u32; 256];
    *plan = [0u32; 256];
    order_boundaries(job, h, order);
    let pairs = plan_own(limits, directions, job, h, order, work, plan);
    check_pairs(pairs)
}

// The merges of a job by the spans of a list. Left free is what `merges_by_own_ends` leaves free.
pub fn merges_by_list(
    limits: Limits,
    directions: u32,
    job: &[u8],
    list: &[u8],
    work: &mut [u8],
    order: &mut [u32; 256],
    plan: &mut [u32; 256],
) -> Result<(), Refused>
    requires { (limits.most_spans ≤ 16) × Leads directions }
    ensures { PlanLeft (limits_of limits) (directions_of directions) (by_list_checks job.now list.now) (decode job.now)
        (decode_list list.now) work.old work.new order.new plan.new (number_of (meaning result)) (detail_of (meaning result)) }
{
    check_room(
        check_reduce_by_list(job, list),
        job,
        WORK_PER_CELL,
        work.len(),
    )?;
    let h = read_header(job);
    *order = [0u32; 256];
    *plan = [0u32; 256];
    order_boundaries(job, h, order);
    let pairs = plan_by_list(limits, directions, job, h, list, order, work, plan);
    check_pairs(pairs)
}

// What `merges_by_own_ends` answers, as a call gives it back.
pub fn plan_reduce(
    limits: Limits,
    directions: u32,
    job: &[u8],
    work: &mut [u8],
    order: &mut [u32; 256],
    plan: &mut [u32; 256],
) -> ChokesResult
    requires { (limits.most_spans ≤ 16) × Leads directions }
    ensures { PlanLeft (limits_of limits) (directions_of directions) (reduce_checks job.now) (decode job.now)
        (own_ends (decode job.now)) work.old work.new order.new plan.new result.number result.detail }
{
    let made = merges_by_own_ends(limits, directions, job, work, order, plan);
    ChokesResult::from(made)
}

// What `merges_by_list` answers, as a call gives it back.
pub fn plan_reduce_by_list(
    limits: Limits,
    directions: u32,
    job: &[u8],
    list: &[u8],
    work: &mut [u8],
    order: &mut [u32; 256],
    plan: &mut [u32; 256],
) -> ChokesResult
    requires { (limits.most_spans ≤ 16) × Leads directions }
    ensures { PlanLeft (limits_of limits) (directions_of directions) (by_list_checks job.now list.now) (decode job.now)
        (decode_list list.now) work.old work.new order.new plan.new result.number result.detail }
{
    let made = merges_by_list(limits, directions, job, list, work, order, plan);
    ChokesResult::from(made)
}
