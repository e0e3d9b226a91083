// The checks of each call, in document 01's order.
ghost use Rattle.std.specs.Prelude.{◌≡◌};
ghost use Rattle.checks.specs.Checks.{first_refusal};
ghost use Rattle.checks.specs.Passed.{Laid};
ghost use Rattle.checks_calls.specs.Refusals.{layout_checks, record_checks, job_checks, boundary_checks, reduce_checks, mark_checks, by_list_checks};
ghost use Rattle.checks.specs.Verdict.{meaning};

use checks::{
    Refused, check_bases, check_cells, check_ends, check_header, check_list, check_ramps,
    check_widths, sums_fault,
};
use format::{HEADER_SIZE, Header, read_header};

// 1 to 5.
fn check_layout(job: &[u8]) -> Result<(), Refused>
    ensures { meaning result ≡ first_refusal (layout_checks job.now) }
{
    if job.len() < HEADER_SIZE {
        return Err(Refused::JobTooShort);
    }
    let h = read_header(job);
    check_header(h)?;
    if job.len() != h.offsets.total as usize {
        return Err(Refused::BadLayout);
    }
    Ok(())
}

// 6 to 10.
fn check_records(job: &[u8], h: Header) -> Result<(), Refused>
    requires { Laid job.now h }
    ensures { meaning result ≡ first_refusal (record_checks job.now h.counts) }
{
    let c = h.counts;
    let o = h.offsets;
    check_cells(job, (c.width * c.height) as usize)?;
    check_bases(job, o.bases as usize, c.bases as usize, c.width, c.height)?;
    if sums_fault(job, h) {
        return Err(Refused::BadSums);
    }
    let at = o.boundaries as usize;
    let n = c.boundaries as usize;
    check_ramps(job, at, n)?;
    check_widths(job, at, n)
}

// 1 to 10.
pub fn check_job(job: &[u8]) -> Result<(), Refused>
    ensures { meaning result ≡ first_refusal (job_checks job.now) }
{
    check_layout(job)?;
    check_records(job, read_header(job))
}

// 1 to 12, or without 12 where ends may coincide.
// A flag, not a closure: boundary_checks of specs/Refusals.antt takes it, as ends_check does in check_ends.
pub fn check_boundaries(job: &[u8], distinct: bool) -> Result<(), Refused>
    ensures { meaning result ≡ first_refusal (boundary_checks distinct job.now) }
{
    check_job(job)?;
    let h = read_header(job);
    let c = h.counts;
    let o = h.offsets;
    check_ends(
        job,
        o.boundaries as usize,
        c.boundaries as usize,
        c.width,
        c.height,
        distinct,
    )
}

// Reduce's and Mark's are two functions, not one: each promises its own call's checks.
pub fn check_reduce(job: &[u8]) -> Result<(), Refused>
    ensures { meaning result ≡ first_refusal (reduce_checks job.now) }
{
    check_boundaries(job, true)
}

pub fn check_mark(job: &[u8]) -> Result<(), Refused>
    ensures { meaning result ≡ first_refusal (mark_checks job.now) }
{
    check_boundaries(job, true)
}

pub fn check_reduce_by_list(job: &[u8], list: &[u8]) -> Result<(), Refused>
    ensures { meaning result ≡ first_refusal (by_list_checks job.now list.now) }
{
    check_boundaries(job, false)?;
    let h = read_header(job);
    let c = h.counts;
    check_list(list, c.width, c.height)
}
