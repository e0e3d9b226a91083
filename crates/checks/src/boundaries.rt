// Refusals 9 to 12: the tests of one boundary record, and their loops.
ghost use Rattle.std.specs.Prelude.{◌≡◌, ◌+◌, ◌*◌, ◌≤◌, length};
ghost use Rattle.format.specs.Sizes.{boundary_size};
ghost use Rattle.checks.specs.Checks.{first_refusal, each};
ghost use Rattle.checks.specs.Faults.{ramp_fault, width_fault};
ghost use Rattle.format.specs.Bounds.{max_side};
ghost use Rattle.checks.specs.Single.{ramp_check, width_check, ends_check};
ghost use Rattle.checks.specs.Verdict.{meaning};

use crate::refused::Refused;
use crate::spans::ends_fault;
use format::{BOUNDARY_SIZE, MAX_WIDTH_BITS, RampRecord, read_boundary};

pub fn ramp_fault(r: RampRecord) -> bool
    ensures { result ≡ ramp_fault r }
{
    (2 < r.end)
        | (!(r.zero == 0) | ((r.end == 0) & !((r.lower == 0) & ((r.upper == 0) & (r.id == 0)))))
}

pub fn width_fault(bits: u64) -> bool
    ensures { result ≡ width_fault bits }
{
    MAX_WIDTH_BITS < bits
}

// The loops of 6 to 12 and of 16, 17 stay apart: a closure's clauses would be as long as a loop.
pub fn check_ramps(job: &[u8], at: usize, n: usize) -> Result<(), Refused>
    requires { at + n * boundary_size ≤ length job.now }
    ensures { meaning result ≡ first_refusal (each n (ramp_check job.now at)) }
{
    for i in 0..n {
        let b = read_boundary(job, at + i * BOUNDARY_SIZE);
        if ramp_fault(b.ramp) {
            return Err(Refused::BadRamp(i));
        }
    }
    Ok(())
}

pub fn check_widths(job: &[u8], at: usize, n: usize) -> Result<(), Refused>
    requires { at + n * boundary_size ≤ length job.now }
    ensures { meaning result ≡ first_refusal (each n (width_check job.now at)) }
{
    for i in 0..n {
        let b = read_boundary(job, at + i * BOUNDARY_SIZE);
        if width_fault(b.bits) {
            return Err(Refused::BadWidth(i));
        }
    }
    Ok(())
}

// 11 and 12 boundary by boundary; 12 only where the ends have to be distinct.
pub fn check_ends(
    job: &[u8],
    at: usize,
    n: usize,
    width: u32,
    height: u32,
    distinct: bool,
) -> Result<(), Refused>
    requires { (at + n * boundary_size ≤ length job.now) × (width ≤ max_side) × (height ≤ max_side) }
    ensures { meaning result ≡ first_refusal (each n (ends_check distinct job.now width height at)) }
{
    for i in 0..n {
        let b = read_boundary(job, at + i * BOUNDARY_SIZE);
        let e = b.ends;
        if ends_fault(width, height, e) {
            return Err(Refused::EndOffMap(i));
        }
        if distinct & e.coincides() {
            return Err(Refused::EndsCoincide(i));
        }
    }
    Ok(())
}
