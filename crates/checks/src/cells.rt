// Refusal 6 over all cells.
ghost use Rattle.std.specs.Prelude.{◌≡◌, ◌+◌, ◌≤◌, length};
ghost use Rattle.format.specs.Sizes.{header_size};
ghost use Rattle.checks.specs.Checks.{first_refusal, each};
ghost use Rattle.checks.specs.Single.{cell_check};
ghost use Rattle.checks.specs.Verdict.{meaning};

use crate::refused::Refused;
use format::{CELL_LIMIT, HEADER_SIZE};

pub fn check_cells(job: &[u8], n: usize) -> Result<(), Refused>
    requires { header_size + n ≤ length job.now }
    ensures { meaning result ≡ first_refusal (each n (cell_check job.now)) }
{
    for i in 0..n {
        if CELL_LIMIT <= job[HEADER_SIZE + i] {
            return Err(Refused::BadCell(i));
        }
    }
    Ok(())
}
