// Refusal 7 over all bases.
ghost use Rattle.std.specs.Prelude.{◌≡◌, ◌+◌, ◌*◌, ◌≤◌, length};
ghost use Rattle.format.specs.Sizes.{base_size};
ghost use Rattle.checks.specs.Checks.{first_refusal, each};
ghost use Rattle.checks.specs.Faults.{anchor_fault};
ghost use Rattle.checks.specs.Single.{base_check};
ghost use Rattle.checks.specs.Verdict.{meaning};

use crate::refused::Refused;
use format::{BASE_SIZE, NO_ANCHOR, read_base};
use position::WalkPosition;

fn anchor_fault(width: u32, height: u32, p: WalkPosition) -> bool
    ensures { result ≡ anchor_fault width height p }
{
    !((p.x == NO_ANCHOR) & (p.y == NO_ANCHOR)) & ((width <= p.x) | (height <= p.y))
}

pub fn check_bases(job: &[u8], at: usize, n: usize, width: u32, height: u32) -> Result<(), Refused>
    requires { at + n * base_size ≤ length job.now }
    ensures { meaning result ≡ first_refusal (each n (base_check job.now width height at)) }
{
    for i in 0..n {
        let b = read_base(job, at + i * BASE_SIZE);
        if anchor_fault(width, height, b.anchor) {
            return Err(Refused::AnchorOffMap(i));
        }
    }
    Ok(())
}
