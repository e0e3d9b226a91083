// The regions of the ranks that can be linked, in order.
ghost use Rattle.std.specs.Prelude.{◌≡◌, ◌≤◌, ◌<◌};
ghost use Rattle.serial_candidates.specs.Next.{lesser_above, considered, next_after};

// The least number above `after` of the two, where 0 is none yet.
fn nearer(after: u32, best: u32, x: u32) -> u32
    ensures { (result ≡ lesser_above after best x) × (result < 4294967296) }
{
    if (after < x) & ((best == 0) | (x < best)) {
        x
    } else {
        best
    }
}

// The regions of one rank more.
fn considered(after: u32, best: u32, mark: u8, lower: u32, higher: u32) -> u32
    ensures { (result ≡ considered after best mark lower higher) × (result < 4294967296) }
{
    if mark == 1 {
        return nearer(after, nearer(after, best, lower), higher);
    }
    best
}

// The least region above `after` in the pairs of the marked ranks, 0 if there is none. A number, not an Option: specs/Next.antt's next_after says 0.
pub fn next_region(
    n: usize,
    linkables: &[u8; 256],
    lowers: &[u32; 256],
    highers: &[u32; 256],
    after: u32,
) -> u32
    requires { n ≤ 256 }
    ensures { (result ≡ next_after linkables.now lowers.now highers.now after n) × (result < 4294967296) }
{
    let mut best: u32 = 0;
    for i in 0..n {
        best = considered(after, best, linkables[i], lowers[i], highers[i]);
    }
    best
}
