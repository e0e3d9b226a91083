// The ranks that can be linked.
ghost use Rattle.std.specs.Prelude.{◌≡◌, cond, ◌<◌, ◌≤◌};
ghost use Rattle.serial_candidates.specs.Linkable.{can_link, Flags};

use areas::spans::span_at;
use context::pairs::has_full_pair;

// 1 if the rank has distinct ends, no ramp and a full pair, else 0.
// A byte, not a bool: has_region of specs/Gives.antt tests the mark for 1.
fn mark(
    rank: usize,
    own: &[u32; 1024],
    ramps: &[u8; 256],
    removed: &[u32; 256],
    separated: &[u32; 256],
    counts: &[u32; 256],
) -> u8
    requires { rank < 256 }
    ensures { result ≡ cond (can_link own.now ramps.now removed.now separated.now counts.now rank) 1
        0 }
{
    let s = span_at(own, rank);
    let distinct = !s.coincides();
    let plain = ramps[rank] == 0;
    let full = has_full_pair(removed[rank], separated[rank], counts[rank]);
    u8::from((distinct & plain) & full)
}

// A mark for each rank.
pub fn find_linkables(
    n: usize,
    own: &[u32; 1024],
    ramps: &[u8; 256],
    removed: &[u32; 256],
    separated: &[u32; 256],
    counts: &[u32; 256],
    linkables: &mut [u8; 256],
)
    requires { n ≤ 256 }
    ensures { Flags (can_link own.now ramps.now removed.now separated.now counts.now) n
        linkables.new }
{
    *linkables = [0u8; 256];
    for i in 0..n {
        linkables[i] = mark(i, own, ramps, removed, separated, counts);
    }
}
