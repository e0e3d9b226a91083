// Whether a region gives a link.
ghost use Rattle.std.specs.Prelude.{◌≡◌, not, ◌&&◌, ◌<◌, ◌≤◌};
ghost use Rattle.order.specs.Lists.{has};
ghost use Rattle.serial_candidates.specs.Gives.{has_region, OwnBounded, TwoBelow, joins_two};

use areas::spans::span_at;
use context::anchored::is_anchored;
use serial_links::geometry::centres_differ;

// The rank can be linked, and the region is one of its pair.
fn has_region(
    linkables: &[u8; 256],
    lowers: &[u32; 256],
    highers: &[u32; 256],
    rank: usize,
    region: u32,
) -> bool
    requires { rank < 256 }
    ensures { result ≡ has_region linkables.now lowers.now highers.now region rank }
{
    (linkables[rank] == 1) & ((region == lowers[rank]) | (region == highers[rank]))
}

// Exactly two ranks touch the region, both can be linked, and their centres differ.
pub fn joins_two(
    n: usize,
    own: &[u32; 1024],
    linkables: &[u8; 256],
    lowers: &[u32; 256],
    highers: &[u32; 256],
    count: u32,
    first: u32,
    second: u32,
    region: u32,
) -> bool
    requires { (n ≤ 256) × OwnBounded own.now n × TwoBelow count first second n }
    ensures { result ≡ joins_two own.now linkables.now lowers.now highers.now region count first second }
{
    if count != 2 {
        return false;
    }
    let i = first as usize;
    let j = second as usize;
    let one = has_region(linkables, lowers, highers, i, region);
    let other = has_region(linkables, lowers, highers, j, region);
    (one & other) & centres_differ(span_at(own, i), span_at(own, j))
}

// The region gives a link: it is none of the anchors' labels, and it joins two ranks.
pub fn gives_link(
    anchors: &[u32],
    n: usize,
    own: &[u32; 1024],
    linkables: &[u8; 256],
    lowers: &[u32; 256],
    highers: &[u32; 256],
    count: u32,
    first: u32,
    second: u32,
    region: u32,
) -> bool
    requires { (n ≤ 256) × OwnBounded own.now n × TwoBelow count first second n }
    ensures { result ≡ not (has region anchors.now) && joins_two own.now
        linkables.now lowers.now highers.now region count first second }
{
    let anchored = is_anchored(anchors, region);
    let joins = joins_two(
        n, own, linkables, lowers, highers, count, first, second, region,
    );
    !anchored & joins
}
