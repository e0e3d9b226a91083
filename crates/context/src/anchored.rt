// The labels of the anchors' cells, read once, and whether a region's is among them.
ghost use Rattle.std.specs.Prelude.{◌≡◌, ◌≤◌, ◌<◌, length};
ghost use Rattle.order.specs.Lists.{has};
ghost use Rattle.areas.specs.Words.{labels_in};
ghost use Rattle.context.specs.AnchorLoop.{MapLabels, Hit, AnchorsOnMap, LabelAdded, LabelsRead};

use format::{BASE_SIZE, NO_ANCHOR, read_base};
use position::WalkPosition;
use wire::read_u32;

// Adds the label of the anchor's cell, if there is an anchor. Gives how many labels there are then.
fn add_label(
    labels: &[u8],
    n: usize,
    width: u32,
    p: WalkPosition,
    found: usize,
    anchors: &mut [u32],
) -> usize
    requires { MapLabels labels.now n × Hit p width n × (found < length anchors.old) }
    ensures { LabelAdded width (labels_in labels.now n) p anchors.old found anchors.new result }
{
    let x = p.x;
    let y = p.y;
    if (x == NO_ANCHOR) & (y == NO_ANCHOR) {
        return found;
    }
    let i = y as usize * width as usize + x as usize;
    anchors[found] = read_u32(labels, 4 * i);
    found + 1
}

// The labels of the cells of all bases' anchors, in the order of the bases. Gives how many there are. A lent slice and a count, not a Vec:
// there is no heap.
pub fn anchor_labels(
    job: &[u8],
    at: usize,
    count: usize,
    width: u32,
    labels: &[u8],
    n: usize,
    anchors: &mut [u32],
) -> usize
    requires { AnchorsOnMap job.now at count width labels.now n × (count ≤ length anchors.old) }
    ensures { LabelsRead job.now at count width (labels_in labels.now n) anchors.new result }
{
    let mut found: usize = 0;
    for i in 0..count {
        let b = read_base(job, at + i * BASE_SIZE);
        found = add_label(labels, n, width, b.anchor, found, anchors);
    }
    found
}

// The region is among the anchors' labels.
pub fn is_anchored(anchors: &[u32], region: u32) -> bool
    ensures { result ≡ has region anchors.now }
{
    let mut found = false;
    for anchor in anchors {
        found = (region == *anchor) | found;
    }
    found
}
