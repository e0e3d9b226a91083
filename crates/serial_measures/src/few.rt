// Links measured each by a pass over the cells.
ghost use Rattle.std.specs.Prelude.{◌≡◌, cond, ◌*◌, ◌/◌, ◌%◌, ◌<◌, ◌≤◌, length};
ghost use Rattle.areas.specs.Spans.{Sides};
ghost use Rattle.areas.specs.Words.{labels_in};
ghost use Rattle.serial_links.specs.HeldLimits.{limits_of};
ghost use Rattle.serial_links.specs.HeldLink.{link_with_cell};
ghost use Rattle.serial_measures.specs.Judging.{CoordinatesBounded, LinkEndsInside, Judged, AllCells};

use crate::{flat_mark, inside_mark, link_at, passing_mark};
use context::stats::{column_of, region_stats, row_of};
use serial_links::limits::Limits;
use serial_links::link::Link;
use wire::read_u32;

// With one cell more, if it is of the link's region. Apart from context's of a region's statistics: another thing counts, by another method.
fn counted(link: Link, inside: bool, i: usize, width: u32, limits: Limits) -> Link
    requires { (i < 1048576) × (0 < width) }
    ensures { result ≡ cond inside (link_with_cell (limits_of limits) link (i % width) (i / width)) link }
{
    if !inside {
        return link;
    }
    link.at(column_of(i, width), row_of(i, width), limits)
}

// With all the cells of its region.
pub fn measure_one(
    start: Link,
    n: usize,
    width: u32,
    labels: &[u8],
    region: u32,
    limits: Limits,
) -> Link
    requires { (0 < width) × (n ≤ 1048576) × (n * 4 ≤ length labels.now) }
    ensures { AllCells (limits_of limits) width (labels_in labels.now n) region n start result }
{
    let mut link = start;
    for i in 0..n {
        let label = read_u32(labels, 4 * i);
        link = counted(link, region == label, i, width, limits);
    }
    link
}

// Measures the links by the cells of their regions.
pub fn measure_few(
    cells: &[u8],
    width: u32,
    height: u32,
    work: &[u8],
    regions: &[u32; 256],
    firsts: &[u32; 256],
    seconds: &[u32; 256],
    links: usize,
    own: &[u32; 1024],
    bits: &[u64; 256],
    limits: Limits,
    passing: &mut [u8; 256],
    flat: &mut [u8; 256],
    inside: &mut [u8; 256],
)
    requires { Sides width height × (length cells.now ≡ width * height) × CoordinatesBounded own.now bits.now
        × LinkEndsInside firsts.now seconds.now links
        × (links ≤ 256) × (length cells.now * 4 ≤ length work.now) }
    ensures { Judged (limits_of limits) own.now bits.now regions.now firsts.now seconds.now
        (record { width = width; height = height; cells = cells.now }) (labels_in work.now (length cells.now))
        (length cells.now) links passing.new flat.new inside.new }
{
    *passing = [0u8; 256];
    *flat = [0u8; 256];
    *inside = [0u8; 256];
    let n = cells.len();
    for k in 0..links {
        let region = regions[k];
        let start = link_at(own, bits, firsts[k], seconds[k]);
        let link = measure_one(start, n, width, work, region, limits);
        let stats = region_stats(cells, width, work, region);
        passing[k] = passing_mark(link, limits);
        flat[k] = flat_mark(link, stats);
        inside[k] = inside_mark(link);
    }
}
