// The areas that spans part a map into, and what each span does to them, in lent bytes.
#![tactic(auto)]

ghost use Rattle.std.specs.Prelude.{◌*◌, length};
ghost use Rattle.grid.specs.Cells.{map_of};
ghost use Rattle.grid.specs.Directions.{directions_of};
ghost use Rattle.areas.specs.Spans.{spans_in};
ghost use Rattle.areas_assessments.specs.Recording.{Arrays};
ghost use Rattle.areas_partition.specs.Partitioned.{Partitionable, AreasIn, Partitioned};

use areas_assessments::spans::assess_spans;
use areas_components::{components, write_dues, zero_fill};
use areas_steps::spans::mark_spans;

// The number of areas, and that of region pairs: one more than the arrays hold where they are over that. A number, not a Result: the labels
// and the areas hold where the pairs are over.
#[derive(Clone, Copy)]
pub struct Partition {
    pub areas: u32,
    pub pairs: usize,
}

// Writes the labels of the areas to the start of work, four bytes a cell; the open bytes stand after them, and then the due bytes. Gives the number of areas.
// Map, spans and lent arrays go one by one: partition_by_spans is public, and what it says is of each. There is no heap.
fn label_areas(
    cells: &[u8],
    width: u32,
    height: u32,
    directions: u32,
    ends: &[u32; 1024],
    count: usize,
    work: &mut [u8],
) -> u32
    requires { Partitionable width height cells.now directions ends.now count work.old }
    ensures { AreasIn (directions_of directions) (map_of width height cells.now) (spans_in ends.now count) work.old
        work.new result }
{
    let n = cells.len();
    let base = 4 * n;
    mark_spans(cells, width, height, directions, ends, count, work, base);
    write_dues(work, base, n, width as usize);
    components(cells, width, work, base)
}

// Labels the areas that the spans make in the first bytes of work, and zeroes the others up to ten a cell; the counts of each span, and the
// region pairs of all spans, in arrays.
pub fn partition_by_spans(
    cells: &[u8],
    width: u32,
    height: u32,
    directions: u32,
    ends: &[u32; 1024],
    count: usize,
    work: &mut [u8],
    removed: &mut [u32],
    separated: &mut [u32],
    owners: &mut [u32],
    lefts: &mut [u32],
    rights: &mut [u32],
) -> Partition
    requires { Partitionable width height cells.now directions ends.now count work.old
        × Arrays (length lefts.old) removed.old separated.old owners.old lefts.old rights.old }
    ensures { Partitioned (length lefts.old) (directions_of directions) (map_of width height cells.now) ends.now count
        work.old work.new removed.new separated.new owners.new lefts.new rights.new
        result }
{
    let n = cells.len();
    let areas = label_areas(cells, width, height, directions, ends, count, work);
    let pairs = assess_spans(
        cells,
        width,
        height,
        directions,
        &work[0..4 * n],
        ends,
        count,
        removed,
        separated,
        owners,
        lefts,
        rights,
    );
    zero_fill(work, 4 * n, 10 * n);
    Partition { areas, pairs }
}
