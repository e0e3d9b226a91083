// Partition, records and marks: the core of Mark.
ghost use Rattle.std.specs.Prelude.{◌≡◌, length};
ghost use mathlib.Core.Logic.{◌⊎◌};
ghost use Rattle.grid.specs.Cells.{map_of};
ghost use Rattle.grid.specs.Directions.{directions_of};
ghost use Rattle.areas.specs.Spans.{spans_in};
ghost use Rattle.areas_assessments.specs.Recording.{Arrays};
ghost use Rattle.areas_partition.specs.Partitioned.{Partitionable};
ghost use Rattle.results.specs.Results.{max_pairs};
ghost use Rattle.analysis.specs.Bridging.{few_pairs, MarkedWithin};

use crate::bridged::{FEW_PAIRS, MAX_PAIRS, is_small};
use areas_partition::partition_by_spans;
use marks::mark_boundaries;

// Partitions a map by spans, and marks those that are chokes where the arrays have room for the region pairs; gives their number.
fn mark_spans(
    cells: &[u8],
    width: u32,
    height: u32,
    directions: u32,
    ends: &[u32; 1024],
    count: usize,
    work: &mut [u8],
    removed: &mut [u32; 256],
    separated: &mut [u32; 256],
    owners: &mut [u32],
    lefts: &mut [u32],
    rights: &mut [u32],
    marks: &mut [u8; 256],
) -> usize
    requires { Partitionable width height cells.now directions ends.now count work.old
        × Arrays (length lefts.old) removed.old separated.old owners.old lefts.old rights.old }
    ensures { MarkedWithin (length lefts.old) (directions_of directions) (map_of width height cells.now)
        (spans_in ends.now count) marks.new work.old work.new result }
{
    let n = cells.len();
    let most = lefts.len();
    let p = partition_by_spans(
        cells, width, height, directions, ends, count, work, removed, separated, owners, lefts,
        rights,
    );
    let pairs = p.pairs;
    if most < pairs {
        return pairs;
    }
    mark_boundaries(owners, lefts, rights, pairs, n, work, 4 * n, marks);
    pairs
}

// The same with room for PAIRS region pairs.
fn marks_within<const PAIRS: usize>(
    cells: &[u8],
    width: u32,
    height: u32,
    directions: u32,
    ends: &[u32; 1024],
    count: usize,
    work: &mut [u8],
    marks: &mut [u8; 256],
) -> usize
    requires room { (PAIRS ≡ few_pairs) ⊎ (PAIRS ≡ max_pairs) }
    requires parted { Partitionable width height cells.now directions ends.now count work.old }
    ensures { MarkedWithin PAIRS (directions_of directions) (map_of width height cells.now) (spans_in ends.now count)
        marks.new work.old work.new result }
{
    let mut removed = [0u32; 256];
    let mut separated = [0u32; 256];
    let mut owners = [0u32; PAIRS];
    let mut lefts = [0u32; PAIRS];
    let mut rights = [0u32; PAIRS];
    mark_spans(
        cells,
        width,
        height,
        directions,
        ends,
        count,
        work,
        &mut removed,
        &mut separated,
        &mut owners,
        &mut lefts,
        &mut rights,
        marks,
    )
}

// Partitions a map by spans, and marks those that are chokes where the region pairs aren't too many; gives the number of pairs.
pub fn find_marks(
    cells: &[u8],
    width: u32,
    height: u32,
    directions: u32,
    ends: &[u32; 1024],
    count: usize,
    work: &mut [u8],
    marks: &mut [u8; 256],
) -> usize
    requires { Partitionable width height cells.now directions ends.now count work.old }
    ensures { MarkedWithin max_pairs (directions_of directions) (map_of width height cells.now) (spans_in ends.now count)
        marks.new work.old work.new result }
{
    if !is_small(cells.len(), count) {
        return marks_within::<MAX_PAIRS>(
            cells, width, height, directions, ends, count, work, marks,
        );
    }
    let pairs = marks_within::<FEW_PAIRS>(
        cells, width, height, directions, ends, count, work, marks,
    );
    if pairs <= FEW_PAIRS {
        return pairs;
    }
    marks_within::<MAX_PAIRS>(cells, width, height, directions, ends, count, work, marks)
}
