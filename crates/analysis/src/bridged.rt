// Partition, records and bridges: the core of Reduce and Reduce by list.
ghost use Rattle.std.specs.Prelude.{length};
ghost use Rattle.grid.specs.Cells.{map_of};
ghost use Rattle.grid.specs.Directions.{directions_of};
ghost use Rattle.areas.specs.Spans.{spans_in};
ghost use Rattle.areas_assessments.specs.Recording.{Arrays};
ghost use Rattle.areas_partition.specs.Partitioned.{Partitionable, Partitioned};
ghost use Rattle.analysis.specs.Bridging.{Bridged};

use areas_partition::{Partition, partition_by_spans};
use serial_bridges::bridge_boundary_indices;

// "13 over 4,096 region pairs in all."
// Too many are told by their number, not by a Result: `work` holds then too, and check_pairs refuses it.
pub const MAX_PAIRS: usize = 4_096;

// A map of few cells and spans is parted with room for few region pairs first, which costs little to clear.
const FEW_CELLS: usize = 1_024;

const FEW_SPANS: usize = 16;

pub const FEW_PAIRS: usize = 64;

// The functions of both rooms ask for few_pairs or max_pairs: so this one is few_pairs.
const _: () = prove!(FEW_PAIRS < MAX_PAIRS);

// Whether room for few region pairs is tried first. Nothing is promised: either answer is right.
pub fn is_small(cells: usize, spans: usize) -> bool {
    (cells <= FEW_CELLS) & (spans <= FEW_SPANS)
}

// Partitions a map by spans, and marks the spans that are bridges where the arrays have room for the region pairs.
pub fn analyse(
    cells: &[u8],
    width: u32,
    height: u32,
    directions: u32,
    ends: &[u32; 1024],
    count: usize,
    work: &mut [u8],
    removed: &mut [u32; 256],
    separated: &mut [u32; 256],
    owners: &mut [u32],
    lefts: &mut [u32],
    rights: &mut [u32],
    marks: &mut [u8; 256],
) -> Partition
    requires { Partitionable width height cells.now directions ends.now count work.old
        × Arrays (length lefts.old) removed.old separated.old owners.old lefts.old rights.old }
    ensures partitioned { Partitioned (length lefts.old) (directions_of directions) (map_of width height cells.now) ends.now count
        work.old work.new removed.new separated.new owners.new lefts.new rights.new
        result }
    ensures marks { Bridged (length lefts.old) (directions_of directions) (map_of width height cells.now)
        (spans_in ends.now count) marks.new }
{
    let n = cells.len();
    let most = lefts.len();
    let p = partition_by_spans(
        cells, width, height, directions, ends, count, work, removed, separated, owners, lefts,
        rights,
    );
    let pairs = p.pairs;
    if most < pairs {
        return p;
    }
    bridge_boundary_indices(owners, lefts, rights, pairs, n, work, 4 * n, marks);
    p
}
