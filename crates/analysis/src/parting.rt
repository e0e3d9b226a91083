// The areas of a map parted by spans, and how many there are.
ghost use Rattle.std.specs.Prelude.{◌≡◌};
ghost use mathlib.Core.Logic.{◌⊎◌};
ghost use Rattle.grid.specs.Cells.{map_of};
ghost use Rattle.grid.specs.Directions.{directions_of};
ghost use Rattle.areas.specs.Spans.{spans_in};
ghost use Rattle.areas_partition.specs.Partitioned.{Partitionable};
ghost use Rattle.results.specs.Results.{max_pairs};
ghost use Rattle.analysis.specs.Bridging.{few_pairs, AreasWithin};

use crate::bridged::{FEW_PAIRS, MAX_PAIRS, is_small};
use areas_partition::{Partition, partition_by_spans};

// Partitions a map by spans, with room for PAIRS region pairs.
fn areas_within<const PAIRS: usize>(
    cells: &[u8],
    width: u32,
    height: u32,
    directions: u32,
    ends: &[u32; 1024],
    count: usize,
    work: &mut [u8],
) -> Partition
    requires room { (PAIRS ≡ few_pairs) ⊎ (PAIRS ≡ max_pairs) }
    requires parted { Partitionable width height cells.now directions ends.now count work.old }
    ensures { AreasWithin PAIRS (directions_of directions) (map_of width height cells.now) (spans_in ends.now count)
        work.old work.new result.areas result.pairs }
{
    let mut removed = [0u32; 256];
    let mut separated = [0u32; 256];
    let mut owners = [0u32; PAIRS];
    let mut lefts = [0u32; PAIRS];
    let mut rights = [0u32; PAIRS];
    partition_by_spans(
        cells,
        width,
        height,
        directions,
        ends,
        count,
        work,
        &mut removed,
        &mut separated,
        &mut owners,
        &mut lefts,
        &mut rights,
    )
}

// Partitions a map by spans; gives the numbers of areas, where the region pairs aren't too many, and of pairs.
// find_marks and plan_matched try room for few pairs alike: a closure can't be generic in the room.
pub fn find_areas(
    cells: &[u8],
    width: u32,
    height: u32,
    directions: u32,
    ends: &[u32; 1024],
    count: usize,
    work: &mut [u8],
) -> Partition
    requires { Partitionable width height cells.now directions ends.now count work.old }
    ensures { AreasWithin max_pairs (directions_of directions) (map_of width height cells.now) (spans_in ends.now count)
        work.old work.new result.areas result.pairs }
{
    if !is_small(cells.len(), count) {
        return areas_within::<MAX_PAIRS>(cells, width, height, directions, ends, count, work);
    }
    let p = areas_within::<FEW_PAIRS>(cells, width, height, directions, ends, count, work);
    let pairs = p.pairs;
    if pairs <= FEW_PAIRS {
        return p;
    }
    areas_within::<MAX_PAIRS>(cells, width, height, directions, ends, count, work)
}
