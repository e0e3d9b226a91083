// What each span of a list does to the areas.
ghost use Rattle.std.specs.Prelude.{◌*◌, length};
ghost use Rattle.grid.specs.Cells.{map_of};
ghost use Rattle.areas.specs.Words.{labels_in};
ghost use Rattle.grid.specs.Directions.{directions_of};
ghost use Rattle.areas_assessments.specs.Recording.{Recorded, SpansOnMap, Arrays};

use super::strip::assess_span;
use areas::spans::span_at;

// The counts of the first spans, and their pairs as records in the order of the spans. Gives the number of records, and one more than the arrays hold
// where they are over that.
// A number, not a Result: `Recorded` has it, and Partition hands it on.
pub fn assess_spans(
    cells: &[u8],
    width: u32,
    height: u32,
    directions: u32,
    labels: &[u8],
    ends: &[u32; 1024],
    count: usize,
    removed: &mut [u32],
    separated: &mut [u32],
    owners: &mut [u32],
    lefts: &mut [u32],
    rights: &mut [u32],
) -> usize
    requires { SpansOnMap width height cells.now labels.now ends.now count
        × Arrays (length lefts.old) removed.old separated.old owners.old lefts.old rights.old }
    ensures { Recorded (labels_in labels.now (width * height)) (directions_of directions) (map_of width height cells.now)
        (length lefts.old) ends.now count removed.new separated.new owners.new lefts.new
        rights.new result }
{
    let most = lefts.len();
    let mut end: usize = 0;
    for i in 0..count {
        let span = span_at(ends, i);
        let a = assess_span(
            cells, width, height, directions, labels, span, lefts, rights, end,
        );
        let next = a.end;
        if most < next {
            return most + 1;
        }
        removed[i] = a.removed;
        separated[i] = a.separated;
        owners[end..next].fill(i as u32);
        end = next;
    }
    end
}
