// The steps that no span of a list cuts, in a byte a cell.
ghost use Rattle.std.specs.Prelude.{◌≡◌, ◌+◌, ◌*◌, ◌≤◌, length};
ghost use Rattle.lists.specs.Rows.{rows};
ghost use Rattle.wire.specs.Bytes.{splice};
ghost use Rattle.grid.specs.Directions.{directions_of};
ghost use Rattle.areas.specs.Open.{open_byte};
ghost use Rattle.areas.specs.Spans.{Sides, SpansFit, spans_in};

use super::closing::close_cut;
use super::opening::open_steps;
use areas::spans::span_at;

// Writes the bytes of all the cells from base on. The spans are numbers in a lent array and their count, not a Vec: there is no heap.
pub fn mark_spans(
    cells: &[u8],
    width: u32,
    height: u32,
    directions: u32,
    ends: &[u32; 1024],
    count: usize,
    work: &mut [u8],
    base: usize,
)
    requires { Sides width height × (length cells.now ≡ width * height) × (base + width * height ≤ length work.old) × (count ≤ 256)
        × SpansFit width height ends.now count }
    ensures { work.new ≡ splice work.old base
        (rows (length cells.now)
        (open_byte (directions_of directions) (record { width = width; height = height; cells = cells.now })
        (spans_in ends.now count))) }
{
    open_steps(cells, width, height, directions, work, base);
    for k in 0..count {
        close_cut(span_at(ends, k), width, height, work, base);
    }
}
