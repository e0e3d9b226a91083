// The connected components of a map's cells, labelled in row order, in lent bytes.
#![tactic(auto)]

ghost use Rattle.std.specs.Prelude.{◌≡◌, ◌+◌, ◌*◌, ◌≤◌, ◌<◌, length};
ghost use Rattle.wire.specs.Bytes.{part};
ghost use Rattle.grid.specs.Cells.{Grid, walkable};
ghost use Rattle.areas.specs.Open.{named};
ghost use Rattle.areas_components.specs.Dues.{dues};
ghost use Rattle.areas_components.specs.Joining.{OpenBytesSound};
ghost use Rattle.areas_components.specs.Numbered.{ComponentLabels};

mod cells; // where the bytes of cells stand
mod parents; // the parents of cells: start, find, join
mod dues; // the due bytes
mod runs; // the parents of cells in a run
mod steps; // joins the cells that the open bytes say are joined
mod numbers; // labels in row order
mod counts; // what is read from labels, and zeros
mod area; // one area: its label, and how many cells have it

pub use area::{PartitionArea, partition_area};
use cells::CellBytes;
pub use counts::{count_cells, zero_fill};
pub use dues::write_dues;
use numbers::number;
use runs::run_parents;

// Labels the cells of a map by the components that the open bytes at `base` make, which the due bytes stand after: u32 words at the start of
// `work`. Gives the number of labels.
pub fn components(cells: &[u8], width: u32, work: &mut [u8], base: usize) -> u32
    requires cells_len_bound { (length cells.now ≤ 1048576) × (0 < width) × (4 * length cells.now ≤ base) × (base + 2 * length cells.now ≤ length work.old) }
    requires open_bytes_sound { OpenBytesSound cells.now width (part work.old base (length cells.now)) }
    requires cells_value { part work.old (base + length cells.now) (length cells.now) ≡ dues width (part work.old base (length cells.now)) }
    ensures { (g : Grid) → g.cells ≡ cells.now
        → ComponentLabels (length cells.now) (walkable g) (named width (part work.old base (length cells.now)))
        work.old work.new result }
{
    let n = cells.len();
    run_parents(work, base, n);
    let dues = CellBytes {
        base: base + n,
        n,
        width: width as usize,
    };
    dues.join_all(work);
    number(cells, work)
}
