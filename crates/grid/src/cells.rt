// What the byte of a cell says, and where a cell lies (source document 004).
ghost use Rattle.std.specs.Prelude.{◌≡◌, ℕ, ◌<◌, ◌≤◌, length};
ghost use Rattle.grid.specs.Cells.{Grid, cell_at, walkable, buildable, ramp_cell, elevation, index_of, column_of, row_of};

use position::WalkPosition;

// Bit 0 of a cell's byte.
pub fn is_walkable(cell: u8) -> bool
    ensures { (g : Grid) (i : ℕ) → cell_at g i ≡ cell → result ≡ walkable g i }
{
    cell % 2 == 1
}

// The cell is walkable.
pub fn walkable_at(cells: &[u8], i: u32) -> bool
    requires { i < length cells.now }
    ensures { (g : Grid) → g.cells ≡ cells.now → result ≡ walkable g i }
{
    is_walkable(cells[i as usize])
}

// Bit 1, which none of the rules reads.
pub fn is_buildable(cell: u8) -> bool
    ensures { (g : Grid) (i : ℕ) → cell_at g i ≡ cell → result ≡ buildable g i }
{
    cell / 2 % 2 == 1
}

// Bit 2.
pub fn is_ramp(cell: u8) -> bool
    ensures { (g : Grid) (i : ℕ) → cell_at g i ≡ cell → result ≡ ramp_cell g i }
{
    cell / 4 % 2 == 1
}

// Bits 3 and 4.
pub fn elevation(cell: u8) -> u8
    ensures { (g : Grid) (i : ℕ) → cell_at g i ≡ cell → result ≡ elevation g i }
{
    cell / 8 % 4
}

// The cell at a column and a row of a map of the given width.
pub fn index(width: u32, position: WalkPosition) -> u32
    requires { (width ≤ 1024) × (position.x ≤ 1024) × (position.y ≤ 1024) }
    ensures { (g : Grid) → g.width ≡ width → result ≡ index_of g position.x position.y }
{
    let x = position.x;
    let y = position.y;
    y * width + x
}

// The column and the row of a cell.
pub fn position(width: u32, i: u32) -> WalkPosition
    requires { 0 < width }
    ensures { (g : Grid) → g.width ≡ width → (result.x ≡ column_of g i) × (result.y ≡ row_of g i) }
{
    WalkPosition {
        x: i % width,
        y: i / width,
    }
}
