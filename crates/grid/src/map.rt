// The map's sides, and the cell at a position: "Off the map there is no cell" (source document 004).
ghost use Rattle.std.specs.Prelude.{◌≡◌};
ghost use Rattle.grid.specs.Cells.{Grid};
ghost use Rattle.grid.specs.Index.{index_at, cell_on};

use position::WalkPosition;

// Its cells are lent beside it, a byte a cell, in row order.
#[derive(Clone, Copy)]
pub struct TerrainGrid {
    pub width: u32,
    pub height: u32,
}

impl TerrainGrid {
    // The number of the cell at a position, if there is one.
    pub fn index(self, position: WalkPosition) -> Option<usize>
        ensures { (g : Grid) → g.width ≡ self.width → g.height ≡ self.height → result ≡ index_at g position }
    {
        let x = position.x;
        let y = position.y;
        if self.width <= x {
            return None;
        }
        if self.height <= y {
            return None;
        }
        Some(y as usize * self.width as usize + x as usize)
    }

    // Its byte, if there is one.
    pub fn cell(self, cells: &[u8], position: WalkPosition) -> Option<u8>
        ensures { (g : Grid) → g.width ≡ self.width → g.height ≡ self.height →
            g.cells ≡ cells.now → result ≡ cell_on g position }
    {
        cells.get(self.index(position)?).copied()
    }
}
