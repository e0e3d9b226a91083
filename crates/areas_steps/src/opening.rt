// The steps of a map to later cells, in a byte a cell.
ghost use Rattle.std.specs.Prelude.{◌≡◌, ◌&&◌, List, [], ℕ, ◌+◌, ◌*◌, ◌<◌, ◌≤◌, length};
ghost use Rattle.order.specs.Lists.{has};
ghost use Rattle.lists.specs.Rows.{rows};
ghost use Rattle.wire.specs.Bytes.{splice};
ghost use Rattle.grid.specs.Cells.{map_of};
ghost use Rattle.grid.specs.Directions.{directions_of};
ghost use Rattle.grid.specs.Steps.{has_step};
ghost use Rattle.areas.specs.Open.{open_byte};
ghost use Rattle.areas.specs.Spans.{Sides};
ghost use Rattle.areas_steps.specs.Marks.{WorkHolds};

use grid::cells::index;
use grid::neighbors::{has_direction, step_at};
use position::WalkPosition;

// The byte of the cell at a place of the map, in work.
pub fn byte_of(width: u32, position: WalkPosition, base: usize) -> usize
    requires { (width ≤ 1024) × (position.x ≤ 1024) × (position.y ≤ 1024) × (base + (position.y * width + position.x) < 0x1_0000_0000_0000_0000) }
    ensures { result ≡ base + (position.y * width + position.x) }
{
    base + index(width, position) as usize
}

// A map, and the directions of its steps.
#[derive(Clone, Copy)]
struct Terrain<'a> {
    cells: &'a [u8],
    width: u32,
    height: u32,
    directions: u32,
    ghost sides: { Sides width height },
    ghost whole: { length cells.now ≡ width * height },
}

impl<'a> Terrain<'a> {
    // The direction is in the set, and a step leads in it from the cell at a place of the map.
    fn opens(self, position: WalkPosition, d: u32) -> bool
        requires { (position.x < self.width) × (position.y < self.height) × (d < 9) }
        ensures { let t = self.entry in
            result ≡ (has d (directions_of t.directions) && has_step (map_of t.width t.height t.cells.now) (position.y * t.width + position.x) d) }
    {
        has_direction(self.directions, d)
            && step_at(self.cells, self.width, self.height, position, d)
    }

    // The byte of the cell at a place of the map, where no step is cut.
    fn open_byte(self, position: WalkPosition) -> u8
        requires { (position.x < self.width) × (position.y < self.height) }
        ensures { let t = self.entry in
            result ≡ open_byte (directions_of t.directions) (map_of t.width t.height t.cells.now) [] (position.y * t.width + position.x) }
    {
        let right = self.opens(position, 5);
        let below_left = self.opens(position, 6);
        let below = self.opens(position, 7);
        let below_right = self.opens(position, 8);
        u8::from(right) + 2 * u8::from(below_left) + 4 * u8::from(below) + 8 * u8::from(below_right)
    }

    // Writes the bytes of a row, where those of the rows above are written.
    fn open_row(self, y: u32, work: &mut [u8], base: usize)
        requires { (base + self.width * self.height ≤ length work.old) × (y < self.height) }
        ensures { let t = self.entry in
            let f = open_byte (directions_of t.directions) (map_of t.width t.height t.cells.now) [] in
            (before : List ℕ) → WorkHolds base (y * t.width) f before work.old → WorkHolds base ((y + 1) * t.width) f before work.new }
    {
        for x in 0..self.width {
            let position = WalkPosition { x, y };
            let i = byte_of(self.width, position, base);
            work[i] = self.open_byte(position);
        }
    }
}

// Writes the bytes of all the cells from base on.
pub fn open_steps(
    cells: &[u8],
    width: u32,
    height: u32,
    directions: u32,
    work: &mut [u8],
    base: usize,
)
    requires { Sides width height × (length cells.now ≡ width * height) × (base + width * height ≤ length work.old) }
    ensures { work.new ≡ splice work.old base
        (rows (length cells.now)
        (open_byte (directions_of directions) (record { width = width; height = height; cells = cells.now }) [])) }
{
    let terrain = Terrain {
        cells,
        width,
        height,
        directions,
    };
    for y in 0..height {
        terrain.open_row(y, work, base);
    }
}
