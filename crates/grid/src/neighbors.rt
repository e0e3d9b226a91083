// The steps from a cell to its neighbours, by direction (source document 004). A direction is a number, not an enum: its column and its row
// are computed from it, as d % 3 and d / 3.
ghost use Rattle.std.specs.Prelude.{◌≡◌, true, ◌&&◌, ℕ, ◌+◌, ◌*◌, ◌/◌, ◌%◌, ◌<◌, ◌≤◌};
ghost use Rattle.order.specs.Lists.{has};
ghost use Rattle.grid.specs.Cells.{Grid, walkable, column_of, row_of};
ghost use Rattle.grid.specs.Directions.{diagonal, directions_of};
ghost use Rattle.grid.specs.Steps.{leads_on, column_to, row_to, neighbour, beside, across, has_step, CellPlace};

use super::cells::{index, walkable_at};
use position::WalkPosition;

// The eight directions about a cell, as a set. A number, not a list: one shift tells whether a direction is in it.
pub const EIGHT: u32 = 495;

// The direction is in the set.
// d < 9 and the bounds of a position stand in clauses, not in types: public functions may ask for no narrower type.
pub fn has_direction(directions: u32, d: u32) -> bool
    requires { d < 9 }
    ensures { result ≡ has d (directions_of directions) }
{
    (directions >> d) % 2 == 1
}

// The direction leads to another column and to another row.
pub fn is_diagonal(d: u32) -> bool
    ensures { result ≡ diagonal d }
{
    (d % 3 != 1) & (d / 3 != 1)
}

// The direction leads from the cell at a place of the map to a cell of the map.
pub fn leads_on(width: u32, height: u32, position: WalkPosition, d: u32) -> bool
    requires { (position.x < 1024) × (position.y < 1024) × (d < 9) }
    ensures { (g : Grid) (i : ℕ) → g.width ≡ width → g.height ≡ height → column_of g i ≡ position.x → row_of g i ≡ position.y → result ≡ leads_on g i d }
{
    let x = position.x;
    let y = position.y;
    let column = x + d % 3;
    let row = y + d / 3;
    ((0 < column) & (column <= width)) & ((0 < row) & (row <= height))
}

// The place of the cell that it leads to.
pub fn place_to(position: WalkPosition, d: u32) -> WalkPosition
    requires { (position.x < 1024) × (position.y < 1024) × (d < 9) × (0 < position.x + d % 3) × (0 < position.y + d / 3) }
    ensures { ((g : Grid) (i : ℕ) → column_of g i ≡ position.x → row_of g i ≡ position.y → (result.x ≡ column_to g i d) × (result.y ≡ row_to g i d))
        × (result.x ≤ 1024) × (result.y ≤ 1024) }
{
    let x = position.x;
    let y = position.y;
    WalkPosition {
        x: x + d % 3 - 1,
        y: y + d / 3 - 1,
    }
}

// The cell that it leads to.
pub fn neighbor(width: u32, position: WalkPosition, d: u32) -> u32
    requires { (width ≤ 1024) × (position.x < 1024) × (position.y < 1024) × (d < 9) × (0 < position.x + d % 3) × (0 < position.y + d / 3) }
    ensures { (g : Grid) (i : ℕ) → g.width ≡ width → column_of g i ≡ position.x → row_of g i ≡ position.y → result ≡ neighbour g i d }
{
    index(width, place_to(position, d))
}

// Of the two cells beside a diagonal, the one in the row that it starts from.
fn beside(width: u32, position: WalkPosition, d: u32) -> u32
    requires { (width ≤ 1024) × (position.x < 1024) × (position.y < 1024) × (d < 9) × (0 < position.x + d % 3) }
    ensures { (g : Grid) (i : ℕ) → g.width ≡ width → column_of g i ≡ position.x → row_of g i ≡ position.y → result ≡ beside g i d }
{
    let from = position.x;
    let y = position.y;
    let x = from + d % 3 - 1;
    index(width, WalkPosition { x, y })
}

// And the one in the column.
fn across(width: u32, position: WalkPosition, d: u32) -> u32
    requires { (width ≤ 1024) × (position.x < 1024) × (position.y < 1024) × (d < 9) × (0 < position.y + d / 3) }
    ensures { (g : Grid) (i : ℕ) → g.width ≡ width → column_of g i ≡ position.x → row_of g i ≡ position.y → result ≡ across g i d }
{
    let x = position.x;
    let from = position.y;
    let y = from + d / 3 - 1;
    index(width, WalkPosition { x, y })
}

// The cell and the one that the direction leads to are walkable. The map comes in parts, as `step_at` gets it: a struct for two functions
// would be longer.
fn ends_walkable(cells: &[u8], width: u32, height: u32, position: WalkPosition, d: u32) -> bool
    requires { CellPlace width height cells.now position × (d < 9)
        × (leads_on (record { width = width; height = height; cells = cells.now }) (position.y * width + position.x) d ≡ true) }
    ensures { (g : Grid) (i : ℕ) → g ≡ record { width = width; height = height; cells = cells.now } → i ≡ position.y * width + position.x
        → result ≡ (walkable g i && walkable g (neighbour g i d)) }
{
    walkable_at(cells, index(width, position)) & walkable_at(cells, neighbor(width, position, d))
}

// The two cells beside the direction are walkable.
fn sides_walkable(cells: &[u8], width: u32, height: u32, position: WalkPosition, d: u32) -> bool
    requires { CellPlace width height cells.now position × (d < 9)
        × (leads_on (record { width = width; height = height; cells = cells.now }) (position.y * width + position.x) d ≡ true) }
    ensures { (g : Grid) (i : ℕ) → g ≡ record { width = width; height = height; cells = cells.now } → i ≡ position.y * width + position.x
        → result ≡ (walkable g (beside g i d) && walkable g (across g i d)) }
{
    walkable_at(cells, beside(width, position, d)) & walkable_at(cells, across(width, position, d))
}

// A step leads in the direction from the cell at a place of the map.
pub fn step_at(cells: &[u8], width: u32, height: u32, position: WalkPosition, d: u32) -> bool
    requires { CellPlace width height cells.now position × (d < 9) }
    ensures { result ≡ has_step (record { width = width; height = height; cells = cells.now }) (position.y * width + position.x) d }
{
    if !leads_on(width, height, position, d) {
        return false;
    }
    if !ends_walkable(cells, width, height, position, d) {
        return false;
    }
    if !is_diagonal(d) {
        return true;
    }
    sides_walkable(cells, width, height, position, d)
}
