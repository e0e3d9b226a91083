// Statistics of regions: 001's `RegionStats`.
ghost use Rattle.std.specs.Prelude.{◌≡◌, cond, ℕ, ◌+◌, ◌*◌, ◌/◌, ◌%◌, ◌<◌, ◌≤◌, length};
ghost use Rattle.areas.specs.Words.{labels_in};
ghost use Rattle.context.specs.RegionStats.{elevations, elevation_kinds, region_stats};
ghost use Rattle.context.specs.Held.{CellRoom, stats_in, lesser, stats_with_cell, NoCells};

use wire::read_u32;

// The box is in whole pixels, its right and lower edge past the last cell; `level_0` to `level_3` count the cells of each elevation.
// Four fields, not an array: a clause sees an array as a list of any length, and a card has four counts.
#[derive(Clone, Copy)]
pub struct RegionStats {
    pub cells: u32,
    pub min_x: u32,
    pub min_y: u32,
    pub max_x: u32,
    pub max_y: u32,
    pub has_ramp: bool,
    pub level_0: u32,
    pub level_1: u32,
    pub level_2: u32,
    pub level_3: u32,
}

// The lesser number, where there is a first one.
fn lesser(count: u32, x: u32, y: u32) -> u32
    ensures { result ≡ lesser count x y }
{
    if count == 0 { y } else { x.min(y) }
}

impl RegionStats {
    // Of no cell.
    pub fn none() -> RegionStats
        ensures { NoCells result }
    {
        RegionStats {
            cells: 0,
            min_x: 0,
            min_y: 0,
            max_x: 0,
            max_y: 0,
            has_ramp: false,
            level_0: 0,
            level_1: 0,
            level_2: 0,
            level_3: 0,
        }
    }

    // One cell more.
    pub fn with(self, column: u32, row: u32, cell: u8) -> RegionStats
        requires { CellRoom self × (column < 536870911) × (row < 536870911) }
        ensures { result ≡ stats_with_cell self column row cell }
    {
        let level = cell / 8 % 4;
        RegionStats {
            cells: self.cells + 1,
            min_x: lesser(self.cells, self.min_x, 8 * column),
            min_y: lesser(self.cells, self.min_y, 8 * row),
            max_x: self.max_x.max(8 * column + 8),
            max_y: self.max_y.max(8 * row + 8),
            has_ramp: self.has_ramp | (cell / 4 % 2 == 1),
            level_0: self.level_0 + u32::from(level == 0),
            level_1: self.level_1 + u32::from(level == 1),
            level_2: self.level_2 + u32::from(level == 2),
            level_3: self.level_3 + u32::from(level == 3),
        }
    }

    // How many of the four elevations occur.
    pub fn elevation_kinds(self) -> u32
        ensures { result ≡ elevation_kinds (stats_in self) }
    {
        u32::from(0 < self.level_0)
            + u32::from(0 < self.level_1)
            + u32::from(0 < self.level_2)
            + u32::from(0 < self.level_3)
    }

    // The set of elevations that occur, bit e for elevation e.
    pub fn elevations(self) -> u32
        ensures { result ≡ elevations (stats_in self) }
    {
        u32::from(0 < self.level_0)
            + 2 * u32::from(0 < self.level_1)
            + 4 * u32::from(0 < self.level_2)
            + 8 * u32::from(0 < self.level_3)
    }
}

// The column of a cell, and its row.
pub fn column_of(i: usize, width: u32) -> u32
    requires { (i < 1048576) × (0 < width) }
    ensures { (result ≡ i % width) × (result < 1048576) }
{
    (i as u32) % width
}

pub fn row_of(i: usize, width: u32) -> u32
    requires { (i < 1048576) × (0 < width) }
    ensures { (result ≡ i / width) × (result < 1048576) }
{
    (i as u32) / width
}

// The column of the next cell, and its row.
pub fn next_column(column: u32, width: u32) -> u32
    requires { column < width }
    ensures { (column + 1 ≡ width → result ≡ 0) × ((column + 1 ≡ width → ⊥) → result ≡ column + 1) }
{
    if column + 1 == width {
        return 0;
    }
    column + 1
}

pub fn next_row(column: u32, row: u32, width: u32) -> u32
    requires { (column < width) × (row < 1048576) }
    ensures { (column + 1 ≡ width → result ≡ row + 1) × ((column + 1 ≡ width → ⊥) → result ≡ row) }
{
    if column + 1 == width {
        return row + 1;
    }
    row
}

// One cell more, if it is of the region.
// The test comes in, not an `if` in the loop: what the loop keeps is by `cond`.
fn counted(stats: RegionStats, inside: bool, i: usize, width: u32, cell: u8) -> RegionStats
    requires { CellRoom stats × (i < 1048576) × (0 < width) }
    ensures { result ≡ cond inside (stats_with_cell stats (i % width) (i / width) cell) stats }
{
    if !inside {
        return stats;
    }
    stats.with(column_of(i, width), row_of(i, width), cell)
}

// The statistics of the cells that have the label; the labels are in words.
pub fn region_stats(cells: &[u8], width: u32, labels: &[u8], region: u32) -> RegionStats
    requires { (0 < width) × (length cells.now ≤ 1048576) × (length cells.now * 4 ≤ length labels.now) }
    ensures { (height : ℕ)
        → stats_in result ≡ region_stats (record { width = width; height = height; cells = cells.now })
        (labels_in labels.now (length cells.now)) region }
{
    let n = cells.len();
    let mut stats = RegionStats::none();
    for i in 0..n {
        let label = read_u32(labels, 4 * i);
        stats = counted(stats, region == label, i, width, cells[i]);
    }
    stats
}
