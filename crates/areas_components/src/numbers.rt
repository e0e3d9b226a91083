// Labels in row order: blocked cells are 0, the first cell of each component has the next label, and any other the label of its parent.
ghost use Rattle.std.specs.Prelude.{◌≡◌, cond, List, ℕ, ◌+◌, ◌*◌, ◌%◌, ◌≤◌, ◌<◌, eqb, length};
ghost use Rattle.areas.specs.Words.{word};
ghost use Rattle.graph.specs.Path.{Edge};
ghost use Rattle.graph.specs.Labelling.{Among};
ghost use Rattle.areas_components.specs.Forests.{Forest};
ghost use Rattle.areas_components.specs.Numbered.{walks, NextNumbered, ComponentLabels};

use wire::{read_u32, write_u32};

// 1 where the byte of a cell says that it is walkable, and else 0.
fn walk_bit(byte: u8) -> u32
    ensures { (result ≡ byte % 2) × (result ≤ 1) }
{
    u32::from(byte % 2)
}

// x where the bit is 1, and else 0.
fn only(bit: u32, x: u32) -> u32
    requires { bit ≤ 1 }
    ensures { result ≡ cond (eqb bit 1) x 0 }
{
    x * bit
}

// Writes the label of cell i and gives the count with it. The next label stands at the cell while the word at its parent is read: so there is
// no branch, whether the cell is its own parent or not.
fn number_cell(cells: &[u8], work: &mut [u8], i: usize, count: u32) -> u32
    requires i_in_bounds { (i < length cells.now) × (i < 1048576) × (4 * i + 4 ≤ length work.old) × (word work.old i ≤ i) }
    requires count_le_i { (count ≤ i) × ((j : ℕ) → j < i → word work.old j ≤ count) }
    ensures { NextNumbered (walks cells.now i) i count work.old work.new result }
{
    let bit = walk_bit(cells[i]);
    let p = read_u32(work, 4 * i) as usize;
    write_u32(work, 4 * i, count + 1);
    let label = only(bit, read_u32(work, 4 * p));
    write_u32(work, 4 * i, label);
    if p == i { count + bit } else { count }
}

// Replaces the parents by labels. Gives the number of labels.
pub fn number(cells: &[u8], work: &mut [u8]) -> u32
    requires { (length cells.now ≤ 1048576) × (4 * length cells.now ≤ length work.old) × ((i : ℕ) → i < length cells.now → word work.old i ≤ i) }
    ensures { (es : List Edge) → Forest es (length cells.now) (word work.old) → Among (walks cells.now) es
        → ComponentLabels (length cells.now) (walks cells.now) es work.old work.new result }
{
    let mut count: u32 = 0;
    for i in 0..cells.len() {
        count = number_cell(cells, work, i, count);
    }
    count
}
