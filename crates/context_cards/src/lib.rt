// Area cards: the statistics of each area, in lent bytes.
#![tactic(auto)]

ghost use Rattle.std.specs.Prelude.{◌≡◌, cond, [], ◌∷◌, ℕ, ◌+◌, ◌*◌, ◌-◌, ◌<◌, ◌≤◌, length};
ghost use Rattle.wire.specs.Bytes.{splice, words};
ghost use Rattle.grid.specs.Cells.{map_of};
ghost use Rattle.areas.specs.Words.{word, labels_in};
ghost use Rattle.context.specs.Held.{stats_in};
ghost use Rattle.context.specs.Cards.{card_size, card_bytes, cards as cards_of};
ghost use Rattle.context_cards.specs.Filling.{Fillable, Zeroed, CardRoom, card_place, card_read, cell_counted};

use areas_components::zero_fill;
use context::stats::{RegionStats, next_column, next_row};
use wire::{read_u32, write_u32};

pub const CARD_SIZE: usize = 40;

// The statistics that the card at a place has.
pub fn read_card(cards: &[u8], at: usize) -> RegionStats
    requires { at + card_size ≤ length cards.now }
    ensures { result ≡ card_read cards.now at }
{
    RegionStats {
        cells: read_u32(cards, at),
        min_x: read_u32(cards, at + 4),
        min_y: read_u32(cards, at + 8),
        max_x: read_u32(cards, at + 12),
        max_y: read_u32(cards, at + 16),
        has_ramp: read_u32(cards, at + 20) == 1,
        level_0: read_u32(cards, at + 24),
        level_1: read_u32(cards, at + 28),
        level_2: read_u32(cards, at + 32),
        level_3: read_u32(cards, at + 36),
    }
}

// The first half of a card: how many cells, and their box.
// Lent bytes and a place, not a struct or a Vec: there is no heap, and the public write_card takes the two.
fn write_box(cards: &mut [u8], at: usize, s: RegionStats)
    requires { at + 20 ≤ length cards.old }
    ensures { cards.new
        ≡ splice cards.old at (words (s.cells ∷ s.min_x ∷ s.min_y ∷ s.max_x ∷ s.max_y ∷ [])) }
{
    write_u32(cards, at, s.cells);
    write_u32(cards, at + 4, s.min_x);
    write_u32(cards, at + 8, s.min_y);
    write_u32(cards, at + 12, s.max_x);
    write_u32(cards, at + 16, s.max_y);
}

// The second half: whether there is a ramp, and the cells of each elevation.
fn write_levels(cards: &mut [u8], at: usize, s: RegionStats)
    requires { at + 20 ≤ length cards.old }
    ensures { cards.new ≡ splice cards.old at
        (words (cond s.has_ramp 1 0 ∷ s.level_0 ∷ s.level_1 ∷ s.level_2 ∷ s.level_3 ∷ [])) }
{
    let ramp = u32::from(s.has_ramp);
    write_u32(cards, at, ramp);
    write_u32(cards, at + 4, s.level_0);
    write_u32(cards, at + 8, s.level_1);
    write_u32(cards, at + 12, s.level_2);
    write_u32(cards, at + 16, s.level_3);
}

pub fn write_card(cards: &mut [u8], at: usize, s: RegionStats)
    requires { at + card_size ≤ length cards.old }
    ensures { cards.new ≡ splice cards.old at (card_bytes (stats_in s)) }
{
    write_box(cards, at, s);
    write_levels(cards, at + 20, s);
}

fn label_of(labels: &[u8], i: usize) -> u32
    requires { i * 4 + 4 ≤ length labels.now }
    ensures { result ≡ word labels.now i }
{
    read_u32(labels, 4 * i)
}

// Where the card of a label starts.
fn place_of(label: u32) -> usize
    requires { 0 < label }
    ensures { result ≡ card_place label }
{
    CARD_SIZE * (label - 1) as usize
}

// One cell more in the card of its label; 0, the label of blocked cells, has none.
fn count_cell(cards: &mut [u8], label: u32, column: u32, row: u32, cell: u8)
    requires { CardRoom cards.old label × (column < 536870911) × (row < 536870911) }
    ensures { cards.new ≡ cell_counted cards.old label column row cell }
{
    if label == 0 {
        return;
    }
    let at = place_of(label);
    let s = read_card(cards, at);
    write_card(cards, at, s.with(column, row, cell));
}

// Zeros are cards of no cell.
fn clear(cards: &mut [u8], to: usize)
    requires { to ≤ length cards.old }
    ensures { Zeroed cards.old cards.new to }
{
    zero_fill(cards, 0, to);
}

// Writes the card of each area, one pass over the cells: the first 40 bytes times `areas` of `cards`.
pub fn write_cards(cells: &[u8], width: u32, labels: &[u8], areas: usize, cards: &mut [u8])
    requires { Fillable width cells.now labels.now areas cards.old }
    ensures { (height : ℕ) → cards.new ≡ splice cards.old 0
        (cards_of (map_of width height cells.now) (labels_in labels.now (length cells.now)) areas) }
{
    let n = cells.len();
    clear(cards, CARD_SIZE * areas);
    let mut column: u32 = 0;
    let mut row: u32 = 0;
    for i in 0..n {
        count_cell(cards, label_of(labels, i), column, row, cells[i]);
        row = next_row(column, row, width);
        column = next_column(column, width);
    }
}
