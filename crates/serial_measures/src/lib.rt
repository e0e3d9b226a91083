// The links of the map, measured by its cells: 000's `measure_links`.
#![tactic(auto)]

pub mod few; // each link by a pass of its own

ghost use Rattle.std.specs.Prelude.{◌≡◌, cond, List, ℕ, ◌+◌, ◌*◌, ◌<◌, ◌≤◌, length};
ghost use Rattle.areas.specs.Spans.{Sides};
ghost use Rattle.areas.specs.Words.{word, labels_in};
ghost use Rattle.serial_links.specs.HeldLimits.{limits_of};
ghost use Rattle.serial_links.specs.HeldLink.{no_cell, measured_in};
ghost use Rattle.serial_links.specs.Measure.{passing};
ghost use Rattle.serial_measures.specs.Tables.{LinkRegions, Labels, Written, RegionNumbers, table_number};
ghost use Rattle.serial_measures.specs.Judging.{CoordinatesBounded, LinkEndsInside, value_in, flat_in, Judged, Measured};

use areas::spans::span_at;
use context::stats::{RegionStats, next_column, next_row};
use few::measure_few;
use label_table::{put_word, word_of};
use serial_links::limits::Limits;
use serial_links::link::{Link, link_of};
use wire::read_u32;

// Gives the region of each link its number in the table.
fn number_all(work: &mut [u8], n: usize, regions: &[u32; 256], links: u32)
    requires { (n ≤ 0x10_0000) × Labels work.old n × LinkRegions regions.now links n }
    ensures { Written work.old work.new n regions.now links }
{
    let base = 4 * n;
    for k in 0..links {
        put_word(work, base, regions[k as usize], k + 1);
    }
}

// Takes the words of the links' regions back to 0.
fn clear_all(work: &mut [u8], n: usize, regions: &[u32; 256], links: u32)
    requires { (n ≤ 0x10_0000) × (8 * n ≤ length work.old) × LinkRegions regions.now links n }
    ensures { (start : List ℕ) → Labels start n → Written start work.old n regions.now links → work.new ≡ start }
{
    let base = 4 * n;
    for k in 0..links {
        put_word(work, base, regions[k as usize], 0);
    }
}

// What the table says of a cell's label: 0, or the number of a link and 1.
// A number, not an Option: table_number of specs/Tables.antt has 0 for no link.
fn number_at(work: &[u8], n: usize, i: usize) -> u32
    requires { (i < n) × (n ≤ 0x10_0000) × (8 * n ≤ length work.now) × (word work.now i ≤ n) }
    ensures { result ≡ table_number work.now n (word work.now i) }
{
    let label = read_u32(work, 4 * i);
    if label == 0 {
        return 0;
    }
    word_of(work, 4 * n, label)
}

// The link of two ranks, without a cell.
fn link_at(own: &[u32; 1024], bits: &[u64; 256], first: u32, second: u32) -> Link
    requires { CoordinatesBounded own.now bits.now × (first < 256) × (second < 256) }
    ensures { result ≡ no_cell (value_in own.now bits.now first second) }
{
    let i = first as usize;
    let j = second as usize;
    link_of(span_at(own, i), bits[i], span_at(own, j), bits[j])
}

// 1 for a link that passes.
// The three marks are bytes, not bools: `Judged` reads them as 1 and 0.
fn passing_mark(link: Link, limits: Limits) -> u8
    ensures { result ≡ cond (passing (measured_in (limits_of limits) link)) 1 0 }
{
    u8::from(link.measured(limits).passing())
}

// 1 for a region inside the flat envelope, without a ramp and of one elevation.
fn flat_mark(link: Link, stats: RegionStats) -> u8
    ensures { result ≡ cond (flat_in link stats) 1 0 }
{
    u8::from(link.inside & (!stats.has_ramp & (stats.elevation_kinds() == 1)))
}

// 1 for a region inside the flat envelope.
fn inside_mark(link: Link) -> u8
    ensures { result ≡ cond link.inside 1 0 }
{
    u8::from(link.inside)
}

// Measures the links by the cells of their regions, whose numbers are in the table.
// Array by array, as measure_few: a struct of ten fields for these two would be longer. There is no heap.
fn measure_all(
    cells: &[u8],
    width: u32,
    height: u32,
    work: &[u8],
    regions: &[u32; 256],
    firsts: &[u32; 256],
    seconds: &[u32; 256],
    links: usize,
    own: &[u32; 1024],
    bits: &[u64; 256],
    limits: Limits,
    passing: &mut [u8; 256],
    flat: &mut [u8; 256],
    inside: &mut [u8; 256],
)
    requires { Sides width height × (length cells.now ≡ width * height) × CoordinatesBounded own.now bits.now
        × LinkEndsInside firsts.now seconds.now links
        × RegionNumbers work.now (length cells.now) regions.now links }
    ensures { Judged (limits_of limits) own.now bits.now regions.now firsts.now seconds.now
        (record { width = width; height = height; cells = cells.now }) (labels_in work.now (length cells.now))
        (length cells.now) links passing.new flat.new inside.new }
{
    *passing = [0u8; 256];
    *flat = [0u8; 256];
    *inside = [0u8; 256];
    let n = cells.len();
    let mut table = [link_at(own, bits, 0, 0); 256];
    let mut stats = [RegionStats::none(); 256];
    for k in 0..links {
        table[k] = link_at(own, bits, firsts[k], seconds[k]);
    }
    let mut column: u32 = 0;
    let mut row: u32 = 0;
    for i in 0..n {
        let x = column;
        let y = row;
        row = next_row(x, y, width);
        column = next_column(x, width);
        let number = number_at(work, n, i);
        if number == 0 {
            continue;
        }
        let j = (number - 1) as usize;
        table[j] = table[j].at(x, y, limits);
        stats[j] = stats[j].with(x, y, cells[i]);
    }
    for m in 0..links {
        passing[m] = passing_mark(table[m], limits);
        flat[m] = flat_mark(table[m], stats[m]);
        inside[m] = inside_mark(table[m]);
    }
}

// How many cells may be passed over in all where each link is measured by itself; beyond, all are by one pass.
const FEW: usize = 1024;

// Marks with 1 each link that passes, each one with a flat region inside its envelope, and each one with a region inside it, and every other with 0. The
// table is left as it was.
pub fn measure_links(
    cells: &[u8],
    width: u32,
    height: u32,
    work: &mut [u8],
    regions: &[u32; 256],
    firsts: &[u32; 256],
    seconds: &[u32; 256],
    links: usize,
    own: &[u32; 1024],
    bits: &[u64; 256],
    limits: Limits,
    passing: &mut [u8; 256],
    flat: &mut [u8; 256],
    inside: &mut [u8; 256],
)
    requires { Sides width height × (length cells.now ≡ width * height) × Labels work.old (length cells.now)
        × LinkRegions regions.now links (length cells.now) × LinkEndsInside firsts.now seconds.now links × CoordinatesBounded own.now bits.now }
    ensures work { work.new ≡ work.old }
    ensures marks { Measured (limits_of limits) own.now bits.now regions.now firsts.now seconds.now
        (record { width = width; height = height; cells = cells.now }) (labels_in work.old (length cells.now)) links
        passing.new flat.new inside.new }
{
    if links == 0 {
        return;
    }
    let n = cells.len();
    if links * n <= FEW {
        measure_few(
            cells, width, height, work, regions, firsts, seconds, links, own, bits, limits,
            passing, flat, inside,
        );
        return;
    }
    let count = links as u32;
    number_all(work, n, regions, count);
    measure_all(
        cells, width, height, work, regions, firsts, seconds, links, own, bits, limits, passing,
        flat, inside,
    );
    clear_all(work, n, regions, count);
}
