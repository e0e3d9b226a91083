// Numbers for the labels of regions, under two for each record, through words that are 0 before and after.
ghost use Rattle.std.specs.Prelude.{◌≡◌, List, ℕ, ◌+◌, ◌*◌, ◌-◌, ◌≤◌, ◌<◌, length};
ghost use Rattle.wire.specs.Bytes.{splice, u32_at, u32_bytes};
ghost use Rattle.serial_bridges.specs.Names.{Labelled, EndNumbers, Forgotten};

use label_table::{put_word, word_of};

// The number of a label that stands at a place: the one that it has, or that of the place.
fn number_of(work: &mut [u8], base: usize, label: u32, place: u32) -> u32
    requires { (0 < label) × (base + 4 * label ≤ length work.old) × (place < 8192) }
    ensures old { (u32_at work.old (base + 4 * (label - 1)) ≡ 0 → ⊥) → (u32_at work.old (base + 4 * (label - 1)) ≡ result + 1)
        × (work.new ≡ work.old) }
    ensures new { u32_at work.old (base + 4 * (label - 1)) ≡ 0 → (result ≡ place)
        × (work.new ≡ splice work.old (base + 4 * (label - 1)) (u32_bytes (place + 1))) }
{
    let found = word_of(work, base, label);
    if found != 0 {
        return found - 1;
    }
    put_word(work, base, label, place + 1);
    place
}

// Gives the ends of record k their numbers.
fn number_record(
    lefts: &[u32],
    rights: &[u32],
    count: u32,
    k: u32,
    regions: usize,
    work: &mut [u8],
    base: usize,
    small_lefts: &mut [u32],
    small_rights: &mut [u32],
)
    requires { (k < count) × Labelled count lefts.now rights.now regions × (base + 4 * regions ≤ length work.old) × (count ≤ length small_lefts.old)
        × (count ≤ length small_rights.old) }
    ensures { (start : List ℕ)
        → EndNumbers count lefts.now rights.now regions base start work.old small_lefts.old
        small_rights.old k
        → EndNumbers count lefts.now rights.now regions base start work.new small_lefts.new
        small_rights.new (k + 1) }
{
    let at = k as usize;
    small_lefts[at] = number_of(work, base, lefts[at], 2 * k);
    small_rights[at] = number_of(work, base, rights[at], 2 * k + 1);
}

// Gives every label its number.
pub fn number_all(
    lefts: &[u32],
    rights: &[u32],
    count: u32,
    regions: usize,
    work: &mut [u8],
    base: usize,
    small_lefts: &mut [u32],
    small_rights: &mut [u32],
)
    requires { Labelled count lefts.now rights.now regions × (base + 4 * regions ≤ length work.old)
        × ((x : ℕ) → x < regions → u32_at work.old (base + 4 * x) ≡ 0) × (count ≤ length small_lefts.old) × (count ≤ length small_rights.old) }
    ensures { EndNumbers count lefts.now rights.now regions base work.old work.new small_lefts.new
        small_rights.new count }
{
    for k in 0..count {
        number_record(
            lefts,
            rights,
            count,
            k,
            regions,
            work,
            base,
            small_lefts,
            small_rights,
        );
    }
}

// Takes the words of the ends of record k back to 0.
fn forget_record(
    lefts: &[u32],
    rights: &[u32],
    count: u32,
    k: u32,
    regions: usize,
    work: &mut [u8],
    base: usize,
)
    requires { (k < count) × Labelled count lefts.now rights.now regions × (base + 4 * regions ≤ length work.old) }
    ensures { (start : List ℕ) → Forgotten count lefts.now rights.now regions base start work.old k
        → Forgotten count lefts.now rights.now regions base start work.new (k + 1) }
{
    let at = k as usize;
    put_word(work, base, lefts[at], 0);
    put_word(work, base, rights[at], 0);
}

// Takes the words of every record's ends back to 0.
pub fn forget_all(
    lefts: &[u32],
    rights: &[u32],
    count: u32,
    regions: usize,
    work: &mut [u8],
    base: usize,
)
    requires { Labelled count lefts.now rights.now regions × (base + 4 * regions ≤ length work.old) }
    ensures { (start : List ℕ) → Forgotten count lefts.now rights.now regions base start work.old 0
        → Forgotten count lefts.now rights.now regions base start work.new count }
{
    for k in 0..count {
        forget_record(lefts, rights, count, k, regions, work, base);
    }
}
