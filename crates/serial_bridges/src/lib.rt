// The boundaries that are bridges of the graph of records, by the walk, under small numbers for the labels of regions.
// Arrays are lent one by one, of fixed length, not Vec: there is no heap, and marks lends the same ones to closing.
#![tactic(auto)]

mod numbering; // numbers for the labels of regions

ghost use Rattle.std.specs.Prelude.{◌≡◌, ℕ, ◌+◌, ◌*◌, ◌≤◌, ◌<◌, length};
ghost use Rattle.graph.specs.Records.{records_in};
ghost use Rattle.serial_walk.specs.Marks.{bridge_marks};
ghost use Rattle.wire.specs.Bytes.{u32_at};
ghost use Rattle.serial_bridges.specs.Names.{Labelled};
ghost use Rattle.graph.specs.Slices.{Owners};
ghost use Rattle.serial_walk.specs.Slices.{Lent};

pub use numbering::{forget_all, number_all};
use serial_walk::{full_graph, walk_all};

// The most records of a walk on short arrays, which cost little to clear.
pub const FEW: usize = 64;

// Two regions for each of those.
pub const FEW_REGIONS: usize = 128;

// The most records of any walk.
pub const MOST: usize = 4096;

// Two regions for each of those.
pub const MOST_REGIONS: usize = 8192;

// A number that no record has.
// Not an Option: chains stand in lent arrays of numbers, and end at one that is no record's.
pub const NONE: u32 = 4096;

// Marks each boundary that is a bridge with 1, and every other with 0, on arrays that are lent. The table of words from base on in work is left as it was.
pub fn mark_bridges(
    owners: &[u32],
    lefts: &[u32],
    rights: &[u32],
    count: u32,
    regions: usize,
    work: &mut [u8],
    base: usize,
    small_lefts: &mut [u32],
    small_rights: &mut [u32],
    heads: &mut [u32],
    left_nexts: &mut [u32],
    right_nexts: &mut [u32],
    disc: &mut [u32],
    stack: &mut [u32],
    parents: &mut [u32],
    nexts: &mut [u32],
    lows: &mut [u32],
    marks: &mut [u8; 256],
)
    requires { Owners count owners.now × (count ≤ length owners.now) × Labelled count lefts.now rights.now regions
        × (base + 4 * regions ≤ length work.old) × ((x : ℕ) → x < regions → u32_at work.old (base + 4 * x) ≡ 0)
        × Lent count (length heads.old) small_lefts.old small_rights.old heads.old left_nexts.old right_nexts.old disc.old stack.old
        parents.old nexts.old lows.old }
    ensures marks { marks.new ≡ bridge_marks (records_in owners.now lefts.now rights.now count) 256 }
    ensures work { work.new ≡ work.old }
{
    number_all(
        lefts,
        rights,
        count,
        regions,
        work,
        base,
        small_lefts,
        small_rights,
    );
    full_graph(
        small_lefts,
        small_rights,
        count,
        heads,
        left_nexts,
        right_nexts,
    );
    walk_all(
        owners,
        small_lefts,
        small_rights,
        count,
        heads,
        left_nexts,
        right_nexts,
        disc,
        stack,
        parents,
        nexts,
        lows,
        marks,
    );
    forget_all(lefts, rights, count, regions, work, base);
}

// The same on arrays of its own, for as many records and regions as they have places.
fn mark_on<const RECORDS: usize, const REGIONS: usize>(
    owners: &[u32],
    lefts: &[u32],
    rights: &[u32],
    count: u32,
    regions: usize,
    work: &mut [u8],
    base: usize,
    marks: &mut [u8; 256],
)
    requires { Owners count owners.now × (count ≤ length owners.now) × Labelled count lefts.now rights.now regions
        × (base + 4 * regions ≤ length work.old) × ((x : ℕ) → x < regions → u32_at work.old (base + 4 * x) ≡ 0)
        × (count ≤ RECORDS) × (RECORDS ≤ 4096) × (2 * count ≤ REGIONS) × (REGIONS ≤ 8192) }
    ensures marks { marks.new ≡ bridge_marks (records_in owners.now lefts.now rights.now count) 256 }
    ensures work { work.new ≡ work.old }
{
    let mut small_lefts = [0u32; RECORDS];
    let mut small_rights = [0u32; RECORDS];
    let mut heads = [NONE; REGIONS];
    let mut left_nexts = [0u32; RECORDS];
    let mut right_nexts = [0u32; RECORDS];
    let mut disc = [0u32; REGIONS];
    let mut stack = [0u32; REGIONS];
    let mut parents = [0u32; REGIONS];
    let mut nexts = [0u32; REGIONS];
    let mut lows = [0u32; REGIONS];
    mark_bridges(
        owners,
        lefts,
        rights,
        count,
        regions,
        work,
        base,
        &mut small_lefts,
        &mut small_rights,
        &mut heads,
        &mut left_nexts,
        &mut right_nexts,
        &mut disc,
        &mut stack,
        &mut parents,
        &mut nexts,
        &mut lows,
        marks,
    );
}

// Marks each boundary that is a bridge of the first count records with 1, and every other with 0. The table of words from base on in work is left as it was.
pub fn bridge_boundary_indices(
    owners: &[u32],
    lefts: &[u32],
    rights: &[u32],
    count: usize,
    regions: usize,
    work: &mut [u8],
    base: usize,
    marks: &mut [u8; 256],
)
    requires { Owners count owners.now × (count ≤ length owners.now) × Labelled count lefts.now rights.now regions
        × (base + 4 * regions ≤ length work.old) × ((x : ℕ) → x < regions → u32_at work.old (base + 4 * x) ≡ 0) }
    ensures marks { marks.new ≡ bridge_marks (records_in owners.now lefts.now rights.now count) 256 }
    ensures work { work.new ≡ work.old }
{
    if count == 0 {
        *marks = [0u8; 256];
        return;
    }
    let n = count as u32;
    if count <= FEW {
        mark_on::<FEW, FEW_REGIONS>(owners, lefts, rights, n, regions, work, base, marks);
        return;
    }
    mark_on::<MOST, MOST_REGIONS>(owners, lefts, rights, n, regions, work, base, marks);
}
