// The marks of boundaries: each closed as a whole, all its region pairs at once, under small numbers for the labels of regions.
// Arrays go one by one, not as a struct: under other names the same ones serve the walk and closing. There is no heap.
#![tactic(auto)]

ghost use Rattle.std.specs.Prelude.{◌≡◌, true, ◌*◌, ◌≤◌, length};
ghost use Rattle.graph.specs.Records.{records_in};
ghost use Rattle.serial_walk.specs.Slices.{Lent};
ghost use Rattle.marks_closing.specs.Log.{forest_tables};
ghost use Rattle.marks_closing.specs.Marks.{choke_marks};
ghost use Rattle.marks.specs.Owned.{OwnedRecords, SingleOwners, SpareArrays};

use marks_closing::close_boundaries;
use serial_bridges::{
    FEW, FEW_REGIONS, MOST, MOST_REGIONS, NONE, forget_all, mark_bridges, number_all,
};

// Whether no two of the first count records have one owner. Of `false` nothing is promised: closing is right in any case.
fn single(owners: &[u32], count: usize) -> bool
    requires { count ≤ length owners.now }
    ensures { result ≡ true → SingleOwners count owners.now }
{
    owners[..count].is_sorted_by(|a, b| a < b)
}

// Closes each boundary: marks it with 1 if it is a choke, and with 0 if not, on arrays that are lent. The table of words from base on in work is left as it
// was.
fn close_small(
    owners: &[u32],
    lefts: &[u32],
    rights: &[u32],
    count: u32,
    regions: usize,
    work: &mut [u8],
    base: usize,
    small_lefts: &mut [u32],
    small_rights: &mut [u32],
    parents: &mut [u32],
    heights: &mut [u32],
    joined: &mut [u32],
    earlier: &mut [u32],
    marks: &mut [u8; 256],
)
    requires { OwnedRecords count owners.now lefts.now rights.now regions base work.old
        × SpareArrays count small_lefts.old small_rights.old (forest_tables parents.old heights.old joined.old earlier.old) }
    ensures marks { marks.new ≡ choke_marks (records_in owners.now lefts.now rights.now count) 256 }
    ensures work { work.new ≡ work.old }
{
    number_all(
        lefts,
        rights,
        count,
        regions,
        work,
        base,
        small_lefts,
        small_rights,
    );
    close_boundaries(
        owners,
        small_lefts,
        small_rights,
        count as usize,
        parents,
        heights,
        joined,
        earlier,
        marks,
    );
    forget_all(lefts, rights, count, regions, work, base);
}

// Marks the boundaries on arrays that serve either way: where no two records have one owner the chokes are the bridges, and the walk finds them.
fn mark_lent(
    owners: &[u32],
    lefts: &[u32],
    rights: &[u32],
    count: u32,
    regions: usize,
    work: &mut [u8],
    base: usize,
    small_lefts: &mut [u32],
    small_rights: &mut [u32],
    heads: &mut [u32],
    left_nexts: &mut [u32],
    right_nexts: &mut [u32],
    disc: &mut [u32],
    stack: &mut [u32],
    parents: &mut [u32],
    nexts: &mut [u32],
    lows: &mut [u32],
    marks: &mut [u8; 256],
)
    requires { OwnedRecords count owners.now lefts.now rights.now regions base work.old
        × Lent count (length heads.old) small_lefts.old small_rights.old heads.old left_nexts.old right_nexts.old disc.old stack.old
        parents.old nexts.old lows.old }
    ensures marks { marks.new ≡ choke_marks (records_in owners.now lefts.now rights.now count) 256 }
    ensures work { work.new ≡ work.old }
{
    if single(owners, count as usize) {
        mark_bridges(
            owners,
            lefts,
            rights,
            count,
            regions,
            work,
            base,
            small_lefts,
            small_rights,
            heads,
            left_nexts,
            right_nexts,
            disc,
            stack,
            parents,
            nexts,
            lows,
            marks,
        );
        return;
    }
    close_small(
        owners,
        lefts,
        rights,
        count,
        regions,
        work,
        base,
        small_lefts,
        small_rights,
        parents,
        lows,
        left_nexts,
        right_nexts,
        marks,
    );
}

// The same on arrays of its own, so long that they hold the records and the regions that these part. Apart from serial_bridges' `mark_on`: other
// arrays, lent to another rule.
fn mark_sized<const RECORDS: usize, const REGIONS: usize>(
    owners: &[u32],
    lefts: &[u32],
    rights: &[u32],
    count: u32,
    regions: usize,
    work: &mut [u8],
    base: usize,
    marks: &mut [u8; 256],
)
    requires { OwnedRecords count owners.now lefts.now rights.now regions base work.old × (count ≤ RECORDS) × (2 * RECORDS ≤ REGIONS)
        × (REGIONS ≤ 8192) }
    ensures marks { marks.new ≡ choke_marks (records_in owners.now lefts.now rights.now count) 256 }
    ensures work { work.new ≡ work.old }
{
    let mut small_lefts = [0u32; RECORDS];
    let mut small_rights = [0u32; RECORDS];
    let mut heads = [NONE; REGIONS];
    let mut left_nexts = [0u32; RECORDS];
    let mut right_nexts = [0u32; RECORDS];
    let mut disc = [0u32; REGIONS];
    let mut stack = [0u32; REGIONS];
    let mut parents = [0u32; REGIONS];
    let mut nexts = [0u32; REGIONS];
    let mut lows = [0u32; REGIONS];
    mark_lent(
        owners,
        lefts,
        rights,
        count,
        regions,
        work,
        base,
        &mut small_lefts,
        &mut small_rights,
        &mut heads,
        &mut left_nexts,
        &mut right_nexts,
        &mut disc,
        &mut stack,
        &mut parents,
        &mut nexts,
        &mut lows,
        marks,
    );
}

// Marks each boundary that is a choke of the first count records with 1, and every other with 0. The table of words from base on in work is left as it was.
pub fn mark_boundaries(
    owners: &[u32],
    lefts: &[u32],
    rights: &[u32],
    count: usize,
    regions: usize,
    work: &mut [u8],
    base: usize,
    marks: &mut [u8; 256],
)
    requires { OwnedRecords count owners.now lefts.now rights.now regions base work.old }
    ensures marks { marks.new ≡ choke_marks (records_in owners.now lefts.now rights.now count) 256 }
    ensures work { work.new ≡ work.old }
{
    let n = count as u32;
    if count <= FEW {
        mark_sized::<FEW, FEW_REGIONS>(owners, lefts, rights, n, regions, work, base, marks);
        return;
    }
    mark_sized::<MOST, MOST_REGIONS>(owners, lefts, rights, n, regions, work, base, marks);
}
