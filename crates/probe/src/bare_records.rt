// The bridges and the marks of a bare list of records.
ghost use Rattle.std.specs.Prelude.{◌≡◌, false, ◌++◌, ℕ, ◌+◌, ◌*◌, ◌-◌, ◌/◌, ◌≤◌, ◌<◌, MatchOption, MatchResult, length, drop, replicate};
ghost use Rattle.wire.specs.Bytes.{splice};
ghost use Rattle.serial_walk.specs.Marks.{bridge_marks};
ghost use Rattle.marks_closing.specs.Marks.{choke_marks};
ghost use Rattle.probe.specs.Records.{owner_at, fitting, fits_at, records_at, fault_number, fault_detail};
ghost use Rattle.probe.specs.Records.{AllFit, Loaded, OwnersRise, SoundList, ListCheck, BridgesAnswer, ChokesAnswer};

use crate::copy;
use analysis::ChokesResult;
use areas_components::zero_fill;
use marks::mark_boundaries;
use serial_bridges::bridge_boundary_indices;
use wire::read_u32;

// What is wrong with a list: bytes that are no whole records; over 4,096 of them (their number); one that doesn't fit (its place); under 256 marks; and for
// marks an owner below the one before it (its place).
#[derive(Clone, Copy)]
enum Fault {
    Uneven,
    TooMany(usize),
    Unfit(usize),
    ShortMarks,
    Falling(usize),
}

impl From<Fault> for ChokesResult {
    ghost from_gives = { λ f r. (r.number ≡ fault_number f) × (r.detail ≡ fault_detail f) };

    fn from(fault: Fault) -> ChokesResult {
        let (number, detail) = match fault {
            Fault::Uneven => (1, 0),
            Fault::TooMany(count) => (2, count),
            Fault::Unfit(place) => (3, place),
            Fault::ShortMarks => (4, 0),
            Fault::Falling(place) => (5, place),
        };
        ChokesResult {
            number,
            detail: detail as u64,
        }
    }
}

fn fits(owner: usize, left: usize, right: usize, regions: usize) -> bool
    ensures { result ≡ fitting owner left right regions }
{
    // `&`, not `&&`: a record costs no branch but the one at its end.
    (owner < 256) & (0 < left) & (left <= regions) & (0 < right) & (right <= regions)
}

fn record_fits(records: &[u8], k: usize, regions: usize) -> bool
    requires { (k < 4096) × (12 * k + 12 ≤ length records.now) }
    ensures { result ≡ fits_at records.now regions k }
{
    let at = 12 * k;
    let owner = read_u32(records, at) as usize;
    let left = read_u32(records, at + 4) as usize;
    let right = read_u32(records, at + 8) as usize;
    fits(owner, left, right, regions)
}

// The first of n records that does not fit.
fn first_unfit(records: &[u8], n: usize, regions: usize) -> Option<usize>
    requires { (n ≤ 4096) × (12 * n ≤ length records.now) }
    ensures { MatchOption result (AllFit records.now regions n)
        (λ k. (k < n) × AllFit records.now regions k × (fits_at records.now regions k ≡ false)) }
{
    for k in 0..n {
        if !record_fits(records, k, regions) {
            return Some(k);
        }
    }
    None
}

// Records part by part, as the bridge walk and the marking take them.
// Arrays of fixed length, not Vecs: there is no heap.
#[derive(Drop)]
pub struct Records {
    pub owners: [u32; 4096],
    pub lefts: [u32; 4096],
    pub rights: [u32; 4096],
}

impl Records {
    // Reads n records to the start of the arrays, which stand where they are lent: a value of this size is not handed out.
    fn load(&mut self, records: &[u8], n: usize)
        requires { (n ≤ 4096) × (12 * n ≤ length records.now) }
        ensures { Loaded records.now n self.new.owners self.new.lefts self.new.rights }
    {
        for k in 0..n {
            let at = 12 * k;
            let owner = read_u32(records, at);
            let left = read_u32(records, at + 4);
            let right = read_u32(records, at + 8);
            self.owners[k] = owner;
            self.lefts[k] = left;
            self.rights[k] = right;
        }
    }
}

// The number of records, where nothing is wrong with the list.
fn check_list(records: &[u8], regions: usize, room: usize) -> Result<usize, Fault>
    ensures { MatchResult result (λ n. SoundList records.now regions room × (n ≡ length records.now / 12))
        (λ f. ListCheck records.now regions room (fault_number f) (fault_detail f)) }
{
    let n = records.len();
    if n % 12 != 0 {
        return Err(Fault::Uneven);
    }
    let count = n / 12;
    if 4096 < count {
        return Err(Fault::TooMany(count));
    }
    if let Some(k) = first_unfit(records, count, regions) {
        return Err(Fault::Unfit(k));
    }
    if room < 256 {
        return Err(Fault::ShortMarks);
    }
    Ok(count)
}

// The first of n records whose owner is below that of the one before it.
fn first_fall(records: &[u8], n: usize) -> Option<usize>
    requires { (n ≤ 4096) × (12 * n ≤ length records.now) }
    ensures { MatchOption result (OwnersRise records.now n)
        (λ k. (0 < k) × (k < n) × OwnersRise records.now k × (owner_at records.now k < owner_at records.now (k - 1))) }
{
    for k in 1..n {
        let before = read_u32(records, 12 * (k - 1));
        let owner = read_u32(records, 12 * k);
        if owner < before {
            return Some(k);
        }
    }
    None
}

// The bridges of records that fit. Apart from mark_records, its twin but for the walk: a closure's clauses would be as long as one of them.
fn bridge_records(records: &[u8], count: usize, regions: usize, work: &mut [u8], marks: &mut [u8])
    requires { (count ≤ 4096) × (12 * count ≤ length records.now) × AllFit records.now regions count
        × (4 * regions ≤ length work.old) × (256 ≤ length marks.old) }
    ensures work { work.new ≡ splice work.old 0 (replicate (4 * regions) 0) }
    ensures marks { marks.new ≡ bridge_marks (records_at records.now count) 256 ++ drop 256 marks.old }
{
    let mut loaded = Records {
        owners: [0; 4096],
        lefts: [0; 4096],
        rights: [0; 4096],
    };
    loaded.load(records, count);
    zero_fill(work, 0, 4 * regions);
    let mut found = [0u8; 256];
    bridge_boundary_indices(
        &loaded.owners,
        &loaded.lefts,
        &loaded.rights,
        count,
        regions,
        work,
        0,
        &mut found,
    );
    copy(marks, &found);
}

// The marks of records that fit and stand in the order of their owners.
fn mark_records(records: &[u8], count: usize, regions: usize, work: &mut [u8], marks: &mut [u8])
    requires { (count ≤ 4096) × (12 * count ≤ length records.now) × AllFit records.now regions count
        × (4 * regions ≤ length work.old) × (256 ≤ length marks.old) × OwnersRise records.now count }
    ensures work { work.new ≡ splice work.old 0 (replicate (4 * regions) 0) }
    ensures marks { marks.new ≡ choke_marks (records_at records.now count) 256 ++ drop 256 marks.old }
{
    let mut loaded = Records {
        owners: [0; 4096],
        lefts: [0; 4096],
        rights: [0; 4096],
    };
    loaded.load(records, count);
    zero_fill(work, 0, 4 * regions);
    let mut found = [0u8; 256];
    mark_boundaries(
        &loaded.owners,
        &loaded.lefts,
        &loaded.rights,
        count,
        regions,
        work,
        0,
        &mut found,
    );
    copy(marks, &found);
}

// The bridges of records that are little-endian words: owner, left region, right region. The first 256 marks are the owners'.
pub fn probe_bridges(records: &[u8], work: &mut [u8], marks: &mut [u8]) -> ChokesResult
    ensures { BridgesAnswer records.now work.old marks.old work.new marks.new result.number
        result.detail }
{
    let regions = work.len() / 4;
    let count = match check_list(records, regions, marks.len()) {
        Ok(count) => count,
        Err(fault) => return ChokesResult::from(fault),
    };
    bridge_records(records, count, regions, work, marks);
    ChokesResult {
        number: 0,
        detail: count as u64,
    }
}

// Their marks, where they stand in the order of their owners: each boundary closed as a whole.
pub fn probe_marks(records: &[u8], work: &mut [u8], marks: &mut [u8]) -> ChokesResult
    ensures { ChokesAnswer records.now work.old marks.old work.new marks.new result.number
        result.detail }
{
    let regions = work.len() / 4;
    let count = match check_list(records, regions, marks.len()) {
        Ok(count) => count,
        Err(fault) => return ChokesResult::from(fault),
    };
    if let Some(k) = first_fall(records, count) {
        return ChokesResult::from(Fault::Falling(k));
    }
    mark_records(records, count, regions, work, marks);
    ChokesResult {
        number: 0,
        detail: count as u64,
    }
}
