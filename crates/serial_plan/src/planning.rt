// The merge plan, from what the partition and the bridges leave in arrays by rank.
ghost use Rattle.std.specs.Prelude.{◌≡◌, ◌≤◌, length};
ghost use Rattle.grid.specs.Cells.{map_of};
ghost use Rattle.areas.specs.Words.{labels_in};
ghost use Rattle.serial_links.specs.HeldLimits.{limits_of};
ghost use Rattle.serial_plan.specs.Listed.{PlanInput};
ghost use Rattle.serial_plan.specs.Planned.{LinksFrom, PlanFrom};

use crate::merge::merge_plan;
use crate::tables::Tables;
use context::anchored::anchor_labels;
use serial_candidates::candidate_links;
use serial_links::limits::Limits;
use serial_measures::measure_links;

// The first pairs of the ranks, and the links with their marks.
#[derive(Drop)]
struct Measured {
    lowers: [u32; 256],
    highers: [u32; 256],
    regions: [u32; 256],
    firsts: [u32; 256],
    seconds: [u32; 256],
    passing: [u8; 256],
    flat: [u8; 256],
}

// Gives how many links there are; the table is left as it was.
// plan_merges' inputs, one by one: a struct for this one function would be longer.
fn measured_links(
    limits: Limits,
    job: &[u8],
    bases_at: usize,
    bases: usize,
    cells: &[u8],
    width: u32,
    height: u32,
    n: usize,
    own: &[u32; 1024],
    bits: &[u64; 256],
    ramps: &[u8; 256],
    work: &mut [u8],
    removed: &[u32; 256],
    separated: &[u32; 256],
    owners: &[u32],
    lefts: &[u32],
    rights: &[u32],
    records: usize,
    found: &mut Measured,
) -> usize
    requires { PlanInput job.now bases_at bases cells.now width height n own.now bits.now ramps.now work.old removed.now separated.now
        owners.now lefts.now rights.now records }
    ensures work { work.new ≡ work.old }
    ensures links { LinksFrom (limits_of limits) job.now bases_at bases (map_of width height cells.now) n own.now
        bits.now ramps.now (labels_in work.old (length cells.now)) removed.now
        separated.now owners.now lefts.now rights.now records found.new.lowers found.new.highers
        found.new.regions found.new.firsts found.new.seconds found.new.passing found.new.flat result }
{
    let m = cells.len();
    let mut anchors = [0u32; 256];
    let mut counts = [0u32; 256];
    let mut inside = [0u8; 256];
    let anchored = anchor_labels(
        job,
        bases_at,
        bases,
        width,
        &work[0..4 * m],
        m,
        &mut anchors,
    );
    let links = candidate_links(
        &anchors[..anchored],
        n,
        own,
        ramps,
        removed,
        separated,
        owners,
        lefts,
        rights,
        records,
        &mut counts,
        &mut found.lowers,
        &mut found.highers,
        &mut found.regions,
        &mut found.firsts,
        &mut found.seconds,
    );
    measure_links(
        cells,
        width,
        height,
        work,
        &found.regions,
        &found.firsts,
        &found.seconds,
        links,
        own,
        bits,
        limits,
        &mut found.passing,
        &mut found.flat,
        &mut inside,
    );
    links
}

// The rank that each rank goes into, from what the partition and the bridges left in arrays by rank. The table is left as it was.
// Array by array, not as a struct: analysis calls it so.
pub fn plan_merges(
    limits: Limits,
    job: &[u8],
    bases_at: usize,
    bases: usize,
    cells: &[u8],
    width: u32,
    height: u32,
    n: usize,
    own: &[u32; 1024],
    bits: &[u64; 256],
    ramps: &[u8; 256],
    work: &mut [u8],
    removed: &[u32; 256],
    separated: &[u32; 256],
    owners: &[u32],
    lefts: &[u32],
    rights: &[u32],
    records: usize,
    marks: &[u8; 256],
    into: &mut [u32; 256],
)
    requires { (limits.most_spans ≤ 16)
        × PlanInput job.now bases_at bases cells.now width height n own.now bits.now ramps.now work.old removed.now separated.now owners.now
        lefts.now rights.now records × (length into.old ≡ 256) }
    ensures work { work.new ≡ work.old }
    ensures plan { PlanFrom (limits_of limits) job.now bases_at bases (map_of width height cells.now) n own.now
        bits.now ramps.now (labels_in work.old (length cells.now)) removed.now
        separated.now owners.now lefts.now rights.now records marks.now into.new }
{
    let mut found = Measured {
        lowers: [0u32; 256],
        highers: [0u32; 256],
        regions: [0u32; 256],
        firsts: [0u32; 256],
        seconds: [0u32; 256],
        passing: [0u8; 256],
        flat: [0u8; 256],
    };
    let links = measured_links(
        limits, job, bases_at, bases, cells, width, height, n, own, bits, ramps, work, removed,
        separated, owners, lefts, rights, records, &mut found,
    );
    let t = Tables {
        n,
        own,
        bits,
        lowers: &found.lowers,
        highers: &found.highers,
        links,
        regions: &found.regions,
        firsts: &found.firsts,
        seconds: &found.seconds,
    };
    merge_plan(limits, &t, marks, &found.passing, &found.flat, into);
}
