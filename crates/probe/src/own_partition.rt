// The partition of a job by its boundaries' own ends, alone.
ghost use Rattle.std.specs.Prelude.{◌≡◌, ◌+◌, ◌*◌, ◌<◌, ◌≤◌, length};
ghost use Rattle.wire.specs.Bytes.{splice};
ghost use Rattle.grid.specs.Directions.{eight, directions_of};
ghost use Rattle.analysis.specs.Plans.{Leads, OwnJob};
ghost use Rattle.probe.specs.Parting.{PartitionBytes, PartitionLeft, PartitionAnswer, counts_from, records_from, held_bytes};

use crate::bare_records::Records;
use analysis::{ChokesResult, WORK_PER_CELL, first_answer, own_ends};
use areas_partition::partition_by_spans;
use checks::refusals::ANSWER_TOO_SHORT;
use checks_calls::check_reduce;
use format::{HEADER_SIZE, Header, read_header};
use grid::neighbors::EIGHT;
use wire::write_u32;

// The counts of each span, from the third word on.
// removed and separated are apart from Records: partition_by_spans takes them one by one.
fn write_counts(removed: &[u32; 256], separated: &[u32; 256], count: usize, out: &mut [u8])
    requires { (count ≤ 256) × (8 + 8 * count ≤ length out.old) }
    ensures { out.new ≡ splice out.old 8 (counts_from removed.now separated.now count) }
{
    for i in 0..count {
        let place = 8 + 8 * i;
        write_u32(out, place, removed[i]);
        write_u32(out, place + 4, separated[i]);
    }
}

// The records, from place at on.
fn write_records(records: &Records, pairs: usize, at: usize, out: &mut [u8])
    requires { (pairs ≤ 4096) × (at ≤ 4096) × (at + 12 * pairs ≤ length out.old) }
    ensures { out.new ≡ splice out.old at (records_from records.now.owners records.now.lefts records.now.rights pairs) }
{
    for k in 0..pairs {
        let place = at + 12 * k;
        write_u32(out, place, records.owners[k]);
        write_u32(out, place + 4, records.lefts[k]);
        write_u32(out, place + 8, records.rights[k]);
    }
}

// Little-endian words: the number of areas, that of the pairs; removed and separated of each span; owner, left and right of each record.
fn write_partition(
    areas: u32,
    pairs: usize,
    count: usize,
    removed: &[u32; 256],
    separated: &[u32; 256],
    records: &Records,
    out: &mut [u8],
) -> ChokesResult
    requires { count ≤ 256 }
    ensures { PartitionBytes count pairs
        (held_bytes areas pairs count removed.now separated.now records.now.owners records.now.lefts records.now.rights)
        out.old out.new result.number result.detail }
{
    let r = ChokesResult::of_pairs(pairs);
    if 0 < r.number {
        return r;
    }
    let start = 8 + 8 * count;
    let total = start + 12 * pairs;
    if out.len() < total {
        return ChokesResult {
            number: ANSWER_TOO_SHORT,
            detail: total as u64,
        };
    }
    write_u32(out, 0, areas);
    write_u32(out, 4, pairs as u32);
    write_counts(removed, separated, count, out);
    write_records(records, pairs, start, out);
    ChokesResult {
        number: 0,
        detail: total as u64,
    }
}

fn partition_job(
    directions: u32,
    job: &[u8],
    h: Header,
    work: &mut [u8],
    out: &mut [u8],
) -> ChokesResult
    requires { OwnJob job.now h work.old × Leads directions }
    ensures { PartitionLeft (directions_of directions) job.now work.old out.old work.new
        out.new result.number result.detail }
{
    let c = h.counts;
    let n = (c.width * c.height) as usize;
    let count = c.boundaries as usize;
    let mut ends = [0u32; 1024];
    own_ends(job, h, &mut ends);
    let mut removed = [0u32; 256];
    let mut separated = [0u32; 256];
    let mut records = Records {
        owners: [0; 4096],
        lefts: [0; 4096],
        rights: [0; 4096],
    };
    let p = partition_by_spans(
        &job[HEADER_SIZE..HEADER_SIZE + n],
        c.width,
        c.height,
        directions,
        &ends,
        count,
        work,
        &mut removed,
        &mut separated,
        &mut records.owners,
        &mut records.lefts,
        &mut records.rights,
    );
    write_partition(p.areas, p.pairs, count, &removed, &separated, &records, out)
}

// Labels the areas in work, and tells what the partition found in out.
pub fn probe_partition(job: &[u8], work: &mut [u8], out: &mut [u8]) -> ChokesResult
    ensures { PartitionAnswer eight job.now work.old out.old work.new
        out.new result.number result.detail }
{
    let r = first_answer(check_reduce(job), job, WORK_PER_CELL, work.len());
    if 0 < r.number {
        return r;
    }
    partition_job(EIGHT, job, read_header(job), work, out)
}
