// The driver's functions as C functions: each calls probe's function of the same name and promises the same.
#![tactic(auto)]

ghost use Rattle.std.specs.Prelude.{◌≡◌, length};
ghost use Rattle.wire.specs.Bytes.{words};
ghost use Rattle.format.specs.Decode.{decode};
ghost use Rattle.checks.specs.Verdict.{number_of, detail_of};
ghost use Rattle.checks_calls.specs.SpanEnds.{span_ends};
ghost use Rattle.grid.specs.Directions.{eight};
ghost use Rattle.serial_links.specs.Limits.{limits000};
ghost use Rattle.thresholds.specs.Block.{block000};
ghost use Rattle.probe.specs.Probe.{checked, put_first, length_where_fits};
ghost use Rattle.probe.specs.Records.{BridgesAnswer, ChokesAnswer};
ghost use Rattle.probe.specs.Parting.{PartitionAnswer};
ghost use Rattle.probe.specs.Planning.{probe_checks, probe_spans, PlanAnswer};
ghost use Rattle.probe.specs.Regions.{region_words, cell_labels, Shown};
ghost use Rattle.probe.specs.Links.{link_bytes, LinkAnswer};
ghost use Rattle.probe.specs.Lengths.{length_answer, chain_answer};

use analysis::ChokesResult;
use probe::ProbeLength;

#[unsafe(no_mangle)]
pub extern "C" fn probe_check(call: u32, job: &[u8], list: &[u8]) -> ChokesResult
    ensures { (result.number ≡ number_of (checked call job.now list.now))
        × (result.detail ≡ detail_of (checked call job.now list.now)) }
{
    probe::probe_check(call, job, list)
}

#[unsafe(no_mangle)]
pub extern "C" fn probe_span_ends<'a>(
    job: &'a [u8],
    list: &'a [u8],
    which: u32,
    i: u32,
    out: &mut [u8],
) -> usize
    ensures { (result ≡ length (span_ends job.now list.now which i))
        × (out.new ≡ put_first out.old (span_ends job.now list.now which i)) }
{
    probe::probe_span_ends(job, list, which, i, out)
}

#[unsafe(no_mangle)]
pub extern "C" fn probe_bridges(records: &[u8], work: &mut [u8], marks: &mut [u8]) -> ChokesResult
    ensures { BridgesAnswer records.now work.old marks.old work.new marks.new result.number
        result.detail }
{
    probe::probe_bridges(records, work, marks)
}

#[unsafe(no_mangle)]
pub extern "C" fn probe_marks(records: &[u8], work: &mut [u8], marks: &mut [u8]) -> ChokesResult
    ensures { ChokesAnswer records.now work.old marks.old work.new marks.new result.number
        result.detail }
{
    probe::probe_marks(records, work, marks)
}

#[unsafe(no_mangle)]
pub extern "C" fn probe_partition(job: &[u8], work: &mut [u8], out: &mut [u8]) -> ChokesResult
    ensures { PartitionAnswer eight job.now work.old out.old work.new
        out.new result.number result.detail }
{
    probe::probe_partition(job, work, out)
}

#[unsafe(no_mangle)]
pub extern "C" fn probe_plan(
    job: &[u8],
    list: &[u8],
    which: u32,
    work: &mut [u8],
    out: &mut [u8],
) -> ChokesResult
    ensures { PlanAnswer limits000 eight (probe_checks which job.now list.now) (decode job.now)
        (probe_spans which job.now list.now)
        work.old out.old work.new out.new result.number result.detail }
{
    probe::probe_plan(job, list, which, work, out)
}

#[unsafe(no_mangle)]
pub extern "C" fn probe_region(
    job: &[u8],
    labels: &[u8],
    region: u32,
    out: &mut [u8],
) -> ChokesResult
    ensures { Shown job.now labels.now
        (words (region_words (decode job.now) (cell_labels job.now labels.now) region)) 48
        out.old out.new result.number result.detail }
{
    probe::probe_region(job, labels, region, out)
}

#[unsafe(no_mangle)]
pub extern "C" fn probe_link(
    job: &[u8],
    labels: &[u8],
    region: u32,
    first: u32,
    second: u32,
    out: &mut [u8],
) -> ChokesResult
    ensures { LinkAnswer job.now labels.now (link_bytes limits000 job.now labels.now region first second)
        first second out.old out.new result.number result.detail }
{
    probe::probe_link(job, labels, region, first, second, out)
}

#[unsafe(no_mangle)]
pub extern "C" fn probe_length(d: u32) -> ProbeLength
    ensures { result ≡ length_answer d }
{
    probe::probe_length(d)
}

#[unsafe(no_mangle)]
pub extern "C" fn probe_chain(count: u32, d: u32, e: u32, f: u32) -> ProbeLength
    ensures { result ≡ chain_answer count d e f }
{
    probe::probe_chain(count, d, e, f)
}

#[unsafe(no_mangle)]
pub extern "C" fn probe_thresholds(block: &mut [u8]) -> u64
    ensures { (result ≡ length_where_fits block.old block000) × (block.new ≡ put_first block.old block000) }
{
    probe::probe_thresholds(block)
}
