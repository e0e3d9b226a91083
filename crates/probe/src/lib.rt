// Functions for the differential driver, so that it can reach what no exported call shows by itself; probe_c exports them to C. No part of the product.
#![tactic(auto)]

ghost use Rattle.std.specs.Prelude.{◌≡◌, length};
ghost use Rattle.probe.specs.Probe.{checked, put_first};
ghost use Rattle.checks_calls.specs.SpanEnds.{span_ends};
ghost use Rattle.checks.specs.Verdict.{meaning, number_of, detail_of};

use analysis::ChokesResult;
use checks::Refused;

mod bare_records; // the bridges and the marks of bare lists of records
mod own_partition; // the partition alone
mod own_plan; // the merge plan alone
mod own_regions; // what is known of one region
mod own_links; // what a link measures in a region
mod own_lengths; // lengths and totals, by their squares
mod own_block; // the block of source document 000

pub use bare_records::{probe_bridges, probe_marks};
pub use own_block::probe_thresholds;
pub use own_lengths::{ProbeLength, probe_chain, probe_length};
pub use own_links::probe_link;
pub use own_partition::probe_partition;
pub use own_plan::probe_plan;
pub use own_regions::probe_region;

// The call is C's number, not an enum: `checked` of specs/Probe.antt takes it.
fn verdict(call: u32, job: &[u8], list: &[u8]) -> Result<(), Refused>
    ensures { meaning result ≡ checked call job.now list.now }
{
    if call == 0 {
        return checks_calls::check_reduce(job);
    }
    if call == 1 {
        return checks_calls::check_reduce_by_list(job, list);
    }
    checks_calls::check_mark(job)
}

// The input checks of a call: 0 Reduce, 1 Reduce by list, any other Mark.
pub fn probe_check(call: u32, job: &[u8], list: &[u8]) -> ChokesResult
    ensures { (result.number ≡ number_of (checked call job.now list.now))
        × (result.detail ≡ detail_of (checked call job.now list.now)) }
{
    ChokesResult::from(verdict(call, job, list))
}

// part at the start of out where it fits; its number of bytes. A loop, not copy_from_slice: that calls memmove, which nothing else here needs.
fn copy(out: &mut [u8], part: &[u8]) -> usize
    ensures { (result ≡ length part.now) × (out.new ≡ put_first out.old part.now) }
{
    let n = part.len();
    if out.len() < n {
        return n;
    }
    for k in 0..n {
        out[k] = part[k];
    }
    n
}

// The ends of span i, put at the start of out where they fit; their number of bytes.
// `which` is C's number, not an enum, as span_ends takes it.
pub fn probe_span_ends<'a>(
    job: &'a [u8],
    list: &'a [u8],
    which: u32,
    i: u32,
    out: &mut [u8],
) -> usize
    ensures { (result ≡ length (span_ends job.now list.now which i))
        × (out.new ≡ put_first out.old (span_ends job.now list.now which i)) }
{
    copy(out, checks_calls::span_ends(job, list, which, i))
}
