// The ends of one span, as a part of the job or of the list.
ghost use Rattle.std.specs.Prelude.{◌≡◌, ◌&&◌, ltb};
ghost use Rattle.format.specs.Header.{header_at};
ghost use Rattle.checks.specs.Checks.{first_refusal};
ghost use Rattle.checks.specs.Single.{span_count};
ghost use Rattle.checks_calls.specs.Refusals.{reduce_checks, by_list_checks};
ghost use Rattle.checks_calls.specs.SpanEnds.{SpanPart};
ghost use Rattle.checks.specs.Verdict.{passes};

use crate::calls::{check_reduce, check_reduce_by_list};
use format::{BOUNDARY_SIZE, SPAN_SIZE, read_header};

// Reduce takes the job, and it has a boundary i.
fn job_has(job: &[u8], i: usize) -> bool
    ensures { result ≡ (passes (first_refusal (reduce_checks job.now)) && ltb i (header_at job.now).counts.boundaries) }
{
    check_reduce(job).is_ok() && i < read_header(job).counts.boundaries as usize
}

// Reduce by list takes both, and the list has a span i.
fn list_has(job: &[u8], list: &[u8], i: usize) -> bool
    ensures { result ≡ (passes (first_refusal (by_list_checks job.now list.now)) && ltb i (span_count list.now)) }
{
    check_reduce_by_list(job, list).is_ok() && i < list.len() / SPAN_SIZE
}

// A number chooses, not an enum: probe_c's C interface passes it on.
pub fn span_ends<'a>(job: &'a [u8], list: &'a [u8], which: u32, i: u32) -> &'a [u8]
    ensures { SpanPart job.now list.now which i job.entry.ref_ptr list.entry.ref_ptr result.ref_ptr result.now }
{
    let k = i as usize;
    if which == 0 {
        if job_has(job, k) {
            let h = read_header(job);
            let o = h.offsets;
            let at = o.boundaries as usize + k * BOUNDARY_SIZE;
            return &job[at..at + SPAN_SIZE];
        }
        return &job[0..0];
    }
    if list_has(job, list, k) {
        let at = k * SPAN_SIZE;
        return &list[at..at + SPAN_SIZE];
    }
    &list[0..0]
}
