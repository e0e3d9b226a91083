// Reduce and Reduce by list: the answer that a plan gives, by the limits of a lent block.
ghost use Rattle.std.specs.Prelude.{◌≡◌};
ghost use Rattle.format.specs.Header.{header_at};
ghost use Rattle.results.specs.Calls.{reduce_result, reduce_by_list_result};
ghost use Rattle.results.specs.Results.{left_by};
ghost use Rattle.results.specs.Returns.{Finished};
ghost use Rattle.checks.specs.Numbers.{answer_too_short};
ghost use Rattle.checks.specs.Verdict.{meaning, number_of, count_or_detail};
ghost use Rattle.analysis.specs.Plans.{answer_bytes};
ghost use Rattle.answer_encoding.specs.Answered.{Answerable};

use analysis::{ChokesResult, merges_by_list, merges_by_own_ends};
use answer_encoding::from_job::write_answer;
use checks::Refused;
use format::read_header;
use grid::neighbors::EIGHT;
use thresholds::{check_thresholds, read_limits};

// Writes the answer of a plan where the slice has room for it; gives its length.
fn finish(
    job: &[u8],
    order: &[u32; 256],
    plan: &[u32; 256],
    answer: &mut [u8],
) -> Result<usize, Refused>
    requires { Answerable job.now (header_at job.now) order.now }
    ensures { Finished answer_too_short (answer_bytes job.now order.now plan.now) answer.old
        answer.new (number_of (meaning result)) (count_or_detail result) }
{
    let room = answer.len();
    let h = read_header(job);
    let n = write_answer(job, h, order, plan, answer);
    if room < n {
        return Err(Refused::AnswerTooShort(n));
    }
    Ok(n)
}

// Gives the length of the answer.
// Not one with reduce_by_list over a closure: the call in which they differ is one line of six.
fn reduce(
    job: &[u8],
    thresholds: &[u8],
    work: &mut [u8],
    answer: &mut [u8],
) -> Result<usize, Refused>
    ensures { left_by (number_of (meaning result)) (count_or_detail result) work.new answer.new ≡ reduce_result job.now thresholds.now
        work.old answer.old }
{
    check_thresholds(thresholds)?;
    let limits = read_limits(thresholds);
    let mut order = [0u32; 256];
    let mut plan = [0u32; 256];
    merges_by_own_ends(limits, EIGHT, job, work, &mut order, &mut plan)?;
    finish(job, &order, &plan, answer)
}

pub fn chokes_reduce(
    job: &[u8],
    thresholds: &[u8],
    work: &mut [u8],
    answer: &mut [u8],
) -> ChokesResult
    ensures { left_by result.number result.detail work.new answer.new ≡ reduce_result job.now thresholds.now
        work.old answer.old }
{
    let answered = reduce(job, thresholds, work, answer);
    ChokesResult::from(answered)
}

// Gives the length of the answer.
fn reduce_by_list(
    job: &[u8],
    list: &[u8],
    thresholds: &[u8],
    work: &mut [u8],
    answer: &mut [u8],
) -> Result<usize, Refused>
    ensures { left_by (number_of (meaning result)) (count_or_detail result) work.new answer.new ≡ reduce_by_list_result job.now list.now
        thresholds.now work.old answer.old }
{
    check_thresholds(thresholds)?;
    let limits = read_limits(thresholds);
    let mut order = [0u32; 256];
    let mut plan = [0u32; 256];
    merges_by_list(limits, EIGHT, job, list, work, &mut order, &mut plan)?;
    finish(job, &order, &plan, answer)
}

pub fn chokes_reduce_by_list(
    job: &[u8],
    list: &[u8],
    thresholds: &[u8],
    work: &mut [u8],
    answer: &mut [u8],
) -> ChokesResult
    ensures { left_by result.number result.detail work.new answer.new ≡ reduce_by_list_result job.now list.now
        thresholds.now work.old answer.old }
{
    let answered = reduce_by_list(job, list, thresholds, work, answer);
    ChokesResult::from(answered)
}
