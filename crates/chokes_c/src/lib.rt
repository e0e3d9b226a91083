// The four calls as C functions: each calls chokes' function of the same name and promises the same.
#![tactic(auto)]

ghost use Rattle.std.specs.Prelude.{◌≡◌};
ghost use Rattle.results.specs.Calls.{cards_result, mark_result, reduce_result, reduce_by_list_result};
ghost use Rattle.results.specs.Results.{left_by};

use analysis::ChokesResult;

#[unsafe(no_mangle)]
pub extern "C" fn chokes_reduce(
    job: &[u8],
    thresholds: &[u8],
    work: &mut [u8],
    answer: &mut [u8],
) -> ChokesResult
    ensures { left_by result.number result.detail work.new answer.new ≡ reduce_result job.now thresholds.now
        work.old answer.old }
{
    chokes::chokes_reduce(job, thresholds, work, answer)
}

#[unsafe(no_mangle)]
pub extern "C" fn chokes_reduce_by_list(
    job: &[u8],
    list: &[u8],
    thresholds: &[u8],
    work: &mut [u8],
    answer: &mut [u8],
) -> ChokesResult
    ensures { left_by result.number result.detail work.new answer.new ≡ reduce_by_list_result job.now list.now
        thresholds.now work.old answer.old }
{
    chokes::chokes_reduce_by_list(job, list, thresholds, work, answer)
}

#[unsafe(no_mangle)]
pub extern "C" fn chokes_mark(job: &[u8], work: &mut [u8], marks: &mut [u8]) -> ChokesResult
    ensures { left_by result.number result.detail work.new marks.new ≡ mark_result job.now work.old
        marks.old }
{
    chokes::chokes_mark(job, work, marks)
}

#[unsafe(no_mangle)]
pub extern "C" fn chokes_area_cards(job: &[u8], work: &mut [u8], cards: &mut [u8]) -> ChokesResult
    ensures { left_by result.number result.detail work.new cards.new ≡ cards_result job.now work.old
        cards.old }
{
    chokes::chokes_area_cards(job, work, cards)
}
