// What choke-list prints, written into a lent slice.
ghost use Rattle.std.specs.Prelude.{◌≡◌, ◌*◌, ◌≤◌, length};
ghost use Rattle.results.specs.Calls.{reduce_result};
ghost use Rattle.answer_text.specs.Answer.{Writes};
ghost use Rattle.printing.specs.Printed.{printed};

use analysis::ChokesResult;
use answer_text::{write_listing, write_refused};
use chokes::chokes_reduce;

// Runs Reduce on a job, with lent thresholds, work and answer, and writes what is printed at the start of out; gives its length. Work and answer are
// left as Reduce leaves them.
// Slices one by one, as chokes_reduce takes them.
pub fn print_list(
    job: &[u8],
    thresholds: &[u8],
    work: &mut [u8],
    answer: &mut [u8],
    out: &mut [u8],
) -> usize
    requires { (3 * length answer.old ≤ length out.old) × (40 ≤ length out.old) }
    ensures writes { Writes (printed (reduce_result job.now thresholds.now work.old answer.old))
        out.old 0 out.new result }
    ensures fits { result ≤ length out.new }
    ensures lent { (work.new ≡ (reduce_result job.now thresholds.now work.old answer.old).work)
        × (answer.new ≡ (reduce_result job.now thresholds.now work.old answer.old).out) }
{
    let v: ChokesResult = chokes_reduce(job, thresholds, work, answer);
    let number = v.number;
    let detail = v.detail;
    // The C interface gives a refusal by its number.
    if number != 0 {
        return write_refused(number, detail, out);
    }
    let n = detail as usize;
    write_listing(&answer[..n], out)
}
