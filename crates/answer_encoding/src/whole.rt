// An answer from what was gathered.
ghost use Rattle.std.specs.Prelude.{◌≡◌, List, ℕ, length};
ghost use Rattle.format.specs.Values.{Boundary};
ghost use Rattle.format.specs.Encode.{encode_answer};
ghost use Rattle.answer_sources.specs.Gathered.{Gathered};
ghost use Rattle.answer_encoding.specs.Answered.{Answered, Writable};

use crate::records::write_header;
use crate::sections::{write_boundaries, write_observations, write_sources};
use crate::sums::{sum_first, sum_runs};
use answer_gathering::observations::Observations;
use format::{ANSWER_BOUNDARY_SIZE, ANSWER_HEADER_SIZE, OBSERVATION_SIZE, SOURCE_SIZE};

// The answer's length; the answer itself where it fits. Every length is known before a byte is written.
pub fn write_kept(
    job: &[u8],
    at: usize,
    from: usize,
    count: usize,
    kept: &[u32],
    owns: &[u32],
    seens: &[u32],
    owned: &[u16],
    seen: &[u32],
    o: Observations,
    answer: &mut [u8],
) -> usize
    requires { Writable job.now at from count kept.now owns.now seens.now owned.now seen.now o.first.now o.second.now o.third.now
        o.starts.now o.counts.now o.keys.now }
    ensures { (n : ℕ) (ks : List Boundary) → length ks ≡ count
        → Gathered job.now at from n ks kept.now owns.now seens.now owned.now
        seen.now o.entry.first.now o.entry.second.now o.entry.third.now o.entry.starts.now o.entry.counts.now
        o.entry.keys.now → Answered (encode_answer ks) answer.old answer.new result }
{
    let observations = sum_first(seens, count);
    let sources = sum_first(owns, count) + sum_runs(seen, observations, o);
    let places = ANSWER_HEADER_SIZE + count * ANSWER_BOUNDARY_SIZE;
    let runs = places + observations * OBSERVATION_SIZE;
    let total = runs + sources * SOURCE_SIZE;
    if answer.len() < total {
        return total;
    }
    write_header(answer, count as u32, observations as u32, sources as u32);
    write_boundaries(
        job,
        at,
        count,
        kept,
        owns,
        seens,
        answer,
        ANSWER_HEADER_SIZE,
    );
    write_observations(answer, places, observations, seen, o);
    write_sources(answer, runs, count, job, from, owns, seens, owned, seen, o);
    total
}
