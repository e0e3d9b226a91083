// A job's answer, from the order of its boundaries and the plan of what goes into what.
ghost use Rattle.std.specs.Prelude.{◌≡◌, map, ◌+◌, ◌*◌, ◌≤◌, get_or};
ghost use Rattle.order.specs.Lists.{up_from};
ghost use Rattle.format.specs.Header.{counts_at};
ghost use Rattle.format.specs.Decode.{decode};
ghost use Rattle.format.specs.Encode.{encode_answer};
ghost use Rattle.serial_merging.specs.Copies.{canon};
ghost use Rattle.serial_merging.specs.Kept.{no_boundary};
ghost use Rattle.serial_merging.specs.Planned.{planned};
ghost use Rattle.answer_encoding.specs.Answered.{Answered, Answerable, kept_of};

use crate::by_place::place_job;
use crate::gathered::write_gathered;
use answer_gathering::observations::Observations;
use format::{Header, MAX_BOUNDARIES, MAX_OBSERVATIONS, MAX_SOURCES};

// The most sources of a small job, and the most places: boundaries and observations together.
const FEW_SOURCES: usize = 512;

const FEW_PLACES: usize = 64;

// The most sources of any job, and the most places.
const MOST_SOURCES: usize = MAX_SOURCES as usize;

const MOST_PLACES: usize = (MAX_OBSERVATIONS + MAX_BOUNDARIES) as usize;

// The links that they are looked up by: six for each source.
const FEW_LINKS: usize = 6 * FEW_SOURCES;

const MOST_LINKS: usize = 6 * MOST_SOURCES;

// The answer of a job of at most SOURCES sources and PLACES places; the arrays to work in are this function's own.
fn write_within<const SOURCES: usize, const PLACES: usize, const LINKS: usize>(
    job: &[u8],
    h: Header,
    order: &[u32; 256],
    plan: &[u32; 256],
    answer: &mut [u8],
) -> usize
    requires { Answerable job.now h order.now × (h.counts.observations + h.counts.boundaries ≤ PLACES) × (h.counts.sources ≤ SOURCES)
        × (SOURCES ≤ 4096) × (PLACES ≤ 1280) × (LINKS ≡ 6 * SOURCES) }
    ensures { Answered (encode_answer (kept_of job.now order.now plan.now)) answer.old answer.new
        result }
{
    let mut stands = [0u32; 256];
    let mut firsts = [0u32; 256];
    let mut first = [0u64; PLACES];
    let mut second = [0u64; PLACES];
    let mut third = [0u64; PLACES];
    let mut starts = [0u32; PLACES];
    let mut counts = [0u32; PLACES];
    let mut keys = [0u64; SOURCES];
    place_job::<SOURCES>(
        job,
        h,
        order,
        plan,
        &mut stands,
        &mut firsts,
        &mut first,
        &mut second,
        &mut third,
        &mut starts,
        &mut counts,
        &mut keys,
    );
    let o = Observations {
        first: &first,
        second: &second,
        third: &third,
        starts: &starts,
        counts: &counts,
        keys: &keys,
    };
    write_gathered::<SOURCES, PLACES, LINKS>(job, h, order, plan, &stands, &firsts, o, answer)
}

// The answer's length; the answer itself where it fits.
pub fn write_answer(
    job: &[u8],
    h: Header,
    order: &[u32; 256],
    plan: &[u32; 256],
    answer: &mut [u8],
) -> usize
    requires { Answerable job.now h order.now }
    ensures { Answered
        (encode_answer (planned (map (λ i. canon (get_or (decode job.now).boundaries (get_or order.now i 0) no_boundary))
        (up_from 0 (counts_at job.now 0).boundaries)) (λ i. get_or plan.now i 0))) answer.old answer.new result }
{
    let c = h.counts;
    let places = c.boundaries as usize + c.observations as usize;
    if places <= FEW_PLACES && c.sources as usize <= FEW_SOURCES {
        return write_within::<FEW_SOURCES, FEW_PLACES, FEW_LINKS>(job, h, order, plan, answer);
    }
    write_within::<MOST_SOURCES, MOST_PLACES, MOST_LINKS>(job, h, order, plan, answer)
}
