// The answer from what was worked out by place: what is kept is gathered, then written.
ghost use Rattle.std.specs.Prelude.{◌≡◌, ◌+◌, ◌*◌, ◌≤◌};
ghost use Rattle.format.specs.Encode.{encode_answer};
ghost use Rattle.answer_encoding.specs.Answered.{Answered, Answerable, WorkedFor, GatherArrays, kept_of};

use crate::whole::write_kept;
use answer_gathering::kept::gather_kept;
use answer_gathering::observations::Observations;
use format::Header;

// The answer, gathered in arrays that are lent.
fn write_gathered_in(
    job: &[u8],
    h: Header,
    order: &[u32; 256],
    plan: &[u32; 256],
    stands: &[u32; 256],
    firsts: &[u32],
    o: Observations,
    heads: usize,
    links: &mut [u16],
    owned: &mut [u16],
    seen: &mut [u32],
    places: &mut [u32],
    answer: &mut [u8],
) -> usize
    requires { Answerable job.now h order.now
        × WorkedFor job.now h order.now plan.now stands.now firsts.now o.first.now o.second.now o.third.now o.starts.now o.counts.now o.keys.now
        × GatherArrays h.counts.boundaries h.counts.observations h.counts.sources heads links.old owned.old seen.old places.old }
    ensures { Answered (encode_answer (kept_of job.now order.now plan.now)) answer.old answer.new
        result }
{
    let c = h.counts;
    let at = h.offsets.boundaries as usize;
    let n = c.boundaries as usize;
    let from = h.offsets.sources as usize;
    let base = c.observations as usize;
    let mut kept = [0u32; 256];
    let mut owns = [0u32; 256];
    let mut seens = [0u32; 256];
    let count = gather_kept(
        job, at, n, from, base, order, plan, stands, firsts, o, heads, links, &mut kept, &mut owns,
        &mut seens, owned, seen, places,
    );
    write_kept(
        job, at, from, count, &kept, &owns, &seens, owned, seen, o, answer,
    )
}

// The answer of a job of at most SOURCES sources, and PLACES boundaries and observations together; the arrays to gather in are this
// function's own. Sources are looked up by four heads for each: LINKS has those, and two more for each source.
pub fn write_gathered<const SOURCES: usize, const PLACES: usize, const LINKS: usize>(
    job: &[u8],
    h: Header,
    order: &[u32; 256],
    plan: &[u32; 256],
    stands: &[u32; 256],
    firsts: &[u32],
    o: Observations,
    answer: &mut [u8],
) -> usize
    requires { Answerable job.now h order.now
        × WorkedFor job.now h order.now plan.now stands.now firsts.now o.first.now o.second.now o.third.now o.starts.now o.counts.now o.keys.now
        × (h.counts.observations + h.counts.boundaries ≤ PLACES) × (h.counts.sources ≤ SOURCES) × (SOURCES ≤ 4096) × (PLACES ≤ 1280)
        × (LINKS ≡ 6 * SOURCES) }
    ensures { Answered (encode_answer (kept_of job.now order.now plan.now)) answer.old answer.new
        result }
{
    let mut links = [0u16; LINKS];
    let mut owned = [0u16; SOURCES];
    let mut seen = [0u32; PLACES];
    let mut places = [0u32; PLACES];
    write_gathered_in(
        job,
        h,
        order,
        plan,
        stands,
        firsts,
        o,
        4 * SOURCES,
        &mut links,
        &mut owned,
        &mut seen,
        &mut places,
        answer,
    )
}
