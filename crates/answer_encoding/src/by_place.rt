// What is worked out by place of a job, before anything is gathered.
ghost use Rattle.std.specs.Prelude.{◌≡◌, ◌≤◌, length};
ghost use Rattle.answer_encoding.specs.Answered.{Answerable, RoomFor, WorkedFor};

use answer_sources::placing::place_all;
use answer_sources::standing::mark_standing;
use format::Header;

// By place, of a job of at most SOURCES sources; the room to sort in is this function's own.
pub fn place_job<const SOURCES: usize>(
    job: &[u8],
    h: Header,
    order: &[u32; 256],
    plan: &[u32; 256],
    stands: &mut [u32; 256],
    firsts: &mut [u32],
    first: &mut [u64],
    second: &mut [u64],
    third: &mut [u64],
    starts: &mut [u32],
    counts: &mut [u32],
    keys: &mut [u64],
)
    requires { Answerable job.now h order.now
        × RoomFor h firsts.old first.old second.old third.old starts.old counts.old keys.old
        × (h.counts.sources ≤ SOURCES) × (SOURCES ≤ 4096) × (length stands.old ≡ 256) }
    ensures { WorkedFor job.now h order.now plan.now stands.new firsts.new first.new
        second.new third.new starts.new counts.new keys.new }
{
    let c = h.counts;
    let o = h.offsets;
    let at = o.boundaries as usize;
    let n = c.boundaries as usize;
    let m = c.observations as usize;
    let mut spare = [0u64; SOURCES];
    mark_standing(job, at, n, order, plan, stands);
    place_all(
        job,
        at,
        n,
        o.observations as usize,
        m,
        o.sources as usize,
        stands,
        keys,
        &mut spare,
        firsts,
        starts,
        counts,
        first,
        second,
        third,
    );
}
