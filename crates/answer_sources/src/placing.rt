// All that is worked out of a job by place: where each one's sources stand, those of observations sorted and each once in `keys`, and what
// observations are ordered by. Own sources of boundaries that don't stand as observations are not read.
ghost use Rattle.format.specs.Decode.{source_records};
ghost use Rattle.answer_sources.specs.Laying.{sources_in};
ghost use Rattle.answer_sources.specs.Placed.{CopiesPlaced, PlacedInside, JobPlaces, PlaceRoom, boundary_rows, observation_rows};

use crate::keys::read_keys;
use crate::laying::lay_boundaries;
use crate::parts::sort_parts;
use crate::ranking::rank_records;
use format::{BOUNDARY_SIZE, OBSERVATION_SIZE, read_boundary, read_observation};

pub fn place_all(
    job: &[u8],
    at: usize,
    n: usize,
    ats: usize,
    m: usize,
    from: usize,
    stands: &[u32; 256],
    keys: &mut [u64],
    spare: &mut [u64],
    firsts: &mut [u32],
    starts: &mut [u32],
    counts: &mut [u32],
    first: &mut [u64],
    second: &mut [u64],
    third: &mut [u64],
)
    requires { JobPlaces job.now at n ats m from (sources_in job.now at n ats m)
        × PlaceRoom n m (sources_in job.now at n ats m) keys.old spare.old firsts.old starts.old counts.old first.old second.old third.old }
    ensures copies_placed { CopiesPlaced (boundary_rows job.now at) (observation_rows job.now ats)
        (source_records job.now from (sources_in job.now at n ats m)) m n stands.now firsts.new first.new
        second.new third.new starts.new counts.new keys.new }
    ensures inside { PlacedInside (boundary_rows job.now at) (observation_rows job.now ats)
        (source_records job.now from (sources_in job.now at n ats m)) m n (sources_in job.now at n ats m) firsts.new
        starts.new }
{
    lay_boundaries(job, at, n, ats, m, stands, firsts, starts, counts);
    read_keys(job, from, starts, counts, m + n, keys);
    sort_parts(keys, spare, starts, counts, m + n);
    let observation = |p| {
        let o = read_observation(job, ats + p * OBSERVATION_SIZE);
        (o.ends, o.bits)
    };
    rank_records(observation, m, 0, first, second, third);
    let boundary = |p| {
        let x = read_boundary(job, at + p * BOUNDARY_SIZE);
        (x.ends, x.bits)
    };
    rank_records(boundary, n, m, first, second, third);
}
