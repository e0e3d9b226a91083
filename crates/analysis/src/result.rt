// What a call gives back.
ghost use Rattle.std.specs.Prelude.{◌≡◌, ◌*◌, ◌≤◌, length};
ghost use Rattle.std.proofs.Math.Option.{none};
ghost use Rattle.format.specs.Decode.{decode};
ghost use Rattle.checks.specs.Checks.{first_refusal};
ghost use Rattle.checks.specs.Verdict.{meaning, number_of, detail_of, count_or_detail};
ghost use Rattle.checks_calls.specs.Refusals.{job_checks};
ghost use Rattle.results.specs.Returns.{FirstAnswer, PairAnswer};

use crate::bridged::MAX_PAIRS;
use checks::Refused;
use format::read_header;

// "Work is a lent byte slice: ten bytes per cell."
pub const WORK_PER_CELL: usize = 10;

// Number 0 is success; a refusal has document 01's number, and each has one detail. Numbers, not Result: the C interface gives it back.
#[repr(C)]
#[derive(Clone, Copy)]
pub struct ChokesResult {
    pub number: u32,
    pub detail: u64,
}

impl From<Result<(), Refused>> for ChokesResult {
    ghost from_gives = { λ v r. (r.number ≡ number_of (meaning v)) × (r.detail ≡ detail_of (meaning v)) };

    // The number and the detail of what is refused, or number 0.
    fn from(v: Result<(), Refused>) -> ChokesResult {
        match v {
            Ok(()) => ChokesResult {
                number: 0,
                detail: 0,
            },
            Err(e) => ChokesResult {
                number: e.number(),
                detail: e.detail(),
            },
        }
    }
}

impl From<Result<usize, Refused>> for ChokesResult {
    ghost from_gives = { λ v r. (r.number ≡ number_of (meaning v)) × (r.detail ≡ count_or_detail v) };

    // The same of a call that counts: number 0 has the count for its detail.
    fn from(v: Result<usize, Refused>) -> ChokesResult {
        match v {
            Ok(n) => ChokesResult {
                number: 0,
                detail: n as u64,
            },
            Err(e) => ChokesResult {
                number: e.number(),
                detail: e.detail(),
            },
        }
    }
}

// 13 of so many region pairs.
pub fn check_pairs(pairs: usize) -> Result<(), Refused>
    ensures { PairAnswer pairs (number_of (meaning result)) (detail_of (meaning result)) }
{
    if MAX_PAIRS < pairs {
        return Err(Refused::TooManyPairs);
    }
    Ok(())
}

// The refusal that the checks of a call gave; or 21 where a lent slice of `room` bytes has under `each` of them a cell.
pub fn check_room(
    v: Result<(), Refused>,
    job: &[u8],
    each: usize,
    room: usize,
) -> Result<(), Refused>
    requires { (meaning v ≡ none → first_refusal (job_checks job.now) ≡ none) × (each ≤ 16) }
    ensures { FirstAnswer (meaning v) (each * length (decode job.now).cells) room (number_of (meaning result)) (detail_of (meaning result)) }
{
    v?;
    let c = read_header(job).counts;
    if room < each * (c.width * c.height) as usize {
        return Err(Refused::WorkTooShort);
    }
    Ok(())
}

impl ChokesResult {
    // What `check_pairs` says, as a call gives it back: 13, or number 0.
    pub fn of_pairs(pairs: usize) -> ChokesResult
        ensures { PairAnswer pairs result.number result.detail }
    {
        ChokesResult::from(check_pairs(pairs))
    }
}

// What `check_room` says, as a call gives it back.
pub fn first_answer(v: Result<(), Refused>, job: &[u8], each: usize, room: usize) -> ChokesResult
    requires { (meaning v ≡ none → first_refusal (job_checks job.now) ≡ none) × (each ≤ 16) }
    ensures { FirstAnswer (meaning v) (each * length (decode job.now).cells) room result.number result.detail }
{
    ChokesResult::from(check_room(v, job, each, room))
}
