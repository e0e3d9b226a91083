// The sections of an answer.
ghost use Rattle.std.specs.Prelude.{◌≡◌, ◌+◌, ◌*◌, ◌≤◌, length, get_or};
ghost use Rattle.wire.specs.Bytes.{splice};
ghost use Rattle.format.specs.Sizes.{observation_size};
ghost use Rattle.answer_sources.specs.Placed.{boundary_rows};
ghost use Rattle.answer_encoding.specs.Pieces.{pieces, kept_piece, place_piece, group_piece};
ghost use Rattle.answer_encoding.specs.Answered.{BoundaryRoom, SourceRoom};

use crate::own::write_own;
use crate::reads::read_or;
use crate::records::write_boundary;
use crate::runs::{run_length, write_runs};
use crate::units::{bits_of, span_of};
use answer_gathering::observations::Observations;
use format::{
    ANSWER_BOUNDARY_SIZE, BOUNDARY_SIZE, OBSERVATION_SIZE, SOURCE_SIZE, read_boundary,
    write_observation,
};

pub fn write_boundaries(
    job: &[u8],
    at: usize,
    count: usize,
    kept: &[u32],
    owns: &[u32],
    seens: &[u32],
    s: &mut [u8],
    to: usize,
)
    requires { BoundaryRoom job.now at count kept.now to s.old }
    ensures { s.new ≡ splice s.old to
        (pieces count (kept_piece (boundary_rows job.now at) kept.now owns.now seens.now)) }
{
    for k in 0..count {
        let b = read_or(kept, k, 0) as usize;
        let x = read_boundary(job, at + b * BOUNDARY_SIZE);
        let own = read_or(owns, k, 0);
        let seen = read_or(seens, k, 0);
        write_boundary(s, to + k * ANSWER_BOUNDARY_SIZE, x, own, seen);
    }
}

// The observation at place p.
pub fn write_place(s: &mut [u8], at: usize, p: usize, o: Observations)
    requires { at + observation_size ≤ length s.old }
    ensures { s.new ≡ splice s.old at
        (place_piece o.entry.first.now o.entry.second.now o.entry.third.now o.entry.starts.now o.entry.counts.now o.entry.keys.now p) }
{
    let e = span_of(read_or(o.first, p, 0), read_or(o.second, p, 0));
    let bits = bits_of(read_or(o.third, p, 0));
    write_observation(s, at, e, bits, run_length(o, p));
}

pub fn write_observations(s: &mut [u8], to: usize, count: usize, seen: &[u32], o: Observations)
    requires { (to + count * observation_size ≤ length s.old) × (count ≤ 1280) }
    ensures { s.new ≡ splice s.old to
        (pieces count (λ q. place_piece o.entry.first.now o.entry.second.now o.entry.third.now o.entry.starts.now o.entry.counts.now
        o.entry.keys.now (get_or seen.now q 0))) }
{
    for q in 0..count {
        let p = read_or(seen, q, 0) as usize;
        write_place(s, to + q * OBSERVATION_SIZE, p, o);
    }
}

// For each boundary its own sources, then those of its observations.
pub fn write_sources(
    s: &mut [u8],
    at: usize,
    count: usize,
    job: &[u8],
    from: usize,
    owns: &[u32],
    seens: &[u32],
    owned: &[u16],
    seen: &[u32],
    o: Observations,
)
    requires { SourceRoom job.now from count owns.now seens.now owned.now seen.now o.starts.now o.counts.now o.keys.now at s.old }
    ensures { s.new ≡ splice s.old at
        (pieces count (group_piece job.now from owns.now seens.now owned.now seen.now
        o.entry.starts.now o.entry.counts.now o.entry.keys.now)) }
{
    let mut to = at;
    let mut a: usize = 0;
    let mut q: usize = 0;
    for k in 0..count {
        let own = read_or(owns, k, 0) as usize;
        let n = read_or(seens, k, 0) as usize;
        write_own(s, to, job, from, owned, a, own);
        to = write_runs(s, to + own * SOURCE_SIZE, seen, q, n, o);
        a += own;
        q += n;
    }
}
