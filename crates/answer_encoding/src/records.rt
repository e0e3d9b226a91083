// Records written at a place of the answer.
ghost use Rattle.std.specs.Prelude.{◌≡◌, ◌+◌, ◌*◌, ◌≤◌, ◌<◌, length};
ghost use mathlib.Core.List.{flat_map};
ghost use Rattle.wire.specs.Bytes.{splice, u32_bytes};
ghost use Rattle.format.specs.Sizes.{answer_header_size, answer_boundary_size, observation_size, source_size};
ghost use Rattle.format.specs.Records.{source_bytes, boundary_bytes};
ghost use Rattle.format.specs.Encode.{answer_words};
ghost use Rattle.answer_encoding.specs.Pieces.{key_source, kept_record};

use crate::units::halves;
use format::{
    ANSWER_BOUNDARY_SIZE, ANSWER_HEADER_SIZE, BoundaryRecord, OBSERVATION_SIZE, SOURCE_SIZE,
    write_ramp, write_span,
};
use wire::{write_u32, write_u64};

// The sizes as the header's words have them.
const HEADER: u32 = ANSWER_HEADER_SIZE as u32;

const BOUNDARY: u32 = ANSWER_BOUNDARY_SIZE as u32;

const OBSERVATION: u32 = OBSERVATION_SIZE as u32;

const SOURCE: u32 = SOURCE_SIZE as u32;

pub fn write_source(s: &mut [u8], at: usize, key: u64)
    requires { at + source_size ≤ length s.old }
    ensures { s.new ≡ splice s.old at (source_bytes (key_source key)) }
{
    let (from, to) = halves(key);
    write_u32(s, at, from);
    write_u32(s, at + 4, to);
}

// A boundary of the job, as it is kept.
pub fn write_boundary(s: &mut [u8], at: usize, x: BoundaryRecord, own: u32, seen: u32)
    requires { at + answer_boundary_size ≤ length s.old }
    ensures { s.new ≡ splice s.old at (boundary_bytes (kept_record x own seen)) }
{
    let e = x.ends;
    write_span(s, at, e.canonical());
    write_u64(s, at + 16, x.bits);
    write_u32(s, at + 24, own);
    write_u32(s, at + 28, seen);
    write_ramp(s, at + 32, x.ramp);
}

// The six words that an answer of b boundaries, o observations and n sources starts with.
pub fn write_header(s: &mut [u8], b: u32, o: u32, n: u32)
    requires { (answer_header_size ≤ length s.old)
        × (answer_header_size + b * answer_boundary_size + o * observation_size + n * source_size < 0x1_0000_0000) }
    ensures { s.new ≡ splice s.old 0 (flat_map u32_bytes (answer_words b o n)) }
{
    write_u32(s, 0, b);
    write_u32(s, 4, o);
    write_u32(s, 8, n);
    write_u32(s, 12, HEADER + b * BOUNDARY);
    write_u32(s, 16, HEADER + b * BOUNDARY + o * OBSERVATION);
    write_u32(s, 20, HEADER + b * BOUNDARY + o * OBSERVATION + n * SOURCE);
}
