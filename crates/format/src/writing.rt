// Records written at a place, each as its bytes are.
ghost use Rattle.std.specs.Prelude.{◌≡◌, ◌+◌, ◌≤◌, length};
ghost use Rattle.wire.specs.Bytes.{splice};
ghost use Rattle.format.specs.Sizes.{span_size, observation_size};
ghost use Rattle.format.specs.Records.{span_bytes, ramp_bytes, observation_bytes, observation_words};
ghost use Rattle.format.specs.Decode.{ramp_of};
ghost use Rattle.format.specs.Encode.{ramp_record};

use crate::records::RampRecord;
use position::Span;
use wire::{write_u32, write_u64};

// A ramp with its zero byte.
pub fn write_ramp(s: &mut [u8], at: usize, r: RampRecord)
    requires { at + 8 ≤ length s.old }
    ensures { s.new ≡ splice s.old at (ramp_bytes (ramp_record (ramp_of r))) }
{
    s[at] = r.end;
    s[at + 1] = r.lower;
    s[at + 2] = r.upper;
    s[at + 3] = 0;
    write_u32(s, at + 4, r.id);
}

pub fn write_span(s: &mut [u8], at: usize, ends: Span)
    requires { at + span_size ≤ length s.old }
    ensures { s.new ≡ splice s.old at (span_bytes ends) }
{
    let a = ends.a;
    let b = ends.b;
    write_u32(s, at, a.x);
    write_u32(s, at + 4, a.y);
    write_u32(s, at + 8, b.x);
    write_u32(s, at + 12, b.y);
}

pub fn write_observation(s: &mut [u8], at: usize, ends: Span, bits: u64, sources: u32)
    requires { at + observation_size ≤ length s.old }
    ensures { s.new ≡ splice s.old at (observation_bytes (observation_words ends bits sources)) }
{
    write_span(s, at, ends);
    write_u64(s, at + 16, bits);
    write_u32(s, at + 24, sources);
}
