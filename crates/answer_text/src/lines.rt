// The parts of a line, and lines, each written at a place; each gives the place after it.
ghost use Rattle.std.specs.Prelude.{◌+◌, ◌<◌, [], ◌∷◌};
ghost use Rattle.format.specs.Decode.{ramp_of};
ghost use Rattle.answer_text.specs.Lines.{field_text, bits_text, four_fields, ends_text, ramp_text, pair_line, source_line, head_text};
ghost use Rattle.answer_text.specs.Lines.{observation_fields, boundary_fields};
ghost use Rattle.answer_text.specs.Answer.{TextRoom, Writes};

use crate::digits::{write_decimal, write_hex};
use format::{BoundaryRecord, ObservationRecord, RampRecord, Source};
use position::Span;

pub fn write_byte(b: u8, out: &mut [u8], at: usize) -> usize
    requires { TextRoom (b ∷ []) out.old at }
    ensures { Writes (b ∷ []) out.old at out.new result }
{
    out[at] = b;
    at + 1
}

pub fn write_text(text: &[u8], out: &mut [u8], at: usize) -> usize
    requires { TextRoom text.now out.old at }
    ensures { Writes text.now out.old at out.new result }
{
    let n = text.len();
    out[at..at + n].copy_from_slice(text);
    at + n
}

// A number after a space.
pub fn write_field(v: u64, out: &mut [u8], at: usize) -> usize
    requires { TextRoom (field_text v) out.old at }
    ensures { Writes (field_text v) out.old at out.new result }
{
    let end = write_byte(b' ', out, at);
    write_decimal(v, out, end)
}

// A bit pattern after a space. Not one with `write_field` over a closure: its clauses would say again what the two writers promise.
fn write_bits(v: u64, out: &mut [u8], at: usize) -> usize
    requires { TextRoom (bits_text v) out.old at }
    ensures { Writes (bits_text v) out.old at out.new result }
{
    let end = write_byte(b' ', out, at);
    write_hex(v, out, end)
}

// Four numbers.
fn write_four(a: u32, b: u32, c: u32, d: u32, out: &mut [u8], at: usize) -> usize
    requires { TextRoom (four_fields a b c d) out.old at }
    ensures { Writes (four_fields a b c d) out.old at out.new result }
{
    let end1 = write_field(a as u64, out, at);
    let end2 = write_field(b as u64, out, end1);
    let end3 = write_field(c as u64, out, end2);
    write_field(d as u64, out, end3)
}

fn write_ends(e: Span, out: &mut [u8], at: usize) -> usize
    requires { TextRoom (ends_text e) out.old at }
    ensures { Writes (ends_text e) out.old at out.new result }
{
    let a = e.a;
    let b = e.b;
    write_four(a.x, a.y, b.x, b.y, out, at)
}

fn write_ramp(r: RampRecord, out: &mut [u8], at: usize) -> usize
    requires { TextRoom (ramp_text (ramp_of r)) out.old at }
    ensures { Writes (ramp_text (ramp_of r)) out.old at out.new result }
{
    write_four(r.end as u32, r.lower as u32, r.upper as u32, r.id, out, at)
}

// A line of two numbers after a name.
pub fn write_pair(name: &[u8], a: u64, b: u64, out: &mut [u8], at: usize) -> usize
    requires { TextRoom (pair_line name.now a b) out.old at }
    ensures { Writes (pair_line name.now a b) out.old at out.new result }
{
    let end1 = write_text(name, out, at);
    let end2 = write_field(a, out, end1);
    let end3 = write_field(b, out, end2);
    write_byte(b'\n', out, end3)
}

pub fn write_source(s: Source, out: &mut [u8], at: usize) -> usize
    requires { TextRoom (source_line s) out.old at }
    ensures { Writes (source_line s) out.old at out.new result }
{
    write_pair(b"s", s.from as u64, s.to as u64, out, at)
}

// What an o line and a b line begin with, with the number of sources that there are.
fn write_head(letter: u8, e: Span, bits: u64, n: usize, out: &mut [u8], at: usize) -> usize
    requires { TextRoom (head_text letter e bits n) out.old at }
    ensures { Writes (head_text letter e bits n) out.old at out.new result }
{
    let end1 = write_byte(letter, out, at);
    let end2 = write_ends(e, out, end1);
    let end3 = write_bits(bits, out, end2);
    write_field(n as u64, out, end3)
}

// An o line, with the number of sources that there are.
pub fn write_observation_line(o: ObservationRecord, n: usize, out: &mut [u8], at: usize) -> usize
    requires { TextRoom (observation_fields o.ends o.bits n) out.old at }
    ensures { Writes (observation_fields o.ends o.bits n) out.old at out.new result }
{
    let ends = o.ends;
    let end = write_head(b'o', ends, o.bits, n, out, at);
    write_byte(b'\n', out, end)
}

// A b line, with the numbers of own sources and of observations that there are.
pub fn write_boundary_line(
    b: BoundaryRecord,
    n: usize,
    m: usize,
    out: &mut [u8],
    at: usize,
) -> usize
    requires { TextRoom (boundary_fields b.ends b.bits n m (ramp_of b.ramp)) out.old at }
    ensures { Writes (boundary_fields b.ends b.bits n m (ramp_of b.ramp)) out.old at out.new result }
{
    let ends = b.ends;
    let ramp = b.ramp;
    let end1 = write_head(b'b', ends, b.bits, n, out, at);
    let end2 = write_field(m as u64, out, end1);
    let end3 = write_ramp(ramp, out, end2);
    write_byte(b'\n', out, end3)
}
