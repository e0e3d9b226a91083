// What choke-list prints: an answer's text, or a refusal.
ghost use Rattle.std.specs.Prelude.{◌+◌, ◌*◌, ◌≤◌, ◌<◌, length};
ghost use Rattle.answer_text.specs.Lines.{kept_line, refused_line};
ghost use Rattle.answer_text.specs.Answer.{TextRoom, Writes, answer_text};

use crate::lines::{write_byte, write_field, write_pair, write_text};
use crate::walk::{Cursor, write_boundaries};
use format::{ANSWER_BOUNDARY_SIZE, ANSWER_HEADER_SIZE, OBSERVATION_SIZE, SOURCE_SIZE};
use wire::read_u32;

fn write_kept(n: u32, out: &mut [u8], at: usize) -> usize
    requires { TextRoom (kept_line n) out.old at }
    ensures { Writes (kept_line n) out.old at out.new result }
{
    let end1 = write_text(b"kept", out, at);
    let end2 = write_field(n as u64, out, end1);
    write_byte(b'\n', out, end2)
}

// The text of an answer, written at the start of out; gives its length. Nothing is written, and 0 given, where the answer is not whole or out is
// shorter than three times the answer.
// 0, not an Option: `answer_text` of such bytes is empty, and this is its length.
pub fn write_listing(answer: &[u8], out: &mut [u8]) -> usize
    ensures writes { Writes (answer_text answer.now (length out.old)) out.old 0 out.new result }
    ensures fits { result ≤ length out.new }
{
    let n = answer.len();
    if n < ANSWER_HEADER_SIZE {
        return 0;
    }
    let kept = read_u32(answer, 0);
    let b = kept as usize;
    let o = read_u32(answer, 4) as usize;
    let s = read_u32(answer, 8) as usize;
    let observation = ANSWER_HEADER_SIZE + b * ANSWER_BOUNDARY_SIZE;
    let source = observation + o * OBSERVATION_SIZE;
    let total = source + s * SOURCE_SIZE;
    if n < total {
        return 0;
    }
    if out.len() < total * 3 {
        return 0;
    }
    let at = write_kept(kept, out, 0);
    let c = Cursor {
        at,
        observation,
        observations: o,
        source,
        sources: s,
    };
    write_boundaries(answer, ANSWER_HEADER_SIZE, b, c, out)
}

// A refusal's line, written at the start of out; gives its length.
pub fn write_refused(number: u32, detail: u64, out: &mut [u8]) -> usize
    requires { 40 ≤ length out.old }
    ensures writes { Writes (refused_line number detail) out.old 0 out.new result }
    ensures fits { result ≤ 40 }
{
    write_pair(b"refused", number as u64, detail, out, 0)
}
