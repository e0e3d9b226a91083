// choke-list: a job from standard input, and what is printed for it to standard output.
ghost use Rattle.std.specs.Prelude.{◌≤◌, ◌<◌, length};
ghost use Rattle.answer_text.specs.Answer.{Writes};
ghost use Rattle.printing.specs.ChokeList.{most_input, choke_list, PrintsRead};

use crate::print::print_list;
use answer_text::write_text;
use std::io;
use streams::read_full;
use thresholds::write_000;

// What choke-list prints for an input, written at the start of out; gives its length.
fn choke_list(input: &[u8], out: &mut [u8; 196608]) -> usize
    ensures writes { Writes (choke_list input.now) out.old 0 out.new result }
    ensures fits { result ≤ length out.new }
{
    if 65536 < input.len() {
        return write_text(b"too large\n", out, 0);
    }
    let mut thresholds = [0u8; 64];
    write_000(&mut thresholds);
    let mut work = [0u8; 40960];
    let mut answer = [0u8; 65536];
    print_list(input, &thresholds, &mut work, &mut answer, out)
}

// The same for the input that was read into a buffer, however long that input is.
// A buffer and how much of it was read, not a Vec: there is no heap.
fn print_read(buffer: &[u8], n: usize, out: &mut [u8; 196608]) -> usize
    requires { (n ≤ length buffer.now) × (most_input < length buffer.now) }
    ensures prints_read { PrintsRead buffer.now n out.old out.new result }
    ensures fits { result ≤ length out.new }
{
    choke_list(&buffer[..n], out)
}

// A read or a write that fails ends it with that error.
pub fn run(rt: &(impl Input + Print)) -> io::Result<()> {
    let mut buffer = [0u8; 65537];
    let mut out = [0u8; 196608];
    let n = read_full(&mut rt.reader(), &mut buffer)?;
    let m = print_read(&buffer, n, &mut out);
    rt.write_all(&out[..m])
}
