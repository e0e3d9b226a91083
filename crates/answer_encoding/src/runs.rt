// Sources in a row, from their numbers.
ghost use Rattle.std.specs.Prelude.{◌≡◌, ◌+◌, ◌*◌, ◌≤◌, length};
ghost use Rattle.wire.specs.Bytes.{splice};
ghost use Rattle.format.specs.Sizes.{source_size};
ghost use Rattle.answer_encoding.specs.Pieces.{run_from, run_length, runs_from};
ghost use Rattle.answer_encoding.specs.Answered.{RunsWritten};

use crate::reads::read_or;
use crate::records::write_source;
use answer_gathering::observations::Observations;
use format::SOURCE_SIZE;

// How many sources the observation at place p has: as many of its numbers as there are.
pub fn run_length(o: Observations, p: usize) -> u32
    ensures { result ≡ run_length o.entry.starts.now o.entry.counts.now o.entry.keys.now p }
{
    let a = read_or(o.starts, p, 0) as usize;
    let n = read_or(o.counts, p, 0) as usize;
    n.min(o.keys.len().saturating_sub(a)) as u32
}

// The sources of `count` numbers from `from` on.
pub fn write_run(s: &mut [u8], at: usize, keys: &[u64], from: usize, count: usize)
    requires { (at + count * source_size ≤ length s.old) × (from ≤ 0x1_0000_0000) × (count ≤ 0x1_0000_0000) }
    ensures { s.new ≡ splice s.old at (run_from keys.now from count) }
{
    for i in 0..count {
        write_source(s, at + i * SOURCE_SIZE, read_or(keys, from + i, 0));
    }
}

// The sources of the n observations whose places stand from `from` on: where they end.
pub fn write_runs(
    s: &mut [u8],
    at: usize,
    seen: &[u32],
    from: usize,
    n: usize,
    o: Observations,
) -> usize
    requires { (at + length (runs_from seen.now o.starts.now o.counts.now o.keys.now from n) ≤ length s.old) × (from ≤ 1280) × (n ≤ 1280) }
    ensures { RunsWritten s.old at (runs_from seen.now o.entry.starts.now o.entry.counts.now o.entry.keys.now from n)
        s.new result }
{
    let mut to = at;
    for i in 0..n {
        let p = read_or(seen, from + i, 0) as usize;
        let count = run_length(o, p) as usize;
        write_run(s, to, o.keys, read_or(o.starts, p, 0) as usize, count);
        to += count * SOURCE_SIZE;
    }
    to
}
