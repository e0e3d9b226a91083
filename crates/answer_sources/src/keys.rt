// Sources as numbers, each first id times 2^32 and its second id.
ghost use Rattle.std.specs.Prelude.{◌≡◌, ◌+◌, ◌*◌, ◌≤◌, length};
ghost use Rattle.wire.specs.Bytes.{splice};
ghost use Rattle.format.specs.Sizes.{source_size};
ghost use Rattle.format.specs.Decode.{source_records};
ghost use Rattle.answer_sources.specs.Packed.{packed};
ghost use Rattle.answer_sources.specs.Squeezed.{KeysRoom, KeysRead};

use crate::casts::packed;
use format::{SOURCE_SIZE, read_source};

// The n sources from place a on, at their places.
fn read_part(job: &[u8], from: usize, a: usize, n: usize, keys: &mut [u64])
    requires { (from + (a + n) * source_size ≤ length job.now) × (a + n ≤ length keys.old) }
    ensures { keys.new ≡ splice keys.old a (packed (source_records job.now (from + a * source_size) n)) }
{
    for i in 0..n {
        let s = read_source(job, from + (a + i) * SOURCE_SIZE);
        keys[a + i] = packed(s.from, s.to);
    }
}

// The sources of the parts of n places, each at its place among all sources.
pub fn read_keys(
    job: &[u8],
    from: usize,
    starts: &[u32],
    counts: &[u32],
    n: usize,
    keys: &mut [u64],
)
    requires { KeysRoom job.now from n keys.old starts.now counts.now }
    ensures { KeysRead job.now from n starts.now counts.now keys.old keys.new }
{
    for q in 0..n {
        read_part(job, from, starts[q] as usize, counts[q] as usize, keys);
    }
}
