// A table of u32 words for labels, from base on in lent work: the word of label x is the one at x - 1, and 0 where the label has none.
// 0, not an Option, and `work` and `base` apart: the words stand in bytes that are lent and zeros before and after.
#![tactic(auto)]

ghost use Rattle.std.specs.Prelude.{◌≡◌, ◌+◌, ◌*◌, ◌-◌, ◌≤◌, ◌<◌, length};
ghost use Rattle.wire.specs.Bytes.{splice, u32_at, u32_bytes};

use wire::{read_u32, write_u32};

// The word of a label.
pub fn word_of(work: &[u8], base: usize, label: u32) -> u32
    requires { (0 < label) × (base + 4 * label ≤ length work.now) }
    ensures { result ≡ u32_at work.now (base + 4 * (label - 1)) }
{
    read_u32(work, base + (label - 1) as usize * 4)
}

// Writes the word of a label.
pub fn put_word(work: &mut [u8], base: usize, label: u32, v: u32)
    requires { (0 < label) × (base + 4 * label ≤ length work.old) }
    ensures { work.new ≡ splice work.old (base + 4 * (label - 1)) (u32_bytes v) }
{
    write_u32(work, base + (label - 1) as usize * 4, v);
}
