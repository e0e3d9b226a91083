// Lengths and totals, by their squares.
ghost use Rattle.std.specs.Prelude.{◌≡◌, ◌≤◌, length};
ghost use Rattle.probe.specs.Lengths.{length_words, no_length, length_answer, total_answer, chain_answer};

use crate::own_links::bits_of;
use length::{Length, length_of};
use serial_sums::Parts;

// The bits of a length, and 1 if it is exact, 0 if not; 2 if there is none. No Option, for C takes it.
#[repr(C)]
#[derive(Clone, Copy)]
pub struct ProbeLength {
    pub bits: u64,
    pub exact: u32,
}

// No map has a larger D.
const MOST_SQUARES: u32 = 0x2000_0000;

impl From<Length> for ProbeLength {
    ghost from_gives = { λ x r. r ≡ length_words x };

    fn from(x: Length) -> ProbeLength {
        ProbeLength {
            bits: bits_of(x.value),
            exact: u32::from(x.exact),
        }
    }
}

fn no_length() -> ProbeLength
    ensures { result ≡ no_length }
{
    ProbeLength { bits: 0, exact: 2 }
}

// The length of d.
pub fn probe_length(d: u32) -> ProbeLength
    ensures { result ≡ length_answer d }
{
    if MOST_SQUARES < d {
        return no_length();
    }
    ProbeLength::from(length_of(d))
}

// The lengths of one, two or three numbers, added up in ascending order.
fn total_of(ds: &[u32]) -> ProbeLength
    requires { (1 ≤ length ds.now) × (length ds.now ≤ 3) }
    ensures { result ≡ total_answer ds.now }
{
    let mut parts = Parts::none();
    for d in ds {
        if MOST_SQUARES < *d {
            return no_length();
        }
        parts = parts.with(length_of(*d));
    }
    ProbeLength::from(parts.ascending_sum())
}

// The lengths of the first one, two or three, added up in ascending order.
pub fn probe_chain(count: u32, d: u32, e: u32, f: u32) -> ProbeLength
    ensures { result ≡ chain_answer count d e f }
{
    if count < 1 {
        return no_length();
    }
    if 3 < count {
        return no_length();
    }
    let ds = [d, e, f];
    total_of(&ds[..count as usize])
}
