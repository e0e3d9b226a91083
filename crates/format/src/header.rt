// The twelve words that a job starts with.
ghost use Rattle.std.specs.Prelude.{◌≡◌, ◌+◌, ◌≤◌, length};
ghost use Rattle.format.specs.Sizes.{header_size, counts_size};
ghost use Rattle.format.specs.Header.{counts_at, offsets_at, header_at};

use crate::COUNTS_SIZE;
use wire::read_u32;

#[derive(Clone, Copy)]
pub struct Counts {
    pub width: u32,
    pub height: u32,
    pub bases: u32,
    pub boundaries: u32,
    pub observations: u32,
    pub sources: u32,
}

// Where each section starts, and the job's length.
#[derive(Clone, Copy, PartialEq, Eq)]
pub struct Offsets {
    pub cells: u32,
    pub bases: u32,
    pub boundaries: u32,
    pub observations: u32,
    pub sources: u32,
    pub total: u32,
}

#[derive(Clone, Copy)]
pub struct Header {
    pub counts: Counts,
    pub offsets: Offsets,
}

// Two readers, not one: each gives six fields of its own by name.
pub fn read_counts(s: &[u8], at: usize) -> Counts
    requires { at + counts_size ≤ length s.now }
    ensures { result ≡ counts_at s.now at }
{
    Counts {
        width: read_u32(s, at),
        height: read_u32(s, at + 4),
        bases: read_u32(s, at + 8),
        boundaries: read_u32(s, at + 12),
        observations: read_u32(s, at + 16),
        sources: read_u32(s, at + 20),
    }
}

pub fn read_offsets(s: &[u8], at: usize) -> Offsets
    requires { at + counts_size ≤ length s.now }
    ensures { result ≡ offsets_at s.now at }
{
    Offsets {
        cells: read_u32(s, at),
        bases: read_u32(s, at + 4),
        boundaries: read_u32(s, at + 8),
        observations: read_u32(s, at + 12),
        sources: read_u32(s, at + 16),
        total: read_u32(s, at + 20),
    }
}

pub fn read_header(s: &[u8]) -> Header
    requires { header_size ≤ length s.now }
    ensures { result ≡ header_at s.now }
{
    Header {
        counts: read_counts(s, 0),
        offsets: read_offsets(s, COUNTS_SIZE),
    }
}
