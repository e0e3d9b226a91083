// The records of fixed length, each as its bytes have it.
ghost use Rattle.std.specs.Prelude.{◌≡◌, ◌+◌, ◌≤◌, length};
ghost use Rattle.format.specs.Sizes.{span_size, source_size, base_size, boundary_size, observation_size};
ghost use Rattle.format.specs.Records.{position_at, span_at, source_at, base_at, ramp_at, boundary_at, observation_at};

use position::{PixelPosition, Span, WalkPosition};
use wire::{read_u32, read_u64};

// A pair of base ids, directed.
#[derive(Clone, Copy)]
pub struct Source {
    pub from: u32,
    pub to: u32,
}

// BASE_SIZE bytes. An anchor of twice 4,294,967,295 means that there is none.
// Numbers, not an Option or an enum, here and in RampRecord: a record is what its bytes are, bad ones too.
#[derive(Clone, Copy)]
pub struct BaseRecord {
    pub id: u32,
    pub anchor: WalkPosition,
}

// 8 bytes. `end` is 0 for no ramp, 1 for its lower end, 2 for its upper.
#[derive(Clone, Copy)]
pub struct RampRecord {
    pub end: u8,
    pub lower: u8,
    pub upper: u8,
    pub zero: u8,
    pub id: u32,
}

// BOUNDARY_SIZE bytes, with the counts of its own sources and of its observations.
#[derive(Clone, Copy)]
pub struct BoundaryRecord {
    pub ends: Span,
    pub bits: u64,
    pub sources: u32,
    pub observations: u32,
    pub ramp: RampRecord,
}

// OBSERVATION_SIZE bytes, with the count of its sources.
#[derive(Clone, Copy)]
pub struct ObservationRecord {
    pub ends: Span,
    pub bits: u64,
    pub sources: u32,
}

// Like readers stay apart: each gives the fields of its own record by name.
pub fn read_position(s: &[u8], at: usize) -> PixelPosition
    requires { at + 8 ≤ length s.now }
    ensures { result ≡ position_at s.now at }
{
    PixelPosition {
        x: read_u32(s, at),
        y: read_u32(s, at + 4),
    }
}

pub fn read_span(s: &[u8], at: usize) -> Span
    requires { at + span_size ≤ length s.now }
    ensures { result ≡ span_at s.now at }
{
    Span {
        a: read_position(s, at),
        b: read_position(s, at + 8),
    }
}

pub fn read_source(s: &[u8], at: usize) -> Source
    requires { at + source_size ≤ length s.now }
    ensures { result ≡ source_at s.now at }
{
    Source {
        from: read_u32(s, at),
        to: read_u32(s, at + 4),
    }
}

pub fn read_base(s: &[u8], at: usize) -> BaseRecord
    requires { at + base_size ≤ length s.now }
    ensures { result ≡ base_at s.now at }
{
    BaseRecord {
        id: read_u32(s, at),
        anchor: WalkPosition {
            x: read_u32(s, at + 4),
            y: read_u32(s, at + 8),
        },
    }
}

pub fn read_ramp(s: &[u8], at: usize) -> RampRecord
    requires { at + 8 ≤ length s.now }
    ensures { result ≡ ramp_at s.now at }
{
    RampRecord {
        end: s[at],
        lower: s[at + 1],
        upper: s[at + 2],
        zero: s[at + 3],
        id: read_u32(s, at + 4),
    }
}

pub fn read_boundary(s: &[u8], at: usize) -> BoundaryRecord
    requires { at + boundary_size ≤ length s.now }
    ensures { result ≡ boundary_at s.now at }
{
    BoundaryRecord {
        ends: read_span(s, at),
        bits: read_u64(s, at + 16),
        sources: read_u32(s, at + 24),
        observations: read_u32(s, at + 28),
        ramp: read_ramp(s, at + 32),
    }
}

pub fn read_observation(s: &[u8], at: usize) -> ObservationRecord
    requires { at + observation_size ≤ length s.now }
    ensures { result ≡ observation_at s.now at }
{
    ObservationRecord {
        ends: read_span(s, at),
        bits: read_u64(s, at + 16),
        sources: read_u32(s, at + 24),
    }
}
