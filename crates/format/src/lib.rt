// The records of jobs, lists and answers (document 01, 'The three calls'; values of source document 003), their readers and writers.
#![tactic(auto)]

mod header;
mod ramps;
mod records;
mod writing;

// Bytes of the header and of each record.
pub const HEADER_SIZE: usize = 48;

pub const BASE_SIZE: usize = 12;

pub const BOUNDARY_SIZE: usize = 40;

pub const OBSERVATION_SIZE: usize = 28;

pub const SOURCE_SIZE: usize = 8;

pub const SPAN_SIZE: usize = 16;

pub const ANSWER_HEADER_SIZE: usize = 24;

// A boundary's record in an answer.
pub const ANSWER_BOUNDARY_SIZE: usize = 40;

// Bytes of the counts that a header starts with, and of the offsets after them.
pub const COUNTS_SIZE: usize = 24;

// What both halves of a missing anchor are.
pub const NO_ANCHOR: u32 = 4_294_967_295;

// The largest sizes that a call takes: cells on each side of a map, counts, the bits of a width of 16,384.
pub const MAX_SIDE: u32 = 1_024;

pub const MAX_BASES: u32 = 256;

pub const MAX_BOUNDARIES: u32 = 256;

pub const MAX_OBSERVATIONS: u32 = 1_024;

pub const MAX_SOURCES: u32 = 4_096;

pub const MAX_SPANS: usize = 256;

pub const MAX_WIDTH_BITS: u64 = 0x40D0_0000_0000_0000;

// A cell's bits 5 to 7 are zero exactly if it is below.
pub const CELL_LIMIT: u8 = 32;

// Pixels on each side of a cell.
pub const CELL_PIXELS: u32 = 8;

pub use header::{Counts, Header, Offsets, read_counts, read_header, read_offsets};
pub use ramps::{RampEnd, RampSide};
pub use records::{
    BaseRecord, BoundaryRecord, ObservationRecord, RampRecord, Source, read_base, read_boundary,
    read_observation, read_position, read_ramp, read_source, read_span,
};
pub use writing::{write_observation, write_ramp, write_span};
