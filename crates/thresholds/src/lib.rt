// A studio's own thresholds: the 64-byte block, what is refused of it, and the limits that it has.
#![tactic(auto)]

mod block;
mod faults;
mod limits;

pub use block::{Block, read_block, write_block};
pub use faults::check_thresholds;
pub use limits::{read_limits, write_000};

// Bytes of a block.
pub const BLOCK_SIZE: usize = 64;

// How many numbers a block says that it has, and where it says that they begin.
pub const NUMBER_COUNT: u32 = 8;

pub const NUMBER_OFFSET: u32 = 8;

// The least and the greatest number of boundaries that a group may be allowed.
pub const LEAST_GROUP: u32 = 2;

pub const MOST_GROUP: u32 = 16;

// The bits of 1, the greatest cosine.
pub const MAX_COSINE_BITS: u64 = 0x3FF0_0000_0000_0000;
