// The checks of a job or list, one at a time.
#![tactic(auto)]

mod bases;
mod boundaries;
mod cells;
mod header;
pub mod refusals;
mod refused;
mod spans;
mod sums;

pub use bases::check_bases;
pub use boundaries::{check_ends, check_ramps, check_widths, ramp_fault, width_fault};
pub use cells::check_cells;
pub use header::{check_header, offsets_of};
pub use refused::Refused;
pub use spans::{check_list, ends_fault};
pub use sums::{observation_total, own_total, source_count, sums_fault};
