// The checks that every call makes before its search, and the ends of single spans.
#![tactic(auto)]

mod calls;
mod ends;

pub use calls::{check_boundaries, check_job, check_mark, check_reduce, check_reduce_by_list};
pub use ends::span_ends;
