// An answer's bytes, from what was gathered of the kept boundaries.
// Arrays are lent one by one, of fixed length, not Vec: there is no heap.
#![tactic(auto)]

mod reads; // elements of slices
mod units; // what packed numbers were
pub mod records; // one record
pub mod runs; // sources in a row
pub mod own; // a boundary's own sources
pub mod sums; // how many there are
pub mod sections; // boundaries, observations, sources
pub mod whole; // the answer
mod by_place; // what is worked out of a job
mod gathered; // the answer from that
pub mod from_job; // the answer of a job
