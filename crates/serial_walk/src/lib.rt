// The walk in depth over a list of records (Tarjan), which marks the boundaries that are bridges.
// Arrays are lent one by one, of fixed length, not Vec: there is no heap, and full_graph and walk_all speak of each.
#![tactic(auto)]

mod chaining; // the records that touch each region, in chains
mod frame; // a frame of the walk, and what it reads
mod stack; // the walk's frames, in arrays
mod walk; // the walk, from every record

pub use chaining::full_graph;
pub use walk::walk_all;
