// The map of cells (source document 004).
#![tactic(auto)]

pub mod cells; // what the byte of a cell says, and where a cell lies
pub mod map; // the cell at a position, or that there is none
pub mod neighbors; // the steps from a cell, by direction
