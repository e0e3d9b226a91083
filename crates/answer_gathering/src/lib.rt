// What goes into each rank that a plan keeps: own sources, and the places of observations.
// Arrays are lent one by one, of fixed length, not Vec or maps: there is no heap.
#![tactic(auto)]

mod casts;
pub mod observations; // what they are sorted by
mod runs; // numbers written one after another
mod own; // own sources
mod seen; // places of observations
pub mod kept; // all of these
