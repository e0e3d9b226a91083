// The open steps of a map, in a byte a cell.
// Map and span go one by one into the public functions, which make a Terrain or a Cut of them once.
#![tactic(auto)]

pub mod opening; // the steps of the map, none of them cut
pub mod closing; // the steps that a span cuts, taken away
pub mod spans; // the steps that no span of a list cuts
