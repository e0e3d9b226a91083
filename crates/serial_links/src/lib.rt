// Links between boundaries (source document 000): their geometry and their measures.
#![tactic(auto)]

pub mod limits; // the eight fixed numbers
pub mod geometry; // points, directions, bounds and distances
pub mod link; // a link, measured by the cells of its region
pub mod parallel; // nearby and parallel spans
