// Cuts and areas (source document 002).
#![tactic(auto)]

pub mod geometry; // sides of a line, segments that meet, and the steps that a span cuts
pub mod candidates; // the strip of cells in which those steps are looked for
pub mod spans; // spans in an array of numbers
