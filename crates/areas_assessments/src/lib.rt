// What each span does to the areas: the steps that it removes, and the pairs of regions that it parts.
#![tactic(auto)]

pub mod pairs; // pairs in order, each once, in two arrays
pub mod steps; // the steps that a span cuts from one cell
pub mod strip; // the steps that a span cuts over its strip
pub mod spans; // all spans, and their pairs as records
