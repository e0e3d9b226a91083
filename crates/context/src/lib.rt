// Statistics of regions, full pairs and anchors (source document 001).
#![tactic(auto)]

pub mod pairs; // full pairs, and a pair's other region
pub mod stats; // statistics of regions
pub mod anchored; // regions that hold an anchor
