// Canonical copies, consolidation, the boundaries that are kept and lists of merges, as definitions (specs/) and theorems (proofs/): this crate has
// no function.
#![tactic(auto)]
