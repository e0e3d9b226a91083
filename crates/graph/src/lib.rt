// Paths, parts, labels and bridges, as definitions (specs/) and theorems (proofs/): this crate has no function.
#![tactic(auto)]
