// Sorting and lists, as definitions (specs/) and theorems (proofs/): this crate has no function.
#![tactic(auto)]
