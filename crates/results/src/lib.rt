// What the calls leave and the twelve cases, as definitions (specs/) and theorems (proofs/): this crate has no function.
#![tactic(auto)]
