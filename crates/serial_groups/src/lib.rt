// Links, groups and representatives, as definitions (specs/) and theorems (proofs/): this crate has no function.
#![tactic(auto)]
