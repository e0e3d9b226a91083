// Lists that definitions are made of: rows, sums, and what holds of each member. There is no code here.
#![tactic(auto)]
