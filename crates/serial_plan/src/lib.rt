// Which groups of linked boundaries the rules accept, and which rank each rank goes into: 000's `collapse_serial_boundaries` up to the merges.
// Arrays by rank and by link are lent or on the stack, of fixed length, not Vec: there is no heap.
#![tactic(auto)]

pub mod few; // the first sixteen numbers of a list
pub mod tables; // the arrays by rank and by link
pub mod parts; // the connected parts of the chosen links
pub mod gather; // the ranks and the links of a part
pub mod path; // simple paths
pub mod chain; // sums of centre distances
pub mod alike; // members that are nearby and parallel
pub mod retain; // the retained member
pub mod accept; // the rules on a group
pub mod select; // which links may make groups
pub mod judge; // what becomes of the group that a part makes
pub mod into; // which rank each rank goes into
pub mod merge; // the merge plan of all ranks
pub mod planning; // the merge plan from what the partition and the bridges leave
