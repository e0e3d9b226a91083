// The core of the calls: partition, records, marks and the merge plan of a job.
// Arrays are on the stack and lent one by one, not Vec: there is no heap.
#![tactic(auto)]

// `Leads` stands in clauses, not in a type: plan_reduce, find_areas and find_marks, which docs/ name, take the number.
mod bridged; // partition, records and bridges
mod drawing; // the plan of a job past its checks
mod marked; // partition, records and marks
mod parting; // areas and their number
mod plans; // with the checks
mod result; // what a call gives back

pub use drawing::own_ends;
pub use marked::find_marks;
pub use parting::find_areas;
pub use plans::{merges_by_list, merges_by_own_ends, plan_reduce, plan_reduce_by_list};
pub use result::{ChokesResult, WORK_PER_CELL, check_pairs, check_room, first_answer};
