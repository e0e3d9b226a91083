// The four calls, which chokes_c exports to C.
// Slices one by one: the C interface.
#![tactic(auto)]

mod cards;
mod mark;
mod reduce;

pub use cards::chokes_area_cards;
pub use mark::chokes_mark;
pub use reduce::{chokes_reduce, chokes_reduce_by_list};
