// The program choke-list: what it prints for a job, and its reading and printing (document 01, 'Corridor').
#![tactic(auto)]

mod print;
mod program;

pub use print::print_list;
pub use program::run;
