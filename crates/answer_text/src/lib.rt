// The text that choke-list prints, written into a lent slice (document 01, 'Corridor').
// Digits by hand, not Display: the text goes into a lent slice, and the theorems are of its bytes.
#![tactic(auto)]

// The slice and the place go one by one, not as a writer: clauses speak of both, before and after.
mod digits;
mod lines;
mod listing;
mod walk;

pub use digits::{write_decimal, write_hex};
pub use lines::write_text;
pub use listing::{write_listing, write_refused};
