// What an answer is worked out from, a job's canonical copies by place.
// Arrays by place are lent one by one, of fixed length, not Vec or maps: there is no heap, and they are written.
#![tactic(auto)]

mod casts;
pub mod standing; // boundaries that stand as observations
pub mod keys; // sources as numbers
pub mod laying; // where each one's sources stand
pub mod parts; // each one's sources in order
pub mod ranking; // ends and widths
pub mod placing; // all of these
