// Inputs dealt from a seed, and fingerprints of answers, for the program `test_sample`; compare/sample.rs has the same
// in Rust. Of these functions it is proved that they are safe and end, and what their callers need of a length or a
// bound.
#![tactic(auto)]

mod curves;
mod dealt;
mod hands;
mod prints;

pub use curves::{curve, lent_values};
pub use dealt::{
    colour, colours, deck, fill_bytes, fill_indices, fill_list, fill_locks, form, height, mix,
    pick, width,
};
pub use hands::{Hand, deal};
pub use prints::{Outcome, mix_all, mix_number, told};
