// Two sheets on one palette: document 02, E8.
//
// Every check is made before a lent byte is written, the length of the joined palette too: which entries of the second
// bring a colour is found in both palettes as they are (`join_checks`).
#![tactic(auto)]

mod joining;

pub use joining::join;
