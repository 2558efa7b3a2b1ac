// A sheet that is lent to be written: document 02, E8 and E11. Its size and storage are judged, and nothing that it
// held. Slices are copied to it whole.
#![tactic(auto)]

mod checks;
mod copying;

pub use checks::lent_no;
pub use copying::copy;
