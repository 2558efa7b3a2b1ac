// The places repainted whose shown colour changed on one layer.
//
// Two tables say what each index showed and shows. Where they are the same, as after an edit of pixels, places with the
// same index are passed by, 64 at a time, by a comparison that is compiled to vector code.
#![tactic(auto)]

mod places;

pub use places::repaint_changed;
