// A whole journal with its handle from one form to the other: document 02's E9.
//
// specs/Convert.antt says what a conversion does, specs/Conversion.antt what is proved of it: there and back restores
// the used bytes and the handle, and both histories find the same pictures.
#![tactic(auto)]

mod call;
mod measure;
mod write;

pub use call::convert;

// How long the records before the standing offset are in the other form, and those after it.
#[derive(Clone, Copy)]
pub struct Sizes {
    pub past: usize,
    pub future: usize,
}
