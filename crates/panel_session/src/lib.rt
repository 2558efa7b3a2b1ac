// A session of `panel`: a line answered, which opens a sheet or asks for a call on the open one.
#![tactic(auto)]

mod line;

pub use line::step;
