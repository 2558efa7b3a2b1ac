// What a frame of `panel` asks of a history, done: in either form and with scratch of any length.
#![tactic(auto)]

mod acting;
mod asking;
mod laying;

pub use acting::act;
pub use laying::lay_changes;
