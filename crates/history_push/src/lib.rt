// push: an edit checked, recorded and done.
#![tactic(auto)]

mod pushing;

pub use pushing::{finish, push};
