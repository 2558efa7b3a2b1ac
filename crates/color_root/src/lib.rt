// The cube root of document 01's "Colour", exact. It asks its caller for the range.
#![tactic(auto)]

mod cube_root;

pub use cube_root::root;
