// Pixels per palette entry: `counts` of document.rs.
#![tactic(auto)]

mod counting;

pub use counting::counts;
