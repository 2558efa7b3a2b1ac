// How much journal a product needs: document 02, E11.
#![tactic(auto)]

mod checks;
mod needing;

pub use needing::journal_need;
