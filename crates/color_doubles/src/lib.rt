// Doubles: number 3's test, which is all the code there is. In specs/ the source's arithmetic, and what
// "the double nearest to .." is.
#![tactic(auto)]

mod finite;

pub use finite::{any_unfit, is_unfit, unfit_triple};
