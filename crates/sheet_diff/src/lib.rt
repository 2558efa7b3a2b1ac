// Which pixels show another colour than a baseline: `diff_mask` of document.rs.
#![tactic(auto)]

mod diff;
mod masking;

pub use diff::{fill_shades, shade_of};
pub use masking::diff_mask;
