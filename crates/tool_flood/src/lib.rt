// The places that a flood reaches: `flood_fill` of tools.rs without its checks. Each place is queued once, and has
// its four neighbours looked at once; then one scan of the rows writes the changes, so that nothing is sorted.
//
// Marks and queue share the scratch: cell p has the mark of place p in its lowest bit and the p-th place of the
// queue above it. The scan writes over cells that were read.
#![tactic(auto)]

mod flood;
mod reach;
mod scan;

pub use flood::flood_in;
