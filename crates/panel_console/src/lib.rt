// The loop of reads and writes of `panel`.
#![tactic(auto)]

mod reads;

use panel_input::Turn;
pub use reads::run;

// After a read: the turn, how many bytes the read brought, how many of text were taken, whether no stream failed, and
// whether there may be more to read.
#[derive(Clone, Copy)]
struct Got {
    turn: Turn,
    n: usize,
    said: usize,
    sound: bool,
    more: bool,
}

// A session: the turn, how many reads were made, how many bytes they brought and how many of text were taken, both as 64
// bits count them, what the last read brought, whether no stream failed, and whether there may be more to read.
#[derive(Clone, Copy)]
pub struct Session {
    pub turn: Turn,
    pub reads: u64,
    pub heard: u64,
    pub said: u64,
    pub last: usize,
    pub sound: bool,
    pub more: bool,
}
