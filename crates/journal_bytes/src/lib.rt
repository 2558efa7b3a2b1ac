// Numbers of a record, read and written where they lie in the journal.
#![tactic(auto)]

mod bytes;

pub use bytes::{get_f64, get_u16, get_u24, get_u32, get_u64, put_f64, put_u24, put_u32, put_u64};
