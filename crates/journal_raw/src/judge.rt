// A record read and judged where it lies: its kind, count, marks and lengths, and the places of its changes.
ghost use Rattle.std.specs.Prelude.{◌≡◌, ◌≤◌, length, drop};
ghost use Rattle.journal_raw.specs.Raw.{other, raw_in};
ghost use Rattle.journal_raw.specs.At.{measured_raw};

use crate::Written;
use crate::kinds::{head_length, other, record_size};
use base::Form;
use journal_find::find_forth;
use journal_read::any_outside_in;
use journal_record::Found;

// The record that starts at `at`: its length, and its length in the other form. `None` where none starts there, or a
// change of it is off the sheet.
pub fn measure_record(w: usize, h: usize, form: Form, bytes: &[u8], at: usize) -> Option<Written>
    requires w_bound { (w ≤ 1024) × (h ≤ 1024) }
    requires at_in_bounds { (at ≤ length bytes.now) × (length bytes.now ≤ 2147483647) }
    ensures { result ≡ measured_raw (other form) w h (raw_in form w (drop at bytes.now)) }
{
    let found = find_forth(form, bytes, at, bytes.len());
    match found {
        Found::Record {
            kind,
            start: _,
            length,
            count,
        } => {
            if any_outside_in(w, h, form, bytes, at + 1 + head_length(kind), count) {
                return None;
            }
            let size = record_size(other(form), kind, count);
            Some(Written { length, size })
        }
        Found::Unsound => None,
    }
}
