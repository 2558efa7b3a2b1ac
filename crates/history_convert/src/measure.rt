// The records of the used part read and judged: how long they are in the other form.
ghost use Rattle.std.specs.Prelude.{◌≡◌, true, ◌≤◌, length};
ghost use Rattle.history_ledger.specs.Handle.{sound};
ghost use Rattle.journal_raw.specs.Raw.{other, raws_in};
ghost use Rattle.history_convert.specs.Convert.{used_in};
ghost use Rattle.history_convert.specs.Sizes.{size_of, both_of, sizes_of};

use crate::Sizes;
use base::{Form, Handle};
use journal_raw::measure_record;

// The length in the other form of a part that holds n records and nothing else.
pub fn measure(w: usize, h: usize, form: Form, bytes: &[u8], n: usize) -> Option<usize>
    requires { (w ≤ 1024) × (h ≤ 1024) × (length bytes.now ≤ 2147483647) }
    ensures { result ≡ size_of (other form) w h (raws_in form w n bytes.now) }
{
    let mut at: usize = 0;
    let mut size: usize = 0;
    for _ in 0..n {
        let one = measure_record(w, h, form, bytes, at)?;
        at += one.length;
        size += one.size;
    }
    if at != bytes.len() {
        return None;
    }
    Some(size)
}

// What both parts together answer.
#[tactic(auto, unfolding(crate::specs::Sizes::both_of))]
fn both(past: Option<usize>, future: Option<usize>) -> Option<Sizes>
    ensures { result ≡ both_of past future }
{
    let past = past?;
    let future = future?;
    Some(Sizes { past, future })
}

// The used part: `position` records up to the standing offset, and the rest of `count` up to the end.
pub fn measure_used(w: usize, h: usize, form: Form, journal: &[u8], handle: Handle) -> Option<Sizes>
    requires w_bound { (w ≤ 1024) × (h ≤ 1024) × (length journal.now ≤ 2147483647) }
    requires handle_value { sound (length journal.now) handle ≡ true }
    ensures { result ≡ sizes_of (other form) w h (used_in form w journal.now handle) }
{
    let offset = handle.offset;
    let end = handle.end;
    let position = handle.position;
    let count = handle.count;
    let past = measure(w, h, form, &journal[0..offset], position);
    let future = measure(w, h, form, &journal[offset..end], count - position);
    both(past, future)
}
