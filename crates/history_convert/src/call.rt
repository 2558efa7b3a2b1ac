// The call: its checks in order, then all records read, and only then written.
ghost use Rattle.std.specs.Prelude.{◌≡◌};
ghost use Rattle.base.specs.Answer.{Done, answer_told};
ghost use Rattle.base.specs.Answer.Told.{alone};
ghost use Rattle.base.specs.Checks.{first_of};
ghost use Rattle.history_convert.specs.Convert.{moved_to, entry_checks, convert_of};
ghost use Rattle.history_convert.specs.Sizes.{leaves};

use crate::measure::measure_used;
use crate::write::write_used;
use base::{
    Answer, BAD_SHEET, Converted, Form, Handle, JOURNAL_DAMAGED, JOURNAL_FULL, MAX_JOURNAL,
    MAX_SIDE,
};
use history_handle::sound;

// The number of the first of 1 and 4 that applies before the records are read, or 0.
fn entry_no(w: usize, h: usize, size: usize, room: usize, handle: Handle) -> u8
    ensures { result ≡ first_of (entry_checks w h size room handle) }
{
    if MAX_SIDE < w {
        return BAD_SHEET;
    }
    if MAX_SIDE < h {
        return BAD_SHEET;
    }
    if MAX_JOURNAL < size {
        return BAD_SHEET;
    }
    if MAX_JOURNAL < room {
        return BAD_SHEET;
    }
    if !sound(handle, size) {
        return JOURNAL_DAMAGED;
    }
    0
}

// A number, and the handle as it was.
fn refused(no: u8, handle: Handle) -> Converted
    ensures { (answer_told result.answer ≡ alone no) × (result.handle ≡ handle) }
{
    Converted {
        answer: Answer::Refused(no),
        handle,
    }
}

// Done, and the handle with its new offsets.
fn done(offset: usize, end: usize, handle: Handle) -> Converted
    ensures { (answer_told result.answer ≡ Done) × (result.handle ≡ moved_to offset end handle) }
{
    Converted {
        answer: Answer::Done,
        handle: Handle {
            offset,
            end,
            position: handle.position,
            count: handle.count,
            saved: handle.saved,
        },
    }
}

// Converts the whole journal of a history on a sheet of w by h, with its handle, from this form to the other, into
// `out`: the records before the standing offset and the undone ones after it. The offsets of the handle that comes
// back are those of the new lengths; position, count and saved position are as they were.
//
// A side over 1,024 or a journal over its limit is 1. The handle, and then any record that is none in this form, whose
// place is off the sheet, or that does not add up to the handle's offsets and counts, is 4. An outcome longer than `out`
// is 14. With a number `out` keeps every bit, and the handle comes back as it was.
pub fn convert(
    w: usize,
    h: usize,
    from: Form,
    journal: &[u8],
    handle: Handle,
    out: &mut [u8],
) -> Converted
    ensures { leaves result out.new ≡ convert_of from w h journal.now handle out.old }
{
    let no = entry_no(w, h, journal.len(), out.len(), handle);
    if no != 0 {
        return refused(no, handle);
    }
    let Some(sizes) = measure_used(w, h, from, journal, handle) else {
        return refused(JOURNAL_DAMAGED, handle);
    };
    let end = sizes.past + sizes.future;
    if out.len() < end {
        return refused(JOURNAL_FULL, handle);
    }
    write_used(w, from, journal, handle, out, sizes.past);
    done(sizes.past, end, handle)
}
