// `normalize` and what else op.rs asks of an edit and its list.
//
// A list of changes is lent as one number of 64 bits a change, and so is the scratch, whose contents are free
// before and after the call.
#![tactic(auto)]

ghost use Rattle.std.specs.Prelude.{◌≡◌, length};
ghost use Rattle.base.specs.Answer.{counted_told, filled, truth_told, made_op_told};
ghost use Rattle.journal_record.specs.Found.{kind_of};
ghost use Rattle.change_list.specs.Listed.{count_of, InScratch};
ghost use Rattle.change_op.specs.Op.{normalize_call, made, made_count, pixels_of, pixels_call, is_empty_of};

use base::{Counted, Edit, LIST_TOO_LONG, MAX_CHANGES, MadeOp, NO_SPACE, Truth};
use change_list::{copy_out, count_of, counted};
use edit::list_of;

// The normal form of a list, left at the front of the scratch for a buffer of `room` places: in order by y, then
// x, with the first old and the last new of each place, and without what changes nothing.
pub fn normalize_in(list: &[u64], scratch: &mut [u64], room: usize) -> Counted
    ensures in_scratch { InScratch (count_of result) room scratch.new (filled result)
        (normalize_call (length scratch.old) list.now) }
    ensures scratch_len_unchanged { length scratch.new ≡ length scratch.old }
{
    if MAX_CHANGES < list.len() {
        return Counted::Refused(LIST_TOO_LONG);
    }
    if scratch.len() < list.len() {
        return Counted::Refused(NO_SPACE);
    }
    let n = change_normal::normalize_in(list, scratch);
    counted(n, room)
}

// The same at the front of out.
pub fn normalize(list: &[u64], scratch: &mut [u64], out: &mut [u64]) -> Counted
    ensures out_after { filled result out.new
        ≡ normalize_call (length scratch.old) list.now out.old }
    ensures scratch_len_unchanged { length scratch.new ≡ length scratch.old }
{
    let r = normalize_in(list, scratch, out.len());
    copy_out(scratch, count_of(r), out);
    r
}

// An edit of pixels, whose list was counted.
#[tactic(auto, unfolding(crate::specs::Op::pixels_of))]
pub fn pixels_of(tool: u8, counted: Counted) -> MadeOp
    ensures { made_op_told result ≡ pixels_of tool (counted_told counted) }
{
    match counted {
        Counted::Count(count) => MadeOp::Op {
            edit: Edit::Pixels { tool },
            count,
        },
        Counted::Refused(no) => MadeOp::Refused(no),
    }
}

// `Op::pixels`: an edit of pixels, and its list, normalised, left at the front of the scratch for a buffer of
// `room` places.
pub fn pixels_in(tool: u8, list: &[u64], scratch: &mut [u64], room: usize) -> MadeOp
    ensures in_scratch { InScratch (made_count result) room scratch.new (made result)
        (pixels_call tool (length scratch.old) list.now) }
    ensures scratch_len_unchanged { length scratch.new ≡ length scratch.old }
{
    pixels_of(tool, normalize_in(list, scratch, room))
}

// The same at the front of out.
pub fn pixels(tool: u8, list: &[u64], scratch: &mut [u64], out: &mut [u64]) -> MadeOp
    ensures out_after { made result out.new
        ≡ pixels_call tool (length scratch.old) list.now out.old }
    ensures scratch_len_unchanged { length scratch.new ≡ length scratch.old }
{
    let r = pixels_in(tool, list, scratch, out.len());
    copy_out(scratch, made_count(r), out);
    r
}

// How many changes the list of such an edit has, none where it was refused.
pub fn made_count(answer: MadeOp) -> usize
    ensures { result ≡ made_count answer }
{
    match answer {
        MadeOp::Op { count, .. } => count,
        MadeOp::Refused(_) => 0,
    }
}

// Whether the edit is of pixels, and its list is empty. The list beside an edit of another kind is not read; over the
// limit it is 21, too.
pub fn is_empty(edit: Edit, list: &[u64]) -> Truth
    ensures { truth_told result ≡ is_empty_of edit list.now }
{
    if MAX_CHANGES < list.len() {
        return Truth::Refused(LIST_TOO_LONG);
    }
    Truth::Is(edit::is_empty(list_of(edit), list.len()))
}

// The journal's kind of an edit: 1 "pixels", 2 "palette_set", 3 "palette_add", 4 "palette_remove", and document
// 02's 5, a lock.
#[tactic(auto, unfolding(journal_record::specs::Found::kind_of))]
pub fn kind(edit: Edit) -> u8
    ensures { result ≡ kind_of edit }
{
    match edit {
        Edit::Pixels { .. } => 1,
        Edit::PaletteSet { .. } => 2,
        Edit::PaletteAdd { .. } => 3,
        Edit::PaletteRemove { .. } => 4,
        Edit::PaletteLock { .. } => 5,
    }
}
