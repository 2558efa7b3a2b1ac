// `Stroke` of tools.rs: the changes of a drag, event by event, in a lent buffer. After each event the front of the
// buffer is the normal form of what it was and then the event's list, so that normalising goes on step by step.
ghost use Rattle.std.specs.Prelude.{◌≡◌, length};
ghost use Rattle.base.specs.Checks.{first_of};
ghost use Rattle.base.specs.Answer.{counted_told, filled};
ghost use Rattle.change_op.specs.Op.{made};
ghost use Rattle.change_stroke.specs.Stroke.{extend_checks, extend_call, stroke_checks, changes_of, into_op_call};

use crate::Stroke;
use base::{Counted, LIST_TOO_LONG, MAX_CHANGES, MadeOp, NO_SPACE};
use change_list::{copy_out, count_of, counted};
use change_normal::normalize_joined;
use change_op::{made_count, pixels_in};

// The number of the first check of an extension that applies, or 0: 21 of either list, then 16 for a count that
// the buffer has no places for, and for scratch with fewer places than both lists have changes.
#[tactic(auto, unfolding(crate::specs::Stroke::extend_checks, base::specs::Checks::first_of))]
pub fn extend_no(count: usize, places: usize, n: usize, room: usize) -> u8
    ensures { result ≡ first_of (extend_checks count places n room) }
{
    if MAX_CHANGES < count {
        return LIST_TOO_LONG;
    }
    if MAX_CHANGES < n {
        return LIST_TOO_LONG;
    }
    if places < count {
        return NO_SPACE;
    }
    if room < count + n {
        return NO_SPACE;
    }
    0
}

// Adds one event's changes to a stroke, whose changes so far are the first `count` of the buffer; answers how many
// they are then. 16 too where the buffer has fewer places than that.
pub fn extend(stroke: &mut [u64], count: usize, list: &[u64], scratch: &mut [u64]) -> Counted
    ensures stroke_after { filled result stroke.new
        ≡ extend_call (length scratch.old) count list.now stroke.old }
    ensures scratch_len_unchanged { length scratch.new ≡ length scratch.old }
{
    let no = extend_no(count, stroke.len(), list.len(), scratch.len());
    if no != 0 {
        return Counted::Refused(no);
    }
    let n = normalize_joined(&stroke[..count], list, scratch);
    let r = counted(n, stroke.len());
    copy_out(scratch, count_of(r), stroke);
    r
}

// The number of the first check of a stroke that applies, or 0: 21 of its count, then 16 where the buffer has fewer
// places.
#[tactic(auto, unfolding(crate::specs::Stroke::stroke_checks, base::specs::Checks::first_of))]
fn stroke_no(count: usize, places: usize) -> u8
    ensures { result ≡ first_of (stroke_checks count places) }
{
    if MAX_CHANGES < count {
        return LIST_TOO_LONG;
    }
    if places < count {
        return NO_SPACE;
    }
    0
}

impl Stroke {
    // A stroke without changes.
    pub fn new(tool: u8) -> Stroke
        ensures { (result.tool ≡ tool) × (result.count ≡ 0) }
    {
        Stroke { tool, count: 0 }
    }

    // The tool that its edit is noted with.
    pub fn tool(self) -> u8
        ensures { result ≡ self.tool }
    {
        self.tool
    }

    // How many changes it has so far, for the preview: the first of its buffer.
    pub fn changes(self, stroke: &[u64]) -> Counted
        ensures { counted_told result ≡ changes_of self.count (length stroke.now) }
    {
        let no = stroke_no(self.count, stroke.len());
        if no != 0 {
            return Counted::Refused(no);
        }
        Counted::Count(self.count)
    }

    // The stroke as one edit of pixels: its changes, normalised, at the front of its buffer. What `extend` left there
    // is in normal form and stays as it is. The scratch has a place a change, or the answer is 16.
    pub fn into_op(self, stroke: &mut [u64], scratch: &mut [u64]) -> MadeOp
        ensures stroke_after { made result stroke.new
            ≡ into_op_call self.tool (length scratch.old) self.count stroke.old }
        ensures scratch_len_unchanged { length scratch.new ≡ length scratch.old }
    {
        let count = self.count;
        let places = stroke.len();
        let no = stroke_no(count, places);
        if no != 0 {
            return MadeOp::Refused(no);
        }
        let r = pixels_in(self.tool, &stroke[..count], scratch, places);
        copy_out(scratch, made_count(r), stroke);
        r
    }
}
