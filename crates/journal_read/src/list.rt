// A list of changes as it lies in the journal from `at` on: the checks of its changes, and its news painted. Each loop
// reads one change a turn.
ghost use Rattle.std.specs.Prelude.{◌≡◌, false, ◌+◌, ◌*◌, ◌^◌, ◌<◌, ◌≤◌, ℤ, length};
ghost use mathlib.Core.List.{List, flat_map};
ghost use Rattle.base.specs.Checks.{first_of};
ghost use Rattle.base.specs.Lists.{some};
ghost use Rattle.edit.specs.Change.{outside, painted, new_of};
ghost use Rattle.edit.specs.List.{painted_list};
ghost use Rattle.edit.specs.Checks.{pixel_checks, remap_checks, change_checks};
ghost use Rattle.edit_pixels.specs.Inside.{bare, past};
ghost use Rattle.edit_remap.specs.Marked.{MarkedFrom};
ghost use Rattle.edit_checks.specs.Marks.{Checkable, ClearFor, MarksFor};
ghost use Rattle.edit_list.specs.Paintable.{Paintable};
ghost use Rattle.journal_record.specs.Record.{stride, changes_in};
ghost use Rattle.journal_read.specs.Lies.{list_offset};

use crate::change::{change_at, change_no, is_off, mark_change, row_width};
use base::{Form, either};
use edit::ListKind;
use edit_pixels::paint_new;

// Where a list stands in its record, counted from the record's start.
pub fn list_offset(list: ListKind) -> usize
    ensures { result ≡ list_offset list }
{
    match list {
        ListKind::NoList => 0,
        ListKind::PixelList => 6,
        ListKind::RemapList { index: _ } => 33,
    }
}

// Whether some change is off a sheet of w by h.
pub fn any_outside_in(w: usize, h: usize, form: Form, journal: &[u8], at: usize, n: usize) -> bool
    requires { (w * h < 2 ^ 64) × (at + stride form * n ≤ length journal.now) }
    ensures { result ≡ some (outside w h) (changes_in form w journal.now at n) }
{
    let mut bad = false;
    for i in 0..n {
        bad = either(bad, is_off(form, w, h, change_at(form, journal, at, i)));
    }
    bad
}

// The number of the first of 5 and 6 that applies to a list of n changes, or 0.
fn pixels_no_in(w: usize, h: usize, k: usize, form: Form, journal: &[u8], at: usize, n: usize) -> u8
    requires { (w * h < 2 ^ 64) × (at + stride form * n ≤ length journal.now) }
    ensures { (indices : List ℤ) → result
        ≡ first_of (flat_map (pixel_checks false (bare w h k indices)) (changes_in form w journal.now at n)) }
{
    for i in 0..n {
        let no = change_no(form, w, h, k, change_at(form, journal, at, i));
        if no != 0 {
            return no;
        }
    }
    0
}

// The number of the first of 5 and 12 that applies to a remap of n changes, or 0: then its places are marked.
fn mark_remap_in(
    w: usize,
    h: usize,
    k: usize,
    index: usize,
    indices: &[i16],
    form: Form,
    journal: &[u8],
    at: usize,
    n: usize,
    marks: &mut [u8],
) -> u8
    requires { (index ≤ 255) × (length indices.now ≡ w * h) × (w * h ≤ length marks.old)
        × (at + stride form * n ≤ length journal.now) }
    ensures { (result
        ≡ first_of
        (flat_map (remap_checks (bare w h k indices.now) index)
        (changes_in form w journal.now at n)))
        × (result ≡ 0
        → MarkedFrom w (changes_in form w journal.now at n) (w * h) marks.old marks.new) }
{
    for i in 0..n {
        let c = change_at(form, journal, at, i);
        let no = mark_change(form, w, h, k, index, indices, marks, c);
        if no != 0 {
            return no;
        }
    }
    0
}

// The number of the first check that applies to a change of a list, or 0: then the places of a removal's are marked.
pub fn check_list_in(
    list: ListKind,
    w: usize,
    h: usize,
    k: usize,
    indices: &[i16],
    form: Form,
    journal: &[u8],
    at: usize,
    n: usize,
    marks: &mut [u8],
) -> u8
    requires checkable { Checkable list w h (length indices.now) (length marks.old) }
    requires n_in_bounds { at + stride form * n ≤ length journal.now }
    ensures { (result
        ≡ first_of
        (flat_map (change_checks false (bare w h k indices.now) list)
        (changes_in form w journal.now at n)))
        × (result ≡ 0 → ClearFor list (w * h) marks.old
        → MarksFor list w (w * h) (changes_in form w journal.now at n) marks.new) }
{
    match list {
        ListKind::NoList => 0,
        ListKind::PixelList => pixels_no_in(w, h, k, form, journal, at, n),
        ListKind::RemapList { index } => mark_remap_in(
            w, h, k, index, indices, form, journal, at, n, marks,
        ),
    }
}

// Paints each new of a list at its place, in order. No change is past the picture.
fn paint_news_in(indices: &mut [i16], w: usize, form: Form, journal: &[u8], at: usize, n: usize)
    requires { (at + stride form * n ≤ length journal.now)
        × (some (past w (length indices.old)) (changes_in form w journal.now at n) ≡ false) }
    ensures { indices.new ≡ painted new_of w (changes_in form w journal.now at n) indices.old }
{
    let row = row_width(form, w);
    for i in 0..n {
        paint_new(indices, row, change_at(form, journal, at, i));
    }
}

// The same of a list by its kind.
#[tactic(auto, unfolding(edit::specs::List::painted_list, edit_list::specs::Paintable::Paintable))]
pub fn paint_list_in(
    list: ListKind,
    indices: &mut [i16],
    w: usize,
    form: Form,
    journal: &[u8],
    at: usize,
    n: usize,
)
    requires { (at + stride form * n ≤ length journal.now)
        × Paintable list w (length indices.old) (changes_in form w journal.now at n) }
    ensures { indices.new ≡ painted_list list w (changes_in form w journal.now at n) indices.old }
{
    match list {
        ListKind::NoList => (),
        ListKind::PixelList => paint_news_in(indices, w, form, journal, at, n),
        ListKind::RemapList { index: _ } => paint_news_in(indices, w, form, journal, at, n),
    }
}
