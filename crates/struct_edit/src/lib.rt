// The loops over a lent slice of change structs: an edit's list checked, written and painted in place. Each hands its
// changes one by one to a function over one change. The list of an edit that a check refused is not gone through.
#![tactic(auto)]

ghost use Rattle.std.specs.Prelude.{◌≡◌, [], ◌∷◌, ◌+◌, ◌-◌, ◌<◌, ◌≤◌, length};
ghost use Rattle.base.specs.Checks.{first_of};
ghost use Rattle.edit.specs.Change.{unpacked};
ghost use Rattle.edit.specs.List.{painted_list};
ghost use Rattle.edit.specs.Checks.{change_checks};
ghost use Rattle.edit_pixels.specs.Inside.{bare};
ghost use Rattle.edit_checks.specs.Marks.{Checkable};
ghost use Rattle.edit_list.specs.Paintable.{Paintable};
ghost use Rattle.journal_record.specs.Bytes.{splice};
ghost use Rattle.journal_record.specs.Record.{stride, change_bytes};
ghost use Rattle.journal_write.specs.List.{Puttable};
ghost use Rattle.struct_edit.specs.Walk.{flat_of, flat_all, walked_of, mark_one, check_upto, mark_upto, paint_upto};
ghost use Rattle.struct_edit.specs.Walk.{put_one, put_upto, PutsOne};

use base::{Change, Form};
use edit::ListKind;
use edit_pixels::{filled_in, paint_new, pixel_no};
use edit_remap::mark_move;
use journal_find::list_bytes;
use journal_write::put_change;
use struct_change::packed;

// How many of n changes are written and painted: none where a check refused.
pub fn walked(no: u8, n: usize) -> usize
    ensures { result ≡ walked_of no n }
{
    if no != 0 {
        return 0;
    }
    n
}

// The number of the first check that applies to one change of an edit's list, or 0. The olds are looked at on replay
// alone. A removal's change to which no check applies is marked at its place.
#[tactic(auto, unfolding(edit::specs::Checks::change_checks, crate::specs::Walk::mark_one))]
pub fn check_one(
    kind: ListKind,
    replay: bool,
    w: usize,
    h: usize,
    k: usize,
    indices: &[i16],
    marks: &mut [u8],
    c: Change,
) -> u8
    requires { Checkable kind w h (length indices.now) (length marks.old) }
    ensures { (result ≡ first_of (change_checks replay (bare w h k indices.now) kind (flat_of c)))
        × (marks.new ≡ mark_one result kind w (flat_of c) marks.old) }
{
    let n = packed(c);
    match kind {
        ListKind::NoList => 0,
        ListKind::PixelList => pixel_no(w, h, k, indices, n, replay),
        ListKind::RemapList { index } => mark_move(w, h, k, index, indices, marks, n),
    }
}

// The number so far or, where that is 0, of the first check that applies to the first n changes of a list: the loop
// stops at the change that it applies to.
pub fn check_list(
    no: u8,
    kind: ListKind,
    replay: bool,
    w: usize,
    h: usize,
    k: usize,
    indices: &[i16],
    marks: &mut [u8],
    list: &[Change],
    n: usize,
) -> u8
    requires { (n ≤ length list.now) × (no ≡ 0 → Checkable kind w h (length indices.now) (length marks.old)) }
    ensures { (result ≡ check_upto no replay (bare w h k indices.now) kind list.now n)
        × (marks.new
        ≡ mark_upto no replay (bare w h k indices.now) kind list.now marks.old n) }
{
    if no != 0 {
        return no;
    }
    for c in &list[..n] {
        let code = check_one(kind, replay, w, h, k, indices, marks, *c);
        if code != 0 {
            return code;
        }
    }
    0
}

// Writes a change into the part of the journal that starts at the offset, from `at` of it on.
fn put_at(form: Form, journal: &mut [u8], offset: usize, at: usize, w: usize, c: u64)
    requires { offset + (at + stride form) ≤ length journal.old }
    ensures { journal.new ≡ splice journal.old (offset + at) (change_bytes form w (unpacked c)) }
{
    put_change(form, &mut journal[offset..], at, w, c);
}

// Writes the bytes of change i of an edit's list into its record, which starts at the offset: in the part of the
// journal that starts there. The old of a pixel is the picture's index.
#[tactic(auto, unfolding(crate::specs::Walk::put_one, crate::specs::Walk::PutsOne))]
pub fn put_one(
    kind: ListKind,
    form: Form,
    journal: &mut [u8],
    offset: usize,
    i: usize,
    indices: &[i16],
    w: usize,
    c: Change,
)
    requires { PutsOne form kind offset (length journal.old) i w (length indices.now) (flat_of c) }
    ensures { journal.new ≡ put_one form kind offset i w indices.now (flat_of c) journal.old }
{
    let n = packed(c);
    match kind {
        ListKind::NoList => (),
        ListKind::PixelList => {
            let filled = filled_in(indices, w, n);
            put_at(form, journal, offset, 6 + list_bytes(form, i), w, filled)
        }
        ListKind::RemapList { .. } => put_at(form, journal, offset, 33 + list_bytes(form, i), w, n),
    }
}

// The same of the first n changes of a list.
pub fn put_list(
    kind: ListKind,
    form: Form,
    journal: &mut [u8],
    offset: usize,
    indices: &[i16],
    w: usize,
    list: &[Change],
    n: usize,
)
    requires { (n ≤ length list.now)
        × (0 < n → Puttable form kind w (length indices.now) (length journal.old - offset) (flat_all list.now)) }
    ensures { journal.new
        ≡ put_upto form kind offset w indices.now list.now journal.old n }
{
    for (i, c) in list[..n].iter().enumerate() {
        put_one(kind, form, journal, offset, i, indices, w, *c);
    }
}

// Paints the new of a change of an edit's list at its place.
#[tactic(auto, unfolding(edit::specs::List::painted_list, edit::specs::Change::painted))]
pub fn paint_one(kind: ListKind, indices: &mut [i16], w: usize, c: Change)
    requires { Paintable kind w (length indices.old) (flat_of c ∷ []) }
    ensures { indices.new ≡ painted_list kind w (flat_of c ∷ []) indices.old }
{
    let n = packed(c);
    match kind {
        ListKind::NoList => (),
        ListKind::PixelList | ListKind::RemapList { .. } => paint_new(indices, w, n),
    }
}

// The same of the first n changes of a list.
pub fn paint_list(kind: ListKind, indices: &mut [i16], w: usize, list: &[Change], n: usize)
    requires { (n ≤ length list.now) × (0 < n → Paintable kind w (length indices.old) (flat_all list.now)) }
    ensures { indices.new ≡ paint_upto kind w list.now indices.old n }
{
    for change in &list[..n] {
        paint_one(kind, indices, w, *change);
    }
}
