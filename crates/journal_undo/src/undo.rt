// Undo of the record that lies in the journal, kind by kind: whether it is taken, the sheet reverted, and its lock marks
// moved with their entries. The journal is only read, and nothing is copied out of it.
ghost use Rattle.std.specs.Prelude.{◌≡◌, Bool, true, false, List, [], map, ◌+◌, ◌*◌, ◌≤◌, ◌<◌, length, get_or};
ghost use Rattle.base.specs.declared.Rgb.{Rgb};
ghost use Rattle.base.specs.declared.Form.TheVariants.{Coordinates};
ghost use Rattle.base.specs.Lists.{some};
ghost use Rattle.sheet.specs.Sheet.{sheet_of, stray};
ghost use Rattle.sheet.specs.Checks.{WellFormed};
ghost use Rattle.base.specs.declared.Edit.TheVariants.{PaletteAdd};
ghost use Rattle.edit.specs.Change.{painted, old_of};
ghost use Rattle.edit.specs.Storage.{bytes_of, numbers_of, stored, reinserted, raised};
ghost use Rattle.edit.specs.Apply.{reverted};
ghost use Rattle.edit.specs.Locks.{locks_back};
ghost use Rattle.edit_pixels.specs.Inside.{past};
ghost use Rattle.journal_record.specs.Record.{stride, rgb_in, lab_in, mark_in, changes_in};
ghost use Rattle.journal_read.specs.Sound.{undoable};
ghost use Rattle.journal_read.specs.Lies.{Lies, edit_at, changes_at};
ghost use Rattle.journal_undo.specs.UndoTests.{pixels_back, set_back, remove_back, lock_back, Revertible};

use base::{Form, MAX_ENTRIES, put_lab};
use edit_entries::{open_lab_gap, open_palette_gap, store_rgb};
use edit_locks::{bears, undo_locks};
use edit_renumber::raise_from;
use journal_olds::{olds_stray, paint_olds_in};
use journal_read::{
    ADD, LOCK, PIXELS, SET, any_outside_in, edit_at, entry_at, get_rgb, lab_in, unfit_lab_in,
};
use sheet::check;

// Whether the olds of the changes from `at` on can be painted.
fn can_undo_pixels(
    w: usize,
    h: usize,
    k: usize,
    indices: &mut [i16],
    form: Form,
    journal: &[u8],
    at: usize,
    count: usize,
) -> bool
    requires { (at + stride form * count ≤ length journal.now) × (k ≤ 255) × (length indices.old ≡ w * h)
        × (some (stray k) indices.old ≡ false) }
    ensures indices_unchanged { indices.new ≡ indices.old }
    ensures value { result ≡ pixels_back w h k indices.old (changes_in form w journal.now at count) }
{
    if any_outside_in(w, h, form, journal, at, count) {
        return false;
    }
    !olds_stray(indices, w, k, form, journal, at, count)
}

// Whether an entry can get its old colour and LAB back.
fn can_undo_set(k: usize, journal: &[u8], start: usize) -> bool
    requires { start + 32 ≤ length journal.now }
    ensures { result ≡ set_back k (get_or journal.now (start + 1) 0) (lab_in journal.now (start + 8)) }
{
    let index = entry_at(journal, start);
    if k <= index {
        return false;
    }
    !unfit_lab_in(journal, start + 8)
}

// Whether the last entry can go: there is one, and the sheet without it is well-formed.
fn can_undo_add(w: usize, h: usize, k: usize, palette: &[u8], lab: &[f64], indices: &[i16]) -> bool
    ensures { (locks : List Bool) (c : Rgb) → result
        ≡ undoable (sheet_of w h k palette.now lab.now indices.now) locks (PaletteAdd c)
        [] }
{
    if k == 0 {
        return false;
    }
    check(w, h, k - 1, palette, lab, indices) == 0
}

// Whether an entry can come back, and the olds be painted over the raised indices: these are in range
// exactly where they are over the indices as they are.
fn can_undo_remove(
    w: usize,
    h: usize,
    k: usize,
    indices: &mut [i16],
    form: Form,
    journal: &[u8],
    start: usize,
    count: usize,
) -> bool
    requires { (start + 33 + stride form * count ≤ length journal.now) × (k ≤ 255) × (length indices.old ≡ w * h)
        × (some (stray k) indices.old ≡ false) }
    ensures indices_unchanged { indices.new ≡ indices.old }
    ensures value { result
        ≡ remove_back w h k indices.old (get_or journal.now (start + 1) 0)
        (lab_in journal.now (start + 5)) (changes_in form w journal.now (start + 33) count) }
{
    let index = entry_at(journal, start);
    if k < index {
        return false;
    }
    if any_outside_in(w, h, form, journal, start + 33, count) {
        return false;
    }
    if MAX_ENTRIES <= k {
        return false;
    }
    if unfit_lab_in(journal, start + 5) {
        return false;
    }
    !olds_stray(indices, w, k + 1, form, journal, start + 33, count)
}

// Whether a lock can be undone: its entry is there, and bears the new mark.
fn can_undo_lock(k: usize, locks: &[bool], journal: &[u8], start: usize) -> bool
    requires { Lies Coordinates journal.now 5 start 0 × (k ≤ length locks.now) }
    ensures { result
        ≡ lock_back k locks.now (get_or journal.now (start + 1) 0)
        (mark_in journal.now (start + 3)) }
{
    let index = entry_at(journal, start);
    if index < k {
        return bears(locks, edit_at(journal, LOCK, start));
    }
    false
}

// Whether undo takes the record at `start`: it passes `can_revert`, and ends in a well-formed sheet. Only a lock's
// looks at the marks. The indices are written to on the way, and are as they were at the end.
pub fn can_undo(
    w: usize,
    h: usize,
    k: usize,
    palette: &[u8],
    lab: &[f64],
    indices: &mut [i16],
    locks: &[bool],
    form: Form,
    journal: &[u8],
    kind: u8,
    start: usize,
    count: usize,
) -> bool
    requires lies { Lies form journal.now kind start count }
    requires well_formed { WellFormed (sheet_of w h k palette.now lab.now indices.old) }
    requires locks_len { length locks.now ≡ 255 }
    ensures indices_unchanged { indices.new ≡ indices.old }
    ensures result_value { let sheet = sheet_of w h k palette.now lab.now indices.old in
        result
        ≡ undoable sheet locks.now (edit_at journal.now kind start)
        (changes_at form w journal.now kind start count) }
{
    if kind == PIXELS {
        return can_undo_pixels(w, h, k, indices, form, journal, start + 6, count);
    }
    if kind == SET {
        return can_undo_set(k, journal, start);
    }
    if kind == ADD {
        return can_undo_add(w, h, k, palette, lab, indices);
    }
    if kind == LOCK {
        return can_undo_lock(k, locks, journal, start);
    }
    can_undo_remove(w, h, k, indices, form, journal, start, count)
}

// Gives an entry its old colour and LAB back, as the record at `start` has them.
fn undo_set(palette: &mut [u8], lab: &mut [f64], journal: &[u8], start: usize)
    requires { (start + 32 ≤ length journal.now) × (3 * get_or journal.now (start + 1) 0 + 3 ≤ length palette.old)
        × (3 * get_or journal.now (start + 1) 0 + 3 ≤ length lab.old) }
    ensures palette_after { palette.new
        ≡ stored (3 * get_or journal.now (start + 1) 0) (bytes_of (rgb_in journal.now (start + 2)))
        palette.old }
    ensures lab_after { lab.new
        ≡ stored (3 * get_or journal.now (start + 1) 0) (numbers_of (lab_in journal.now (start + 8)))
        lab.old }
{
    let index = entry_at(journal, start);
    store_rgb(palette, index, get_rgb(journal, start + 2));
    put_lab(lab, index, lab_in(journal, start + 8));
}

// Puts an entry back in front of the later of k, as the record at `start` has it: raises the indices from
// it on, paints the olds, and reinserts its colour and its LAB.
fn undo_remove(
    w: usize,
    k: usize,
    palette: &mut [u8],
    lab: &mut [f64],
    indices: &mut [i16],
    form: Form,
    journal: &[u8],
    start: usize,
    count: usize,
)
    requires count_in_bounds { (start + 33 + stride form * count ≤ length journal.now) × (get_or journal.now (start + 1) 0 ≤ k) × (k ≤ 255)
        × (3 * k + 3 ≤ length palette.old) × (3 * k + 3 ≤ length lab.old) }
    requires indices_value { (some (stray 255) indices.old ≡ false)
        × (some (past w (length indices.old)) (changes_in form w journal.now (start + 33) count) ≡ false) }
    ensures palette_after { palette.new
        ≡ reinserted (3 * get_or journal.now (start + 1) 0) (3 * k)
        (bytes_of (rgb_in journal.now (start + 2))) palette.old }
    ensures lab_after { lab.new
        ≡ reinserted (3 * get_or journal.now (start + 1) 0) (3 * k)
        (numbers_of (lab_in journal.now (start + 5))) lab.old }
    ensures indices_after { indices.new
        ≡ painted old_of w (changes_in form w journal.now (start + 33) count)
        (map (raised (get_or journal.now (start + 1) 0)) indices.old) }
{
    let index = entry_at(journal, start);
    raise_from(indices, index);
    paint_olds_in(indices, w, form, journal, start + 33, count);
    open_palette_gap(palette, index, k, get_rgb(journal, start + 2));
    open_lab_gap(lab, index, k, lab_in(journal, start + 5));
}

// Reverts the sheet by the record at `start`, which undo takes on some marks, and answers how many entries the palette
// has then. A lock leaves the sheet as it was.
fn revert_record(
    w: usize,
    h: usize,
    k: usize,
    palette: &mut [u8],
    lab: &mut [f64],
    indices: &mut [i16],
    form: Form,
    journal: &[u8],
    kind: u8,
    start: usize,
    count: usize,
) -> usize
    requires lies { Lies form journal.now kind start count }
    requires well_formed { WellFormed (sheet_of w h k palette.old lab.old indices.old) }
    requires fact { let sheet = sheet_of w h k palette.old lab.old indices.old in
        Revertible sheet (edit_at journal.now kind start) (changes_at form w journal.now kind start count) }
    ensures { let sheet = sheet_of w h k palette.old lab.old indices.old in
        sheet_of w h result palette.new lab.new indices.new
        ≡ reverted sheet (edit_at journal.now kind start)
        (changes_at form w journal.now kind start count) }
{
    if kind == PIXELS {
        paint_olds_in(indices, w, form, journal, start + 6, count);
        return k;
    }
    if kind == SET {
        undo_set(palette, lab, journal, start);
        return k;
    }
    if kind == ADD {
        return k - 1;
    }
    if kind != LOCK {
        undo_remove(w, k, palette, lab, indices, form, journal, start, count);
        return k + 1;
    }
    k
}

// Undoes the record at `start`, which undo takes, moves the lock marks with their entries, and answers how many entries
// the palette has then.
pub fn undo_record(
    w: usize,
    h: usize,
    k: usize,
    palette: &mut [u8],
    lab: &mut [f64],
    indices: &mut [i16],
    locks: &mut [bool],
    form: Form,
    journal: &[u8],
    kind: u8,
    start: usize,
    count: usize,
) -> usize
    requires lies { Lies form journal.now kind start count }
    requires well_formed { WellFormed (sheet_of w h k palette.old lab.old indices.old) × (length locks.old ≡ 255) }
    requires count_value { let sheet = sheet_of w h k palette.old lab.old indices.old in
        undoable sheet locks.old (edit_at journal.now kind start) (changes_at form w journal.now kind start count)
        ≡ true }
    ensures indices_after { let sheet = sheet_of w h k palette.old lab.old indices.old in
        sheet_of w h result palette.new lab.new indices.new
        ≡ reverted sheet (edit_at journal.now kind start)
        (changes_at form w journal.now kind start count) }
    ensures locks_after { locks.new ≡ locks_back k locks.old (edit_at journal.now kind start) }
{
    undo_locks(k, locks, edit_at(journal, kind, start));
    revert_record(
        w, h, k, palette, lab, indices, form, journal, kind, start, count,
    )
}
