// An edit that no check refuses: its record filled in, and the edit done but for its list.
ghost use Rattle.std.specs.Prelude.{◌≡◌, List, ℕ, ◌+◌, ◌*◌, ◌≤◌, ℤ, length};
ghost use Rattle.color_curve.specs.Curve.{curve_of, lab_by, CurveFits};
ghost use Rattle.sheet.specs.Sheet.{sheet_of};
ghost use Rattle.edit.specs.Storage.{bytes_of, numbers_of, stored};
ghost use Rattle.edit.specs.Apply.{filled_edit, restDone};
ghost use Rattle.edit_locks.specs.Movable.{MarkIn};
ghost use Rattle.edit_apply.specs.Redoable.{EntryIn, Finishable};

use base::{Edit, Rgb, lab_at, put_lab, rgb_at};
use color_curve::lab_by;
use edit_entries::{close_lab_gap, close_palette_gap, store_rgb};
use edit_locks::is_locked;
use edit_renumber::lower_above;

// The edit with the colour, the LAB or the mark that its entry has now, as the journal keeps it.
#[tactic(auto, unfolding(edit::specs::Apply::filled_edit, crate::specs::Redoable::EntryIn))]
pub fn fill_edit(palette: &[u8], lab: &[f64], locks: &[bool], edit: Edit) -> Edit
    requires { EntryIn (length palette.now) edit × EntryIn (length lab.now) edit × MarkIn (length locks.now) edit }
    ensures { (w h k : ℕ) (indices : List ℤ)
        → result ≡ filled_edit (sheet_of w h k palette.now lab.now indices) locks.now edit }
{
    match edit {
        Edit::Pixels { .. } | Edit::PaletteAdd { .. } => edit,
        Edit::PaletteSet { index, new, .. } => Edit::PaletteSet {
            index,
            old: rgb_at(palette, index),
            new,
            old_lab: lab_at(lab, index),
        },
        Edit::PaletteRemove { index, .. } => Edit::PaletteRemove {
            index,
            rgb: rgb_at(palette, index),
            lab: lab_at(lab, index),
        },
        Edit::PaletteLock { index, new, .. } => {
            let old = is_locked(locks, index);
            Edit::PaletteLock { index, old, new }
        }
    }
}

// Gives entry i a colour, and the LAB of that colour by the session's curve.
fn store_entry(palette: &mut [u8], lab: &mut [f64], loaded: bool, curve: &[f64], i: usize, c: Rgb)
    requires i_in_bounds { (3 * i + 3 ≤ length palette.old) × (3 * i + 3 ≤ length lab.old) }
    requires curve_fits { CurveFits (curve_of loaded curve.now) }
    ensures palette_after { palette.new ≡ stored (3 * i) (bytes_of c) palette.old }
    ensures lab_after { lab.new ≡ stored (3 * i) (numbers_of (lab_by (curve_of loaded curve.now) c)) lab.old }
{
    store_rgb(palette, i, c);
    put_lab(lab, i, lab_by(loaded, curve, c));
}

// Does what an edit does beside its list, which is painted already, and answers the palette count after it.
#[tactic(auto, unfolding(edit::specs::Apply::restDone, crate::specs::Redoable::Finishable))]
pub fn finish_edit(
    k: usize,
    palette: &mut [u8],
    lab: &mut [f64],
    indices: &mut [i16],
    loaded: bool,
    curve: &[f64],
    edit: Edit,
) -> usize
    requires finishable { Finishable k (length palette.old) (length lab.old) edit }
    requires curve_fits { CurveFits (curve_of loaded curve.now) }
    ensures { (w h : ℕ) → sheet_of w h result palette.new lab.new indices.new
        ≡ restDone (lab_by (curve_of loaded curve.now))
        (sheet_of w h k palette.old lab.old indices.old) edit }
{
    match edit {
        Edit::Pixels { .. } | Edit::PaletteLock { .. } => k,
        Edit::PaletteSet { index, new, .. } => {
            store_entry(palette, lab, loaded, curve, index, new);
            k
        }
        Edit::PaletteAdd { rgb } => {
            store_entry(palette, lab, loaded, curve, k, rgb);
            k + 1
        }
        Edit::PaletteRemove { index, .. } => {
            lower_above(indices, index);
            close_palette_gap(palette, index, k);
            close_lab_gap(lab, index, k);
            k - 1
        }
    }
}
