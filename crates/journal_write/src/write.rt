// The parts of a record, and the records of set, add and lock, which are those of either form, each written to a part
// of the journal. What lies beside them keeps.
ghost use Rattle.std.specs.Prelude.{◌≡◌, false, ℕ, ◌+◌, ◌*◌, ◌≤◌, ◌<◌, length};
ghost use mathlib.Core.List.{[], ◌∷◌, map, flat_map};
ghost use Rattle.base.specs.Lists.{some, over};
ghost use Rattle.base.specs.declared.Form.{Form};
ghost use Rattle.base.specs.declared.Form.TheVariants.{Places};
ghost use Rattle.base.specs.declared.Edit.TheVariants.{PaletteSet, PaletteAdd, PaletteLock};
ghost use Rattle.edit.specs.Change.{unpacked, place, filled_in};
ghost use Rattle.edit.specs.List.{filled_list};
ghost use Rattle.edit.specs.Storage.{bytes_of};
ghost use Rattle.edit_pixels.specs.Inside.{past};
ghost use Rattle.journal_record.specs.Bytes.{le, splice};
ghost use Rattle.journal_record.specs.Record.{stride, change_bytes, lab_bytes, mark_byte, record_of};
ghost use Rattle.journal_write.specs.Fit.{Numbers};
ghost use Rattle.journal_write.specs.List.{within, Puttable};

use base::{Form, Lab, Rgb};
use edit::{ListKind, OLD};
use edit_pixels::{column, filled_in, row};
use journal_bytes::{put_f64, put_u24, put_u32, put_u64};
use journal_find::list_bytes;

// Writes two bytes at the front: the kind, and the tool or the index.
pub fn put_kind(part: &mut [u8], kind: u8, second: u8)
    requires { 2 ≤ length part.old }
    ensures { part.new ≡ over (kind ∷ second ∷ []) part.old }
{
    part[0] = kind;
    part[1] = second;
}

// Writes the three bytes of a colour from `at` on.
pub fn put_rgb(part: &mut [u8], at: usize, c: Rgb)
    requires { at + 3 ≤ length part.old }
    ensures { part.new ≡ splice part.old at (bytes_of c) }
{
    part[at] = c.r;
    part[at + 1] = c.g;
    part[at + 2] = c.b;
}

// Writes the three doubles of a LAB from `at` on.
pub fn put_lab(part: &mut [u8], at: usize, x: Lab)
    requires at_in_bounds { at + 24 ≤ length part.old }
    requires numbers { Numbers x }
    ensures { part.new ≡ splice part.old at (lab_bytes x) }
{
    put_f64(part, at, x.l);
    put_f64(part, at + 8, x.a);
    put_f64(part, at + 16, x.b);
}

// Numbers of three bytes are below this.
const PLACES: usize = 16_777_216;

// A change's place on a sheet of width w, y × w + x, as far as three bytes tell it: of a width they tell no more than
// its own three.
fn low_place(w: usize, c: u64) -> usize
    ensures { le 3 result ≡ le 3 (place w (unpacked c)) }
{
    let x = column(c);
    let y = row(c);
    y * (w % PLACES) + x
}

// Writes a change from `at` on by its place: "in three bytes, then old and new in two each".
fn put_placed(part: &mut [u8], at: usize, w: usize, c: u64)
    requires { at + 7 ≤ length part.old }
    ensures { part.new ≡ splice part.old at (change_bytes Places w (unpacked c)) }
{
    put_u24(part, at, low_place(w, c));
    put_u32(part, at + 3, (c / OLD) as u32);
}

// Writes a change from `at` on.
pub fn put_change(form: Form, part: &mut [u8], at: usize, w: usize, c: u64)
    requires { at + stride form ≤ length part.old }
    ensures { part.new ≡ splice part.old at (change_bytes form w (unpacked c)) }
{
    match form {
        Form::Coordinates => put_u64(part, at, c),
        Form::Places => put_placed(part, at, w, c),
    }
}

// Writes the changes of a list from `at` on.
fn put_changes(form: Form, part: &mut [u8], at: usize, list: &[u64], w: usize)
    requires { at + stride form * length list.now ≤ length part.old }
    ensures { part.new
        ≡ splice part.old at (flat_map (change_bytes form w) (map unpacked list.now)) }
{
    for (i, c) in list.iter().enumerate() {
        put_change(form, part, at + list_bytes(form, i), w, *c);
    }
}

// The same, each with its old filled in.
fn put_filled(form: Form, part: &mut [u8], at: usize, list: &[u64], indices: &[i16], w: usize)
    requires list_in_bounds { 0 < length list.now → at + stride form * length list.now ≤ length part.old }
    requires list_value { some (past w (length indices.now)) (map unpacked list.now) ≡ false }
    ensures { part.new
        ≡ splice part.old at
        (flat_map (change_bytes form w) (map (filled_in w indices.now) (map unpacked list.now))) }
{
    for (i, c) in list.iter().enumerate() {
        let filled = filled_in(indices, w, *c);
        put_change(form, part, at + list_bytes(form, i), w, filled);
    }
}

// "2 set: index 1, old 3, new 3, old LAB 24".
pub fn write_set(part: &mut [u8], index: usize, old: Rgb, new: Rgb, lab: Lab)
    requires in_bounds { 36 ≤ length part.old }
    requires index_bound { index < 256 }
    requires numbers { Numbers lab }
    ensures { (f : Form) (w : ℕ) → part.new
        ≡ over (record_of f w (PaletteSet index old new lab) []) part.old }
{
    put_kind(part, 2, index as u8);
    put_rgb(part, 2, old);
    put_rgb(part, 5, new);
    put_lab(part, 8, lab);
    put_u32(part, 32, 36);
}

// "3 add: colour 3".
pub fn write_add(part: &mut [u8], c: Rgb)
    requires { 8 ≤ length part.old }
    ensures { (f : Form) (w : ℕ) → part.new ≡ over (record_of f w (PaletteAdd c) []) part.old }
{
    part[0] = 3;
    put_rgb(part, 1, c);
    put_u32(part, 4, 8);
}

// The byte of a mark: 1 or 0.
pub fn mark_byte(mark: bool) -> u8
    ensures { result ≡ mark_byte mark }
{
    u8::from(mark)
}

// Writes the bytes of two marks from `at` on.
fn put_marks(part: &mut [u8], at: usize, old: bool, new: bool)
    requires { at + 2 ≤ length part.old }
    ensures { part.new ≡ splice part.old at (mark_byte old ∷ mark_byte new ∷ []) }
{
    part[at] = mark_byte(old);
    part[at + 1] = mark_byte(new);
}

// "kind 5, index, old mark, new mark".
pub fn write_lock(part: &mut [u8], index: usize, old: bool, new: bool)
    requires in_bounds { 8 ≤ length part.old }
    requires index_bound { index < 256 }
    ensures { (f : Form) (w : ℕ) → part.new ≡ over (record_of f w (PaletteLock index old new) []) part.old }
{
    put_kind(part, 5, index as u8);
    put_marks(part, 2, old, new);
    put_u32(part, 4, 8);
}

// Writes the changes of a list where the record that starts the part has them: pixels' behind 6 bytes, with the olds
// that the sheet has before anything is painted, a remap's behind 33. An edit without a list has none.
pub fn put_list(
    list: ListKind,
    form: Form,
    part: &mut [u8],
    indices: &[i16],
    w: usize,
    changes: &[u64],
)
    requires { Puttable form list w (length indices.now) (length part.old) (map unpacked changes.now) }
    ensures { part.new
        ≡ within form w list (filled_list list w indices.now (map unpacked changes.now))
        part.old }
{
    match list {
        ListKind::NoList => (),
        ListKind::PixelList => put_filled(form, part, 6, changes, indices, w),
        ListKind::RemapList { index: _ } => put_changes(form, part, 33, changes, w),
    }
}
