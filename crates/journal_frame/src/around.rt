// A record around its changes, whose bytes stand in it already: kind, count and whole length, written to the
// front of a part of the journal.
ghost use Rattle.std.specs.Prelude.{◌≡◌, ◌+◌, ◌*◌, ◌≤◌, ◌<◌, length};
ghost use Rattle.base.specs.declared.Edit.TheVariants.{Pixels, PaletteRemove};
ghost use Rattle.journal_record.specs.Record.{stride, record_length};
ghost use Rattle.journal_write.specs.Fit.{Numbers};
ghost use Rattle.journal_frame.specs.Frame.{around, Framed};

use base::{Edit, Form, Lab, Rgb};
use journal_bytes::put_u32;
use journal_find::{list_bytes, pixels_kind, remove_kind};
use journal_write::{put_kind, put_lab, put_rgb, write_add, write_lock, write_set};

// "1 pixels: tool 1, count 4", the changes left out.
fn around_pixels(form: Form, part: &mut [u8], tool: u8, n: usize)
    requires n_in_bounds { 10 + stride form * n ≤ length part.old }
    requires n_bound { 10 + stride form * n < 4294967296 }
    ensures { part.new ≡ around form (Pixels tool) n part.old }
{
    let bytes = list_bytes(form, n);
    put_kind(part, pixels_kind(form), tool);
    put_u32(part, 2, n as u32);
    put_u32(part, 6 + bytes, (10 + bytes) as u32);
}

// "4 remove: index 1, colour 3, LAB 24, count 4", the changes left out.
fn around_remove(form: Form, part: &mut [u8], index: usize, c: Rgb, lab: Lab, n: usize)
    requires n_in_bounds { 37 + stride form * n ≤ length part.old }
    requires n_bound { 37 + stride form * n < 4294967296 }
    requires index_bound { index < 256 }
    requires numbers { Numbers lab }
    ensures { part.new ≡ around form (PaletteRemove index c lab) n part.old }
{
    let bytes = list_bytes(form, n);
    put_kind(part, remove_kind(form), index as u8);
    put_rgb(part, 2, c);
    put_lab(part, 5, lab);
    put_u32(part, 29, n as u32);
    put_u32(part, 33 + bytes, (37 + bytes) as u32);
}

// The record of an edit with n changes, all but their bytes.
pub fn write_around(form: Form, part: &mut [u8], edit: Edit, n: usize)
    requires n_in_bounds { record_length form edit n ≤ length part.old }
    requires n_bound { record_length form edit n < 4294967296 }
    requires framed { Framed edit }
    ensures { part.new ≡ around form edit n part.old }
{
    match edit {
        Edit::Pixels { tool } => around_pixels(form, part, tool, n),
        Edit::PaletteSet {
            index,
            old,
            new,
            old_lab,
        } => write_set(part, index, old, new, old_lab),
        Edit::PaletteAdd { rgb } => write_add(part, rgb),
        Edit::PaletteRemove { index, rgb, lab } => around_remove(form, part, index, rgb, lab, n),
        Edit::PaletteLock { index, old, new } => write_lock(part, index, old, new),
    }
}
