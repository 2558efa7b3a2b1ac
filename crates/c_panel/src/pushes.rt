// The pushes.
ghost use Rattle.std.specs.Prelude.{◌≡◌, false, [], ◌/◌, ◌≤◌, length};
ghost use Rattle.history_ledger.specs.Calls.{Call as call};
ghost use Rattle.history_ledger.specs.Journal.{pushOf};
ghost use Rattle.history_model.specs.Calls.{state_of};
ghost use Rattle.history_model.specs.Editing.{editing, given_of};
ghost use Rattle.c_form.specs.Flat.{numbers_in};
ghost use Rattle.c_model.specs.Asked.{Asked};
ghost use Rattle.c_model.specs.Step.{flat_of, sheet_in, flattened, misfits, flat_room, flat_step, FlatLeaves};
ghost use Rattle.c_panel.specs.Lent.{Sized, Settles, flat_moved, push_fit, list_fit, long_number, Listed};

use crate::settle::{settle_handle, settle_sheet};
use base::{Answer, BAD_SHEET, Edit, FLAT_MISFIT, Form, Handle, LIST_TOO_LONG, Moved, Rgb};
use c_bytes::{handle_misfits, pair_at, sheet_misfits, take_handle, take_list, take_sheet};
use edit_entries::no_lab;
use history::push;

// The sheet taken apart, the core's push, and what it leaves of the sheet put back; `indices` has a place for each
// pixel.
fn push_sized(
    w: usize,
    h: usize,
    k: usize,
    indices: &mut [i16],
    edit: Edit,
    list: &[u64],
    sheet: &mut [u8],
    journal: &mut [u8],
    before: Handle,
) -> Moved
    requires { Sized w h k (length indices.old) sheet.old }
    ensures { Settles result sheet.old sheet.new journal.new
        (pushOf editing flat_room (state_of (sheet_in sheet.old) journal.old before)
        (given_of false [] edit list.now)) }
{
    let mut palette = [0u8; 765];
    let mut lab = [0.0f64; 765];
    let mut locks = [false; 255];
    let mut scratch = [0u8; 4096];
    take_sheet(sheet, &mut palette, &mut lab, indices, &mut locks);
    let moved = push(
        w,
        h,
        k,
        &mut palette,
        &mut lab,
        indices,
        &mut locks,
        false,
        b"",
        false,
        &[],
        edit,
        list,
        Form::Coordinates,
        journal,
        before,
        &mut scratch,
    );
    let answer = moved.answer;
    settle_sheet(answer, moved.k, &palette, &lab, indices, &locks, sheet);
    moved
}

// The same on a flat sheet and a handle that 28 does not refuse; 1 for a side over 64.
fn push_fit(
    sheet: &mut [u8],
    journal: &mut [u8],
    handle: &mut [u8],
    edit: Edit,
    list: &[u64],
) -> Answer
    requires { misfits (flat_of sheet.old journal.old handle.old) ≡ false }
    ensures { let lent = flat_of sheet.old journal.old handle.old in
        flat_moved result sheet.new journal.new handle.new
        ≡ flattened lent (push_fit lent (given_of false [] edit list.now)) }
{
    let w = pair_at(sheet, 0);
    let h = pair_at(sheet, 2);
    let k = pair_at(sheet, 4);
    if 64 < w {
        return Answer::Refused(BAD_SHEET);
    }
    if 64 < h {
        return Answer::Refused(BAD_SHEET);
    }
    let n = w * h;
    let mut indices = [0i16; 4096];
    let before = take_handle(handle);
    let moved = push_sized(
        w,
        h,
        k,
        &mut indices[..n],
        edit,
        list,
        sheet,
        journal,
        before,
    );
    let answer = moved.answer;
    let after = moved.handle;
    settle_handle(answer, after, handle);
    answer
}

// An edit without a list, where 28 is yet to be asked of the buffers.
fn push_entry(sheet: &mut [u8], journal: &mut [u8], handle: &mut [u8], edit: Edit) -> u8
    ensures { let lent = flat_of sheet.old journal.old handle.old in
        FlatLeaves result sheet.new journal.new handle.new (list_fit lent edit []) }
{
    if sheet_misfits(sheet) {
        return FLAT_MISFIT;
    }
    if handle_misfits(handle) {
        return FLAT_MISFIT;
    }
    let answer = push_fit(sheet, journal, handle, edit, &[]);
    answer.number()
}

// Recolours an entry.
#[unsafe(no_mangle)]
pub extern "C" fn wh_push_set(
    sheet: &mut [u8],
    journal: &mut [u8],
    handle: &mut [u8],
    index: usize,
    r: u8,
    g: u8,
    b: u8,
) -> u8
    ensures { FlatLeaves result sheet.new journal.new handle.new
        (flat_step (flat_of sheet.old journal.old handle.old)
        (call.push (Asked.set index (record { r = r; g = g; b = b })))) }
{
    let c = Rgb { r, g, b };
    let old_lab = no_lab();
    let edit = Edit::PaletteSet {
        index,
        old: c,
        new: c,
        old_lab,
    };
    push_entry(sheet, journal, handle, edit)
}

// Adds an entry.
#[unsafe(no_mangle)]
pub extern "C" fn wh_push_add(
    sheet: &mut [u8],
    journal: &mut [u8],
    handle: &mut [u8],
    r: u8,
    g: u8,
    b: u8,
) -> u8
    ensures { FlatLeaves result sheet.new journal.new handle.new
        (flat_step (flat_of sheet.old journal.old handle.old)
        (call.push (Asked.add (record { r = r; g = g; b = b })))) }
{
    let c = Rgb { r, g, b };
    push_entry(sheet, journal, handle, Edit::PaletteAdd { rgb: c })
}

// Locks an entry with mark 1, unlocks it with mark 0.
#[unsafe(no_mangle)]
pub extern "C" fn wh_push_lock(
    sheet: &mut [u8],
    journal: &mut [u8],
    handle: &mut [u8],
    index: usize,
    mark: u8,
) -> u8
    ensures { FlatLeaves result sheet.new journal.new handle.new
        (flat_step (flat_of sheet.old journal.old handle.old) (call.push (Asked.lock index mark))) }
{
    if 1 < mark {
        return FLAT_MISFIT;
    }
    let edit = Edit::PaletteLock {
        index,
        old: false,
        new: mark == 1,
    };
    push_entry(sheet, journal, handle, edit)
}

// An edit with a list, whose changes are as many as the buffer for them has.
fn push_changes(
    sheet: &mut [u8],
    journal: &mut [u8],
    handle: &mut [u8],
    edit: Edit,
    list: &[u8],
    changes: &mut [u64],
) -> Answer
    requires { (misfits (flat_of sheet.old journal.old handle.old) ≡ false) × (length changes.old ≡ length list.now / 8) }
    ensures { let lent = flat_of sheet.old journal.old handle.old in
        flat_moved result sheet.new journal.new handle.new
        ≡ flattened lent (push_fit lent (given_of false [] edit (numbers_in list.now))) }
{
    take_list(list, changes);
    push_fit(sheet, journal, handle, edit, changes)
}

// The same in a buffer for the longest list.
fn push_listed(
    sheet: &mut [u8],
    journal: &mut [u8],
    handle: &mut [u8],
    edit: Edit,
    list: &[u8],
    n: usize,
    changes: &mut [u64],
) -> Answer
    requires { (misfits (flat_of sheet.old journal.old handle.old) ≡ false) × (n ≡ length list.now / 8) × (n ≤ length changes.old) }
    ensures { let lent = flat_of sheet.old journal.old handle.old in
        flat_moved result sheet.new journal.new handle.new
        ≡ flattened lent (push_fit lent (given_of false [] edit (numbers_in list.now))) }
{
    push_changes(sheet, journal, handle, edit, list, &mut changes[..n])
}

// 1 to 4 come before 21: a push of no pixels answers these, else "still", and leaves everything.
#[tactic(auto, unfolding(crate::specs::Lent::long_number))]
fn long_number(no: u8) -> u8
    ensures { result ≡ long_number no }
{
    if no == 255 { LIST_TOO_LONG } else { no }
}

// A push with a list in bytes.
fn push_list(sheet: &mut [u8], journal: &mut [u8], handle: &mut [u8], edit: Edit, list: &[u8]) -> u8
    ensures { let lent = flat_of sheet.old journal.old handle.old in
        (a : Asked) → Listed a edit list.now
        → FlatLeaves result sheet.new journal.new handle.new (flat_step lent (call.push a)) }
{
    if list.len() % 8 != 0 {
        return FLAT_MISFIT;
    }
    if sheet_misfits(sheet) {
        return FLAT_MISFIT;
    }
    if handle_misfits(handle) {
        return FLAT_MISFIT;
    }
    let n = list.len() / 8;
    if 4096 < n {
        let none = push_fit(sheet, journal, handle, Edit::Pixels { tool: 0 }, &[]);
        return long_number(none.number());
    }
    let mut changes = [0u64; 4096];
    let answer = push_listed(sheet, journal, handle, edit, list, n, &mut changes);
    answer.number()
}

// Paints the changes of a list, eight bytes each as in a record.
#[unsafe(no_mangle)]
pub extern "C" fn wh_push_pixels(
    sheet: &mut [u8],
    journal: &mut [u8],
    handle: &mut [u8],
    tool: u8,
    list: &[u8],
) -> u8
    ensures { FlatLeaves result sheet.new journal.new handle.new
        (flat_step (flat_of sheet.old journal.old handle.old)
        (call.push (Asked.pixels tool list.now))) }
{
    push_list(sheet, journal, handle, Edit::Pixels { tool }, list)
}

// Removes an entry, its pixels repainted by the changes of a list.
#[unsafe(no_mangle)]
pub extern "C" fn wh_push_remove(
    sheet: &mut [u8],
    journal: &mut [u8],
    handle: &mut [u8],
    index: usize,
    list: &[u8],
) -> u8
    ensures { FlatLeaves result sheet.new journal.new handle.new
        (flat_step (flat_of sheet.old journal.old handle.old)
        (call.push (Asked.remove index list.now))) }
{
    let lab = no_lab();
    let rgb = Rgb { r: 0, g: 0, b: 0 };
    let edit = Edit::PaletteRemove { index, rgb, lab };
    push_list(sheet, journal, handle, edit, list)
}
