// `move_selection`.
ghost use Rattle.std.specs.Prelude.{◌≡◌, false, map, ◌+◌, ◌≤◌, pos, ◌+ℤ◌, length};
ghost use Rattle.base.specs.Ints.{far, from_zero};
ghost use Rattle.base.specs.Checks.{first_of};
ghost use Rattle.base.specs.Answer.Told.{result as told};
ghost use Rattle.sheet.specs.Sheet.{sheet_of};
ghost use Rattle.selection.specs.Calls.{chosen_told, shift_checks};
ghost use Rattle.edit.specs.Change.{packed};
ghost use Rattle.change_list.specs.Fronts.{Front};
ghost use Rattle.change_list.specs.Listed.{InScratch};
ghost use Rattle.change_normal.specs.Normal.{normalize_of};
ghost use Rattle.tool_paste_model.specs.Blocks.{landing};
ghost use Rattle.tool_paste_model.specs.Pasting.{left, shifted_count};
ghost use Rattle.tool_paste_model.specs.Moves.{Movable, MoveRows, unmoved, move_changes, moved_list, moved_selection, move_checks, move_call};

use base::NO_SPACE;
use change_list::{copy_out, counted, differences, lay_rows};
use selection::{Chosen, Selection, Shifted};
use selection_spans::Span;
use sheet::check;
use tool_block::{clear_rows, land, landed_rows, landing_on};
use tool_paste::{shifted_count, shifted_of};

// Shift 0.
fn is_unmoved(dx: i32, dy: i32) -> bool
    ensures { result ≡ unmoved dx dy }
{
    dx == 0 && dy == 0
}

// The number of the first check of a shift and a selection that applies, or 0: 15, 5.
fn shift_no(s: Selection, dx: i32, dy: i32, w: usize, h: usize) -> u8
    ensures { result ≡ first_of (shift_checks s dx dy w h) }
{
    match s.translated(dx, dy, w, h) {
        Chosen::Part(_) => 0,
        Chosen::Nothing => 0,
        Chosen::Refused(no) => no,
    }
}

// The number of the first check of a move that applies, or 0. `room` is the scratch's length.
fn move_no(
    w: usize,
    h: usize,
    k: usize,
    palette: &[u8],
    lab: &[f64],
    indices: &[i16],
    s: Selection,
    dx: i32,
    dy: i32,
    room: usize,
) -> u8
    ensures { (
        let sheet = sheet_of w h k palette.now lab.now indices.now in
        result ≡ first_of (move_checks sheet s dx dy room)
        ) }
{
    let no = check(w, h, k, palette, lab, indices);
    if no != 0 {
        return no;
    }
    let far = shift_no(s, dx, dy, w, h);
    if far != 0 {
        return far;
    }
    if room < indices.len() {
        return NO_SPACE;
    }
    0
}

// The rows that a move can change: from the first to the last of the selection's and of those that it lands on.
fn move_rows(s: Selection, dy: i32, h: usize) -> Span
    requires { (far dy ≡ false) × (s.y + s.h ≤ h) }
    ensures { MoveRows h s (landing s.y s.h (from_zero (dy +ℤ pos 65536)) h) result }
{
    let top = s.y as usize;
    let rows = s.h as usize;
    let to = landed_rows(landing_on(top, rows, dy, h), top);
    let first = top.min(to.start);
    let end = (top + rows).max(to.start + to.count);
    Span {
        start: first,
        count: end - first,
    }
}

// The changes of a move at the front of the scratch; answers how many they are. The selection is cleared first,
// then painted where it lands; `indices` keeps the picture as it was.
fn list_move(
    w: usize,
    h: usize,
    indices: &[i16],
    s: Selection,
    dx: i32,
    dy: i32,
    scratch: &mut [u64],
) -> usize
    requires { Movable w h indices.now s dx dy (length scratch.old) }
    ensures { Front (map packed (normalize_of (move_changes w h indices.now s dx dy))) scratch.new result }
{
    let rows = move_rows(s, dy, h);
    lay_rows(indices, w, rows.start, rows.count, scratch);
    clear_rows(
        scratch,
        w,
        s.x as usize,
        s.y as usize,
        s.w as usize,
        s.h as usize,
    );
    land(indices, w, s, dx, dy, w, h, scratch);
    differences(indices, w, rows.start, rows.count, scratch)
}

// The same, and none where the shift is 0.
fn list_moved(
    w: usize,
    h: usize,
    indices: &[i16],
    s: Selection,
    dx: i32,
    dy: i32,
    scratch: &mut [u64],
) -> usize
    requires { Movable w h indices.now s dx dy (length scratch.old) }
    ensures { Front (map packed (moved_list w h indices.now s dx dy)) scratch.new result }
{
    if is_unmoved(dx, dy) {
        return 0;
    }
    list_move(w, h, indices, s, dx, dy, scratch)
}

// The selection after a move: the old one where the shift is 0.
fn moved_selection(s: Selection, dx: i32, dy: i32, w: usize, h: usize) -> Chosen
    requires { first_of (shift_checks s dx dy w h) ≡ 0 }
    ensures { chosen_told result ≡ told (moved_selection s dx dy w h) }
{
    if is_unmoved(dx, dy) {
        return Chosen::Part(s);
    }
    s.translated(dx, dy, w, h)
}

// Moves the selection's contents by (dx, dy): transparency where they were, the moved indices where they land,
// clipped to the sheet. The changes are left at the front of the scratch for a
// buffer of `room` places.
pub fn move_selection_in(
    w: usize,
    h: usize,
    k: usize,
    palette: &[u8],
    lab: &[f64],
    indices: &[i16],
    s: Selection,
    dx: i32,
    dy: i32,
    scratch: &mut [u64],
    room: usize,
) -> Shifted
    ensures fact { (
        let sheet = sheet_of w h k palette.now lab.now indices.now in
        InScratch (shifted_count result) room scratch.new (left result)
        (move_call sheet s dx dy (length scratch.old))
        ) }
    ensures scratch_after { length scratch.new ≡ length scratch.old }
{
    let no = move_no(w, h, k, palette, lab, indices, s, dx, dy, scratch.len());
    if no != 0 {
        return Shifted::Refused(no);
    }
    let n = list_moved(w, h, indices, s, dx, dy, scratch);
    shifted_of(counted(n, room), moved_selection(s, dx, dy, w, h))
}

// The same at the front of out.
pub fn move_selection(
    w: usize,
    h: usize,
    k: usize,
    palette: &[u8],
    lab: &[f64],
    indices: &[i16],
    s: Selection,
    dx: i32,
    dy: i32,
    scratch: &mut [u64],
    out: &mut [u64],
) -> Shifted
    ensures fact { (
        let sheet = sheet_of w h k palette.now lab.now indices.now in
        left result out.new ≡ move_call sheet s dx dy (length scratch.old) out.old
        ) }
    ensures scratch_after { length scratch.new ≡ length scratch.old }
{
    let r = move_selection_in(
        w,
        h,
        k,
        palette,
        lab,
        indices,
        s,
        dx,
        dy,
        scratch,
        out.len(),
    );
    copy_out(scratch, shifted_count(r), out);
    r
}
