// The fills of tools.rs that look at every pixel of a region: `replace_color` and `fill_global`. A call
// makes the list of its changes, in rows, and changes no sheet.
//
// The changes are counted before the first is written, so that a buffer that is too short keeps its bits.
#![tactic(auto)]

ghost use Rattle.std.specs.Prelude.{◌≡◌, [], map, ◌≤◌, length};
ghost use Rattle.base.specs.Answer.{filled};
ghost use Rattle.base.specs.Lists.{over, kept};
ghost use Rattle.sheet.specs.Sheet.{sheet_of};
ghost use Rattle.selection.specs.Selection.{positions};
ghost use Rattle.selection.specs.Region.{Fits};
ghost use Rattle.edit.specs.Change.{packed};
ghost use Rattle.tool_fill_model.specs.Fills.{has_index, replacing, replaced, listed, replace_color_of, fill_global_of};

use base::{Counted, NO_SPACE, OFF_THE_SHEET, TOO_FAR, from_zero, is_far, same};
use edit_pixels::{change_of, count_on, list_row};
use selection::{Area, Chosen, Held, Selection, region};
use sheet::check;

// How many pixels of a region have the index.
fn count_rows(w: usize, indices: &[i16], s: Selection, from: i16) -> usize
    requires { Fits w (length indices.now) s }
    ensures { result ≡ length (kept (has_index w indices.now from) (positions s)) }
{
    let x = s.x as usize;
    let y = s.y as usize;
    let width = s.w as usize;
    let height = s.h as usize;
    let mut n: usize = 0;
    for j in 0..height {
        let at = (y + j) * w + x;
        let end = at + width;
        n += count_on(&indices[at..end], from);
    }
    n
}

// Lists the changes of a region's pixels that have the index, row by row. What the list has past them
// keeps.
fn list_rows(w: usize, indices: &[i16], s: Selection, from: i16, to: i16, out: &mut [u64])
    requires { Fits w (length indices.now) s
        × (length (kept (has_index w indices.now from) (positions s)) ≤ length out.old) }
    ensures { out.new
        ≡ over (map packed (map (replacing from to) (kept (has_index w indices.now from) (positions s))))
        out.old }
{
    let x = s.x as usize;
    let y = s.y as usize;
    let width = s.w as usize;
    let height = s.h as usize;
    let mut n: usize = 0;
    for j in 0..height {
        let at = (y + j) * w + x;
        let end = at + width;
        let first = change_of(x, y + j, from, to);
        n += list_row(&indices[at..end], from, first, &mut out[n..]);
    }
}

// The changes that replace an index in a region; 16 where the buffer is shorter than they are.
fn replace_in(
    w: usize,
    indices: &[i16],
    s: Selection,
    from: i16,
    to: i16,
    out: &mut [u64],
) -> Counted
    requires { Fits w (length indices.now) s }
    ensures { filled result out.new ≡ listed [] (replaced w indices.now s from to) out.old }
{
    if same(from, to) {
        return Counted::Count(0);
    }
    let count = count_rows(w, indices, s, from);
    if out.len() < count {
        return Counted::Refused(NO_SPACE);
    }
    list_rows(w, indices, s, from, to, out);
    Counted::Count(count)
}

// Replace colour: every pixel of index `from` inside the selection (or the image) becomes `to`.
pub fn replace_color(
    w: usize,
    h: usize,
    k: usize,
    palette: &[u8],
    lab: &[f64],
    indices: &[i16],
    area: Area,
    from: i16,
    to: i16,
    out: &mut [u64],
) -> Counted
    ensures { let sheet = sheet_of w h k palette.now lab.now indices.now in
        filled result out.new ≡ replace_color_of sheet area from to out.old }
{
    let no = check(w, h, k, palette, lab, indices);
    if no != 0 {
        return Counted::Refused(no);
    }
    let Chosen::Part(s) = region(area, w, h) else {
        return Counted::Refused(OFF_THE_SHEET);
    };
    replace_in(w, indices, s, from, to, out)
}

// Global fill: every pixel of the index at (x, y), inside the selection, becomes `index`. No changes where
// the position is outside the image or the selection.
pub fn fill_global(
    w: usize,
    h: usize,
    k: usize,
    palette: &[u8],
    lab: &[f64],
    indices: &[i16],
    area: Area,
    x: i32,
    y: i32,
    index: i16,
    out: &mut [u64],
) -> Counted
    ensures { let sheet = sheet_of w h k palette.now lab.now indices.now in
        filled result out.new ≡ fill_global_of sheet area x y index out.old }
{
    let no = check(w, h, k, palette, lab, indices);
    if no != 0 {
        return Counted::Refused(no);
    }
    if is_far(x) {
        return Counted::Refused(TOO_FAR);
    }
    if is_far(y) {
        return Counted::Refused(TOO_FAR);
    }
    let Chosen::Part(s) = region(area, w, h) else {
        return Counted::Refused(OFF_THE_SHEET);
    };
    let Held::Inside = s.contains_i(x, y) else {
        return Counted::Count(0);
    };
    let at = from_zero(y) * w + from_zero(x);
    let from = indices[at];
    replace_in(w, indices, s, from, index, out)
}
