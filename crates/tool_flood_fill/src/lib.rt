// The flood fill as a call: `flood_fill` of tools.rs.
#![tactic(auto)]

ghost use Rattle.std.specs.Prelude.{◌≡◌, false, map, ◌≤◌, length};
ghost use Rattle.base.specs.Answer.{filled};
ghost use Rattle.base.specs.Ints.{far};
ghost use Rattle.selection.specs.Selection.{contains_i};
ghost use Rattle.sheet.specs.Sheet.{sheet_of};
ghost use Rattle.edit.specs.Change.{packed};
ghost use Rattle.change_list.specs.Fronts.{Front};
ghost use Rattle.change_list.specs.Listed.{count_of, InScratch};
ghost use Rattle.selection.specs.Region.{off_sheet, region_in};
ghost use Rattle.tool_fill_model.specs.Fill.{fill_of, flood_fill_of, Fillable, Ready};

use base::{Counted, NO_SPACE, OFF_THE_SHEET, TOO_FAR, from_zero, is_far, same};
use change_list::{copy_out, count_of, counted};
use selection::{Area, Chosen, Held, Selection, region};
use sheet::check;
use tool_flood::flood_in;

// The changes that fill the area of the index at (x, y) inside the selection with another, row by row; none where
// the point is outside, or has that index. The scratch has a place for each of the sheet's, or the answer is 16;
// its contents are free. They are left at its front for a buffer of `room` places; 16 where that has fewer.
pub fn flood_fill_in(
    w: usize,
    h: usize,
    k: usize,
    palette: &[u8],
    lab: &[f64],
    indices: &[i16],
    area: Area,
    x: i32,
    y: i32,
    index: i16,
    scratch: &mut [u64],
    room: usize,
) -> Counted
    ensures fact { let sheet = sheet_of w h k palette.now lab.now indices.now in
        InScratch (count_of result) room scratch.new (filled result)
        (flood_fill_of sheet area x y index (length scratch.old)) }
    ensures scratch_len_unchanged { length scratch.new ≡ length scratch.old }
{
    let no = fill_no(w, h, k, palette, lab, indices, area, x, y, scratch.len());
    if no != 0 {
        return Counted::Refused(no);
    }
    let region = region_in(area, w, h);
    let n = fill_in(w, h, indices, region, x, y, index, scratch);
    counted(n, room)
}

// The same at the front of out. What lies past the result keeps its bits, and so does all of out where it has no
// room for them: 16.
pub fn flood_fill(
    w: usize,
    h: usize,
    k: usize,
    palette: &[u8],
    lab: &[f64],
    indices: &[i16],
    area: Area,
    x: i32,
    y: i32,
    index: i16,
    scratch: &mut [u64],
    out: &mut [u64],
) -> Counted
    ensures out_after { let sheet = sheet_of w h k palette.now lab.now indices.now in
        filled result out.new ≡ flood_fill_of sheet area x y index (length scratch.old) out.old }
    ensures scratch_len_unchanged { length scratch.new ≡ length scratch.old }
{
    let r = flood_fill_in(
        w,
        h,
        k,
        palette,
        lab,
        indices,
        area,
        x,
        y,
        index,
        scratch,
        out.len(),
    );
    copy_out(scratch, count_of(r), out);
    r
}

// The number of the first of 1 to 3, 15, 5 and the scratch's 16 that applies, or 0.
fn fill_no(
    w: usize,
    h: usize,
    k: usize,
    palette: &[u8],
    lab: &[f64],
    indices: &[i16],
    area: Area,
    x: i32,
    y: i32,
    room: usize,
) -> u8
    ensures { let sheet = sheet_of w h k palette.now lab.now indices.now in
        Fillable sheet area x y room result }
{
    let no = check(w, h, k, palette, lab, indices);
    if no != 0 {
        return no;
    }
    if is_far(x) {
        return TOO_FAR;
    }
    if is_far(y) {
        return TOO_FAR;
    }
    if off_sheet(area, w, h) {
        return OFF_THE_SHEET;
    }
    if room < indices.len() {
        return NO_SPACE;
    }
    0
}

// Number 5 of what a tool is given.
fn off_sheet(area: Area, w: usize, h: usize) -> bool
    requires { (w ≤ 1024) × (h ≤ 1024) }
    ensures { result ≡ off_sheet area w h }
{
    match region(area, w, h) {
        Chosen::Part(_) => false,
        Chosen::Nothing => false,
        Chosen::Refused(_) => true,
    }
}

// The rectangle that a tool works in.
fn region_in(area: Area, w: usize, h: usize) -> Selection
    requires { (w ≤ 1024) × (h ≤ 1024) }
    ensures { result ≡ region_in area w h }
{
    match area {
        Area::Whole => Selection {
            x: 0,
            y: 0,
            w: w as u16,
            h: h as u16,
        },
        Area::Part(s) => s,
    }
}

// Whether a point that is not too far is in a rectangle.
fn holds(region: Selection, x: i32, y: i32) -> bool
    requires { (far x ≡ false) × (far y ≡ false) }
    ensures { result ≡ contains_i region x y }
{
    match region.contains_i(x, y) {
        Held::Inside => true,
        Held::Outside => false,
        Held::Refused(_) => false,
    }
}

// The changes of a fill, left at the front of the scratch; answers how many they are.
fn fill_in(
    w: usize,
    h: usize,
    indices: &[i16],
    region: Selection,
    x: i32,
    y: i32,
    index: i16,
    scratch: &mut [u64],
) -> usize
    requires { Ready w h indices.now region x y (length scratch.old) }
    ensures { Front (map packed (fill_of w indices.now region x y index)) scratch.new result }
{
    if !holds(region, x, y) {
        return 0;
    }
    let start = from_zero(y) * w + from_zero(x);
    if same(indices[start], index) {
        return 0;
    }
    flood_in(w, indices, region, start, index, scratch)
}
