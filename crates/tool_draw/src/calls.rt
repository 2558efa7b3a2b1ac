// The calls: their checks, and the rows that a tool can reach laid out, painted and compared.
ghost use Rattle.std.specs.Prelude.{◌≡◌, List, map, ◌%◌, length};
ghost use Rattle.base.specs.Checks.{Check, first_of};
ghost use Rattle.base.specs.Lists.{some};
ghost use Rattle.base.specs.Ints.{far};
ghost use Rattle.sheet.specs.Sheet.{sheet_of};
ghost use Rattle.tool_line.specs.Line.{point};
ghost use Rattle.edit.specs.Change.{packed};
ghost use Rattle.change_list.specs.Between.{laid_out, between_rows, HasRows};
ghost use Rattle.change_list.specs.Listed.{handed, count_of, InScratch};
ghost use Rattle.tool_stamp.specs.Given.{corner_checks, point_checks};
ghost use Rattle.tool_draw.specs.Calls.{leaves, stage_of, pencil_call, eraser_call, line_call, rectangle_call};

use crate::Stage;
use base::{
    BAD_SHEET, Counted, LIST_TOO_LONG, MAX_CHANGES, NO_SPACE, OFF_THE_SHEET, TOO_FAR, either,
    is_far,
};
use change_list::{copy_out, count_of, counted, differences, lay_rows};
use edit_pixels::bits_of;
use selection::{Area, Chosen, region};
use sheet::check;
use tool_brush::{paint_path, paint_rectangle, paint_two};
use tool_line::far_point;
use tool_reach::{line_rows, path_rows, rectangle_rows};
use tool_stamp::{Run, clamp};

// The region to draw in, or the number of the first of 1 to 3, `no`, 5 and the scratch's 16 that applies; `no`
// is what the points are refused with, or 0.
fn stage(
    w: usize,
    h: usize,
    k: usize,
    palette: &[u8],
    lab: &[f64],
    indices: &[i16],
    no: u8,
    area: Area,
    room: usize,
) -> Stage
    ensures { (given : List Check) → no ≡ first_of given
        → result ≡ stage_of (sheet_of w h k palette.now lab.now indices.now) given area room }
{
    let first = check(w, h, k, palette, lab, indices);
    if first != 0 {
        return Stage::Refused(first);
    }
    if no != 0 {
        return Stage::Refused(no);
    }
    let Chosen::Part(s) = region(area, w, h) else {
        return Stage::Refused(OFF_THE_SHEET);
    };
    if room < indices.len() {
        return Stage::Refused(NO_SPACE);
    }
    Stage::Canvas(s)
}

// The end of each call: the changes of some rows from the picture to the one that is painted in the scratch, left at
// its front for a buffer of `room` places; 16 where that has fewer.
fn finish(indices: &[i16], w: usize, rows: Run, scratch: &mut [u64], room: usize) -> Counted
    requires { HasRows w rows.start rows.count (length indices.now) (length scratch.old) }
    ensures { InScratch (count_of result) room scratch.new (leaves result)
        (handed (map packed (between_rows w rows.start rows.count indices.now
        (laid_out (length indices.now) scratch.old)))) }
{
    let n = differences(indices, w, rows.start, rows.count, scratch);
    counted(n, room)
}

// Number 15 of two corners, or 0.
fn corners_no(ax: i32, ay: i32, bx: i32, by: i32) -> u8
    ensures { result ≡ first_of (corner_checks (point ax ay) (point bx by)) }
{
    if far_point(ax, ay) {
        return TOO_FAR;
    }
    if far_point(bx, by) {
        return TOO_FAR;
    }
    0
}

// Whether a number lies beyond the limit. The scan has no early exit.
fn any_far(points: &[i32]) -> bool
    ensures { result ≡ some far points.now }
{
    let mut bad = false;
    for z in points {
        bad = either(bad, is_far(*z));
    }
    bad
}

// 21 or 15 of a list of points, or 0.
fn points_no(points: &[i32]) -> u8
    requires { length points.now % 2 ≡ 0 }
    ensures { result ≡ first_of (point_checks points.now) }
{
    if MAX_CHANGES < points.len() / 2 {
        return LIST_TOO_LONG;
    }
    if any_far(points) {
        return TOO_FAR;
    }
    0
}

// Paints `index` with a square brush along points, which are lent as x then y; a list of an odd length is 1. The
// brush is clamped to 1 to 8.
// The changes are left at the front of the scratch for a buffer of `room` places.
pub fn pencil_in(
    w: usize,
    h: usize,
    k: usize,
    palette: &[u8],
    lab: &[f64],
    indices: &[i16],
    area: Area,
    points: &[i32],
    size: usize,
    index: i16,
    scratch: &mut [u64],
    room: usize,
) -> Counted
    ensures fact { let sheet = sheet_of w h k palette.now lab.now indices.now in
        InScratch (count_of result) room scratch.new (leaves result)
        (pencil_call sheet area points.now size index (length scratch.old)) }
    ensures scratch_len_unchanged { length scratch.new ≡ length scratch.old }
{
    if points.len() % 2 != 0 {
        return Counted::Refused(BAD_SHEET);
    }
    let no = points_no(points);
    match stage(w, h, k, palette, lab, indices, no, area, scratch.len()) {
        Stage::Canvas(s) => {
            let v = bits_of(index) as u64;
            let brush = clamp(size);
            let rows = path_rows(points, s, brush);
            lay_rows(indices, w, rows.start, rows.count, scratch);
            paint_path(points, scratch, w, s, brush, v);
            finish(indices, w, rows, scratch, room)
        }
        Stage::Refused(n) => Counted::Refused(n),
    }
}

// The same at the front of out.
pub fn pencil(
    w: usize,
    h: usize,
    k: usize,
    palette: &[u8],
    lab: &[f64],
    indices: &[i16],
    area: Area,
    points: &[i32],
    size: usize,
    index: i16,
    scratch: &mut [u64],
    out: &mut [u64],
) -> Counted
    ensures out_after { let sheet = sheet_of w h k palette.now lab.now indices.now in
        leaves result out.new
        ≡ pencil_call sheet area points.now size index (length scratch.old) out.old }
    ensures scratch_len_unchanged { length scratch.new ≡ length scratch.old }
{
    let r = pencil_in(
        w,
        h,
        k,
        palette,
        lab,
        indices,
        area,
        points,
        size,
        index,
        scratch,
        out.len(),
    );
    copy_out(scratch, count_of(r), out);
    r
}

// The pencil with transparency. The changes are left at the front of the scratch for a buffer of `room` places.
pub fn eraser_in(
    w: usize,
    h: usize,
    k: usize,
    palette: &[u8],
    lab: &[f64],
    indices: &[i16],
    area: Area,
    points: &[i32],
    size: usize,
    scratch: &mut [u64],
    room: usize,
) -> Counted
    ensures fact { let sheet = sheet_of w h k palette.now lab.now indices.now in
        InScratch (count_of result) room scratch.new (leaves result)
        (eraser_call sheet area points.now size (length scratch.old)) }
    ensures scratch_len_unchanged { length scratch.new ≡ length scratch.old }
{
    pencil_in(
        w, h, k, palette, lab, indices, area, points, size, -1, scratch, room,
    )
}

// The same at the front of out.
pub fn eraser(
    w: usize,
    h: usize,
    k: usize,
    palette: &[u8],
    lab: &[f64],
    indices: &[i16],
    area: Area,
    points: &[i32],
    size: usize,
    scratch: &mut [u64],
    out: &mut [u64],
) -> Counted
    ensures out_after { let sheet = sheet_of w h k palette.now lab.now indices.now in
        leaves result out.new
        ≡ eraser_call sheet area points.now size (length scratch.old) out.old }
    ensures scratch_len_unchanged { length scratch.new ≡ length scratch.old }
{
    let r = eraser_in(
        w,
        h,
        k,
        palette,
        lab,
        indices,
        area,
        points,
        size,
        scratch,
        out.len(),
    );
    copy_out(scratch, count_of(r), out);
    r
}

// The line from a to b with the brush.
// The changes are left at the front of the scratch for a buffer of `room` places.
pub fn line_in(
    w: usize,
    h: usize,
    k: usize,
    palette: &[u8],
    lab: &[f64],
    indices: &[i16],
    area: Area,
    ax: i32,
    ay: i32,
    bx: i32,
    by: i32,
    size: usize,
    index: i16,
    scratch: &mut [u64],
    room: usize,
) -> Counted
    ensures fact { let sheet = sheet_of w h k palette.now lab.now indices.now in
        InScratch (count_of result) room scratch.new (leaves result)
        (line_call sheet area (point ax ay) (point bx by) size index (length scratch.old)) }
    ensures scratch_len_unchanged { length scratch.new ≡ length scratch.old }
{
    let no = corners_no(ax, ay, bx, by);
    match stage(w, h, k, palette, lab, indices, no, area, scratch.len()) {
        Stage::Canvas(s) => {
            let v = bits_of(index) as u64;
            let brush = clamp(size);
            let rows = line_rows(s, brush, ay, by);
            lay_rows(indices, w, rows.start, rows.count, scratch);
            paint_two(scratch, w, s, brush, ax, ay, bx, by, v);
            finish(indices, w, rows, scratch, room)
        }
        Stage::Refused(n) => Counted::Refused(n),
    }
}

// The same at the front of out.
pub fn line(
    w: usize,
    h: usize,
    k: usize,
    palette: &[u8],
    lab: &[f64],
    indices: &[i16],
    area: Area,
    ax: i32,
    ay: i32,
    bx: i32,
    by: i32,
    size: usize,
    index: i16,
    scratch: &mut [u64],
    out: &mut [u64],
) -> Counted
    ensures out_after { let sheet = sheet_of w h k palette.now lab.now indices.now in
        leaves result out.new
        ≡ line_call sheet area (point ax ay) (point bx by) size index (length scratch.old) out.old }
    ensures scratch_len_unchanged { length scratch.new ≡ length scratch.old }
{
    let r = line_in(
        w,
        h,
        k,
        palette,
        lab,
        indices,
        area,
        ax,
        ay,
        bx,
        by,
        size,
        index,
        scratch,
        out.len(),
    );
    copy_out(scratch, count_of(r), out);
    r
}

// The rectangle with corners a and b, both included: its four edges, or every pixel inside with `filled`.
// The changes are left at the front of the scratch for a buffer of `room` places.
pub fn rectangle_in(
    w: usize,
    h: usize,
    k: usize,
    palette: &[u8],
    lab: &[f64],
    indices: &[i16],
    area: Area,
    ax: i32,
    ay: i32,
    bx: i32,
    by: i32,
    filled: bool,
    index: i16,
    scratch: &mut [u64],
    room: usize,
) -> Counted
    ensures fact { let sheet = sheet_of w h k palette.now lab.now indices.now in
        InScratch (count_of result) room scratch.new (leaves result)
        (rectangle_call sheet area (point ax ay) (point bx by) filled index (length scratch.old)) }
    ensures scratch_len_unchanged { length scratch.new ≡ length scratch.old }
{
    let no = corners_no(ax, ay, bx, by);
    match stage(w, h, k, palette, lab, indices, no, area, scratch.len()) {
        Stage::Canvas(s) => {
            let v = bits_of(index) as u64;
            let rows = rectangle_rows(s, ay, by);
            lay_rows(indices, w, rows.start, rows.count, scratch);
            paint_rectangle(scratch, w, s, ax, ay, bx, by, filled, v);
            finish(indices, w, rows, scratch, room)
        }
        Stage::Refused(n) => Counted::Refused(n),
    }
}

// The same at the front of out.
pub fn rectangle(
    w: usize,
    h: usize,
    k: usize,
    palette: &[u8],
    lab: &[f64],
    indices: &[i16],
    area: Area,
    ax: i32,
    ay: i32,
    bx: i32,
    by: i32,
    filled: bool,
    index: i16,
    scratch: &mut [u64],
    out: &mut [u64],
) -> Counted
    ensures out_after { let sheet = sheet_of w h k palette.now lab.now indices.now in
        leaves result out.new
        ≡ rectangle_call sheet area (point ax ay) (point bx by) filled index (length scratch.old)
        out.old }
    ensures scratch_len_unchanged { length scratch.new ≡ length scratch.old }
{
    let r = rectangle_in(
        w,
        h,
        k,
        palette,
        lab,
        indices,
        area,
        ax,
        ay,
        bx,
        by,
        filled,
        index,
        scratch,
        out.len(),
    );
    copy_out(scratch, count_of(r), out);
    r
}
