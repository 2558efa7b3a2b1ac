// The rectangle.
ghost use Rattle.std.specs.Prelude.{◌≡◌, ◌||◌, ◌<◌, pos, length};
ghost use mathlib.Core.List.{flat_map};
ghost use Rattle.base.specs.Lists.{range};
ghost use Rattle.base.specs.Ints.{eq_z};
ghost use Rattle.selection.specs.Region.{Fits};
ghost use Rattle.tool_line.specs.Line.{point};
ghost use Rattle.tool_stamp.specs.Points.{rectangle_points};
ghost use Rattle.tool_stamp.specs.Places.{set_all, places_of, columns_of, part_places, frame_places, Row, Rows, AllEnd};

use base::{max_i32, min_i32};
use selection::Selection;
use tool_stamp::{Columns, Run, clip, paint_run};

// Whether all columns of row y are drawn: in a filled rectangle, and in its top row and its bottom row.
fn is_whole(filled: bool, y: usize, top: i32, bottom: i32) -> bool
    requires { y < 1024 }
    ensures { result ≡ filled || (eq_z (pos y) top || eq_z (pos y) bottom) }
{
    let at = y as i32;
    if filled {
        return true;
    }
    at == top || at == bottom
}

// The columns from x0 to x1 that lie from `from` on and below `end`.
fn columns(x0: i32, x1: i32, from: usize, end: usize) -> Columns
    ensures { result ≡ columns_of x0 x1 from end }
{
    Columns {
        all: clip(x0, x1, from, end),
        left: clip(x0, x0, from, end),
        right: last(x0, x1, from, end),
    }
}

// The last of them where it is another than the first.
fn last(x0: i32, x1: i32, from: usize, end: usize) -> Run
    ensures { result ≡ (columns_of x0 x1 from end).right }
{
    if x0 < x1 {
        return clip(x1, x1, from, end);
    }
    Run {
        start: end,
        count: 0,
    }
}

// Row y: all columns, or the first and the last.
fn paint_row(scratch: &mut [u64], w: usize, y: usize, whole: bool, x: Columns, v: u64)
    requires { Row w y (length scratch.old) × AllEnd x w }
    ensures { scratch.new ≡ set_all (part_places w whole x y) v scratch.old }
{
    let at = y * w;
    if whole {
        paint_run(scratch, at + x.all.start, x.all.count, v);
        return;
    }
    paint_run(scratch, at + x.left.start, x.left.count, v);
    paint_run(scratch, at + x.right.start, x.right.count, v);
}

// The rows of a rectangle that goes from the row `top` to the row `bottom`.
fn paint_rows(
    scratch: &mut [u64],
    w: usize,
    filled: bool,
    top: i32,
    bottom: i32,
    x: Columns,
    y: Run,
    v: u64,
)
    requires { Rows w y (length scratch.old) × AllEnd x w }
    ensures { scratch.new
        ≡ set_all (flat_map (frame_places w filled top bottom x) (range y.start y.count)) v scratch.old }
{
    let first = y.start;
    let rows = y.count;
    for j in 0..rows {
        let row = first + j;
        let whole = is_whole(filled, row, top, bottom);
        paint_row(scratch, w, row, whole, x, v);
    }
}

// The rectangle with corners a and b, as far as the region has it.
pub fn paint_rectangle(
    scratch: &mut [u64],
    w: usize,
    region: Selection,
    ax: i32,
    ay: i32,
    bx: i32,
    by: i32,
    filled: bool,
    v: u64,
)
    requires { Fits w (length scratch.old) region }
    ensures { scratch.new
        ≡ set_all (places_of region w (rectangle_points (point ax ay) (point bx by) filled)) v scratch.old }
{
    let left = region.x as usize;
    let above = region.y as usize;
    let x = columns(
        min_i32(ax, bx),
        max_i32(ax, bx),
        left,
        left + region.w as usize,
    );
    let top = min_i32(ay, by);
    let bottom = max_i32(ay, by);
    let y = clip(top, bottom, above, above + region.h as usize);
    paint_rows(scratch, w, filled, top, bottom, x, y, v);
}
