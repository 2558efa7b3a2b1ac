// One axis of a rectangle in pixel coordinates, as a span of places; and the positions of a rectangle, row by row.
#![tactic(auto)]

ghost use Rattle.std.specs.Prelude.{◌≡◌, false, ◌*◌, ◌≤◌, length};
ghost use Rattle.base.specs.Lists.{over};
ghost use Rattle.base.specs.Ints.{far};
ghost use Rattle.selection_spans.specs.Spans.{between, in_span, moved, widened};
ghost use Rattle.selection_spans.specs.Positions.{row, rows, flat, RowFits};

use base::{from_zero, up_to};

// The places that a rectangle takes of one axis: count of them from start on.
#[derive(Clone, Copy)]
pub struct Span {
    pub start: usize,
    pub count: usize,
}

// Whether a place is one of count from start on.
#[tactic(auto, unfolding(crate::specs::Spans::in_span))]
pub fn in_span(start: u16, count: u16, at: usize) -> bool
    ensures { result ≡ in_span start count at }
{
    let from = start as usize;
    let end = from + count as usize;
    from <= at && at < end
}

// The places from a to b (both included, in any order) that an image's side has.
pub fn between(a: i32, b: i32, side: usize) -> Span
    ensures { result ≡ between a b side }
{
    let start = from_zero(a.min(b));
    let end = up_to(a.max(b)).min(side);
    Span {
        start,
        count: end.saturating_sub(start),
    }
}

// The places of a span moved by d that an image's side has.
pub fn shifted(start: u16, count: u16, d: i32, side: usize) -> Span
    requires { far d ≡ false }
    ensures { result ≡ moved start count d side }
{
    let a = start as i32 + d;
    let b = a + count as i32 - 1;
    between(a, b, side)
}

// The places of a span grown by margin on both ends that an image's side has.
#[tactic(auto, unfolding(crate::specs::Spans::widened))]
pub fn widened(start: u16, count: u16, margin: usize, side: usize) -> Span
    requires { margin ≤ 65536 }
    ensures { result ≡ widened start count margin side }
{
    let start = start as usize;
    let from = start.saturating_sub(margin);
    let end = (start + count as usize + margin).min(side);
    Span {
        start: from,
        count: end.saturating_sub(from),
    }
}

// Writes the positions of the rectangle x .. x + w by y .. y + h to the front of out, which has room for them.
pub fn write_rows(x: u16, y: u16, w: u16, h: u16, out: &mut [i32])
    requires { 2 * (w * h) ≤ length out.old }
    ensures { out.new ≡ over (flat (rows x w y h)) out.old }
{
    let x = x as usize;
    let y = y as usize;
    let w = w as usize;
    let h = h as usize;
    for j in 0..h {
        let at = 2 * (j * w);
        write_row(x, w, y + j, &mut out[at..]);
    }
}

// Writes the positions x .. x + w of row y to the front of out.
fn write_row(x: usize, w: usize, y: usize, out: &mut [i32])
    requires { RowFits x w y out.old }
    ensures { out.new ≡ over (flat (row x w y)) out.old }
{
    for i in 0..w {
        let at = 2 * i;
        out[at] = (x + i) as i32;
        out[at + 1] = y as i32;
    }
}
