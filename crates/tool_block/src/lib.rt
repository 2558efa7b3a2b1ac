// Blocks of indices written on a picture that is laid out in the scratch.
#![tactic(auto)]

ghost use Rattle.std.specs.Prelude.{◌≡◌, false, List, ℕ, ◌+◌, ◌*◌, ◌≤◌, ◌<◌, ◌^◌, ℤ, negsuc, pos, ◌+ℤ◌, length, get_or};
ghost use Rattle.base.specs.Ints.{far, from_zero};
ghost use Rattle.selection.specs.Selection.{positions};
ghost use Rattle.edit.specs.Change.{painted, new_of};
ghost use Rattle.change_list.specs.Between.{laid_out};
ghost use Rattle.tool_paste_model.specs.Blocks.{written, block, source_at, landing, Lying, Rows, Lands, landed};

use base::{MAX_DISTANCE, from_zero};
use change_list::paint;
use selection::Selection;
use selection_spans::Span;
use tool_paste_model::Landing;

// Shifts are counted from the least one on, where no number has a sign.
const LEAST: usize = 65_536;

// n places cleared from `to` on.
fn clear_row(scratch: &mut [u64], to: usize, n: usize)
    requires { 0 < n → to + n ≤ length scratch.old }
    ensures { (p : ℕ) → laid_out p scratch.new ≡ written (λ i. negsuc 0) to n (laid_out p scratch.old) }
{
    for i in 0..n {
        paint(scratch, to + i, -1);
    }
}

// h rows of w places cleared, from column x and row y of a picture on.
pub fn clear_rows(scratch: &mut [u64], width: usize, x: usize, y: usize, w: usize, h: usize)
    requires { Rows width x y w h (length scratch.old) }
    ensures { (p : ℕ)
        → laid_out p scratch.new ≡ block (λ j i. negsuc 0) width x y w h (laid_out p scratch.old) }
{
    for j in 0..h {
        clear_row(scratch, (y + j) * width + x, w);
    }
}

// n indices of a source, from `from` on, written from `to` on.
fn write_row(source: &[i16], from: usize, scratch: &mut [u64], to: usize, n: usize)
    requires { 0 < n → (from + n ≤ length source.now) × (to + n ≤ length scratch.old) }
    ensures { (p : ℕ) → laid_out p scratch.new
        ≡ written (λ i. get_or source.now (from + i) (pos 0)) to n (laid_out p scratch.old) }
{
    for i in 0..n {
        paint(scratch, to + i, source[from + i]);
    }
}

// The part of a source that lands on a picture, written there.
fn write_rows(
    source: &[i16],
    source_w: usize,
    scratch: &mut [u64],
    width: usize,
    x: Landing,
    y: Landing,
)
    requires { Rows source_w x.from y.from x.count y.count (length source.now)
        × Rows width x.to y.to x.count y.count (length scratch.old) }
    ensures { (p : ℕ) → laid_out p scratch.new
        ≡ block (source_at source.now source_w x.from y.from) width x.to y.to x.count
        y.count (laid_out p scratch.old) }
{
    for j in 0..y.count {
        write_row(
            source,
            (y.from + j) * source_w + x.from,
            scratch,
            (y.to + j) * width + x.to,
            x.count,
        );
    }
}

// A shift, counted from the least one on.
fn offset(d: i32) -> usize
    requires { far d ≡ false }
    ensures { result ≡ from_zero (d +ℤ pos 65536) }
{
    from_zero(d + MAX_DISTANCE)
}

// Where count places from start on land on an axis of `side` places, moved by d.
pub fn landing_on(start: usize, count: usize, d: i32, side: usize) -> Landing
    requires { (far d ≡ false) × (start < 2 ^ 16) × (count < 2 ^ 16) }
    ensures { result ≡ landing start count (from_zero (d +ℤ pos 65536)) side }
{
    let first = start + offset(d);
    let to = first.saturating_sub(LEAST);
    let end = (first + count).saturating_sub(LEAST).min(side);
    Landing {
        from: start + LEAST.saturating_sub(first),
        to,
        count: end.saturating_sub(to),
    }
}

// The rows that something lands on, and `other` as their start where nothing lands.
pub fn landed_rows(y: Landing, other: usize) -> Span
    ensures { Lying y other result }
{
    if y.count == 0 {
        return Span {
            start: other,
            count: 0,
        };
    }
    Span {
        start: y.to,
        count: y.count,
    }
}

// The rectangle s of a source, moved by (dx, dy), written on the part of a sheet that it lands on.
pub fn land(
    source: &[i16],
    source_w: usize,
    s: Selection,
    dx: i32,
    dy: i32,
    w: usize,
    h: usize,
    scratch: &mut [u64],
)
    requires { Lands w h source_w s dx dy (length source.now) (length scratch.old) }
    ensures { (p : ℕ) (l : List ℤ) → laid_out p scratch.new
        ≡ painted new_of w (landed w h l source_w source.now dx dy (positions s))
        (laid_out p scratch.old) }
{
    let x = landing_on(s.x as usize, s.w as usize, dx, w);
    let y = landing_on(s.y as usize, s.h as usize, dy, h);
    write_rows(source, source_w, scratch, w, x, y);
}
