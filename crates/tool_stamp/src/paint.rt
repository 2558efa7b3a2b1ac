// Places painted in the scratch, in rows of width w.
ghost use Rattle.std.specs.Prelude.{◌≡◌, ◌+◌, ◌≤◌, length};
ghost use Rattle.base.specs.Lists.{range};
ghost use Rattle.tool_stamp.specs.Places.{set_all, clipped, box_places, Rows, Ends};

use crate::Run;
use base::{from_zero, up_to};

// What lies of `a..=b` from `from` on and below `end`.
pub fn clip(a: i32, b: i32, from: usize, end: usize) -> Run
    ensures { result ≡ clipped a b from end }
{
    let start = from_zero(a).max(from).min(end);
    let stop = up_to(b).min(end);
    Run {
        start,
        count: stop.saturating_sub(start),
    }
}

// v at each of count places from `at` on.
pub fn paint_run(scratch: &mut [u64], at: usize, count: usize, v: u64)
    requires { at + count ≤ length scratch.old }
    ensures { scratch.new ≡ set_all (range at count) v scratch.old }
{
    for i in 0..count {
        scratch[at + i] = v;
    }
}

// v at the places of these columns and rows.
pub fn paint_box(scratch: &mut [u64], w: usize, x: Run, y: Run, v: u64)
    requires { Rows w y (length scratch.old) × Ends x w }
    ensures { scratch.new ≡ set_all (box_places w x y) v scratch.old }
{
    let first = y.start;
    let rows = y.count;
    for j in 0..rows {
        paint_run(scratch, (first + j) * w + x.start, x.count, v);
    }
}
