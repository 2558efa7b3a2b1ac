// Steps of a line without a walk: where step j stands, and at which steps one axis stands between two places.
//
// An axis goes toward its end and never back, and the closed form says how far it is at each step. So the steps
// between two places lie side by side, and a division finds the first of them.
ghost use Rattle.std.specs.Prelude.{◌≡◌, false, ℕ, ◌<◌, ◌≤◌, leb};
ghost use Rattle.base.specs.Ints.{far};
ghost use Rattle.tool_line.specs.Line.{point, Near, toward, offset, longer};
ghost use Rattle.tool_line.specs.Walk.{axis_at, StandsAt};
ghost use Rattle.tool_line.specs.Steps.{OfLine, place_on, among, lies_in, Bound};

use crate::along::{direction, half, longer, side};
use crate::{Axis, Steps, Walk};
use base::{from_zero, up_to};

// At step j of the line from a to b; j is not its last step.
pub fn stand_at(ax: i32, ay: i32, bx: i32, by: i32, j: usize) -> Walk
    requires { Near (point ax ay) × Near (point bx by) × (j < longer (point ax ay) (point bx by)) }
    ensures { StandsAt (point ax ay) (point bx by) j result }
{
    let steps = longer(ax, ay, bx, by);
    Walk {
        x: axis_at(ax, bx, steps, j),
        y: axis_at(ay, by, steps, j),
        steps: steps,
    }
}

// One axis at step j of a line whose longer side is m.
fn axis_at(a: i32, b: i32, m: usize, j: usize) -> Axis
    requires { OfLine a b m × (j < m) }
    ensures { result ≡ axis_at a b m j }
{
    let n = side(a, b);
    let sum = 2 * (j * n) + half(a, b, m);
    Axis {
        at: toward(a, b, sum / (2 * m)),
        step: direction(a, b),
        side: n,
        rest: sum % (2 * m),
    }
}

// k places from a toward b.
fn toward(a: i32, b: i32, k: usize) -> i32
    requires { (far a ≡ false) × (k ≤ 131072) }
    ensures { result ≡ toward a b k }
{
    if b < a {
        return a - k as i32;
    }
    a + k as i32
}

// The steps at which one axis of a line stands from lo on and below hi; m is the line's longer side.
pub fn steps_within(a: i32, b: i32, m: usize, lo: i32, hi: i32) -> Steps
    requires { OfLine a b m × Bound lo × Bound hi }
    ensures { (j : ℕ) → j ≤ m → among result j ≡ lies_in lo hi (place_on a b m j) }
{
    if b < a {
        return Steps {
            first: first_step(a, b, m, up_to(a - hi)),
            end: first_step(a, b, m, up_to(a - lo)),
        };
    }
    Steps {
        first: first_step(a, b, m, from_zero(lo - a)),
        end: first_step(a, b, m, from_zero(hi - a)),
    }
}

// The first step at which one axis is k places from its start, or a step past the last where it never is.
fn first_step(a: i32, b: i32, m: usize, k: usize) -> usize
    requires { OfLine a b m }
    ensures { (j : ℕ) → j ≤ m → leb result j ≡ leb k (offset a b m j) }
{
    let n = side(a, b);
    if k == 0 {
        return 0;
    }
    if n < k {
        return m + 1;
    }
    (2 * (k * m) - half(a, b, m) + 2 * n - 1) / (2 * n)
}
