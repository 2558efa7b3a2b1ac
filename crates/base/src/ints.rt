// Signed numbers: the tests and the readings that loops and checks make of them, each with an equation on
// whole numbers, so that callers meet no bit pattern; and of what Rust gives every number, `min` and `max`.
ghost use Rattle.std.specs.Prelude.{◌≡◌, min, max};
ghost use Rattle.base.specs.Ints.{eq_z, far, from_zero, on_axis, up_to, min_z, max_z};

use crate::MAX_DISTANCE;

// Whether a and b are the same index.
#[tactic(auto, unfolding(crate::specs::Ints::eq_z))]
pub fn same(a: i16, b: i16) -> bool
    ensures { result ≡ eq_z a b }
{
    a == b
}

// Number 15 of a point's coordinate or a shift: beyond -65,536..65,536.
#[tactic(auto, unfolding(crate::specs::Ints::far))]
pub fn is_far(z: i32) -> bool
    ensures { result ≡ far z }
{
    z.unsigned_abs() > MAX_DISTANCE as u32
}

// A coordinate, or 0 where it is negative.
#[tactic(auto, unfolding(crate::specs::Ints::from_zero))]
pub fn from_zero(z: i32) -> usize
    ensures { result ≡ from_zero z }
{
    z.max(0) as usize
}

// A coordinate on an axis of `size` positions, or `size` where it is off the axis.
#[tactic(auto, unfolding(crate::specs::Ints::on_axis, crate::specs::Ints::from_zero))]
pub fn on_axis(z: i32, size: usize) -> usize
    ensures { result ≡ on_axis z size }
{
    let n = from_zero(z);
    if z < 0 {
        return size;
    }
    if n < size { n } else { size }
}

// How many coordinates there are from 0 to z, both included.
#[tactic(auto, unfolding(crate::specs::Ints::up_to))]
pub fn up_to(z: i32) -> usize
    ensures { result ≡ up_to z }
{
    if z < 0 { 0 } else { z as usize + 1 }
}

// Rust's `min` and `max`.
pub fn min_i32(a: i32, b: i32) -> i32
    ensures { result ≡ min_z a b }
{
    if b < a { b } else { a }
}

pub fn max_i32(a: i32, b: i32) -> i32
    ensures { result ≡ max_z a b }
{
    if a < b { b } else { a }
}

pub fn min_usize(a: usize, b: usize) -> usize
    ensures { result ≡ min a b }
{
    if b < a { b } else { a }
}

// Rust's `max`.
pub fn max_usize(a: usize, b: usize) -> usize
    ensures { result ≡ max a b }
{
    if a < b { b } else { a }
}
