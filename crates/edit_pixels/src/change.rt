// One change, a number of 64 bits: from its lowest bits on, column, row, old index and new index, 16 bits
// each. The indices are in two's complement.
ghost use Rattle.std.specs.Prelude.{◌≡◌, ◌^◌, ◌<◌, length};
ghost use Rattle.std.specs.Int.{w16};
ghost use Rattle.std.proofs.Common.{to_z, of_z};
ghost use Rattle.edit.specs.Change.{unpacked, place, outside, new_of, old_of, filled_in};

use base::either;
use edit::{NEW, OLD, PART, ROW};

// The 16 bits of an index.
pub fn bits_of(z: i16) -> u16
    ensures { result ≡ of_z w16 z }
{
    z.cast_unsigned()
}

// The index that 16 bits are.
pub fn index_of(bits: u16) -> i16
    ensures { result ≡ to_z w16 bits }
{
    bits.cast_signed()
}

// A change's column.
#[tactic(auto, unfolding(edit::specs::Change::unpacked))]
pub fn column(c: u64) -> usize
    ensures { result ≡ (unpacked c).x }
{
    (c % PART) as usize
}

// A change's row.
#[tactic(auto, unfolding(edit::specs::Change::unpacked))]
pub fn row(c: u64) -> usize
    ensures { result ≡ (unpacked c).y }
{
    (c / ROW % PART) as usize
}

// A change's old index.
#[tactic(auto, unfolding(edit::specs::Change::unpacked))]
pub fn old_of(c: u64) -> i16
    ensures { result ≡ old_of (unpacked c) }
{
    ((c / OLD % PART) as u16).cast_signed()
}

// A change's new index.
#[tactic(auto, unfolding(edit::specs::Change::unpacked))]
pub fn new_of(c: u64) -> i16
    ensures { result ≡ new_of (unpacked c) }
{
    ((c / NEW % PART) as u16).cast_signed()
}

// Where a change stands in the rows of a sheet of width w.
pub fn place_of(w: usize, c: u64) -> usize
    requires { place w (unpacked c) < 2 ^ 64 }
    ensures { result ≡ place w (unpacked c) }
{
    let x = column(c);
    let y = row(c);
    y * w + x
}

// Number 5 of a change: whether it is off a sheet of w by h.
#[tactic(auto, unfolding(edit::specs::Change::outside))]
pub fn is_outside(w: usize, h: usize, c: u64) -> bool
    ensures { result ≡ outside w h (unpacked c) }
{
    either(w <= column(c), h <= row(c))
}

// The change with the picture's index as its old.
pub fn filled_in(indices: &[i16], w: usize, c: u64) -> u64
    requires { place w (unpacked c) < length indices.now }
    ensures { unpacked result ≡ filled_in w indices.now (unpacked c) }
{
    let p = place_of(w, c);
    let old = u64::from(indices[p].cast_unsigned());
    c % OLD + OLD * old + NEW * (c / NEW)
}
