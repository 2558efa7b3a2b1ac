// A change as makers hold it: a struct of four fields. The calls over lent slices of them stand in the crates
// above; here is what they do with one, and with a slice.
#![tactic(auto)]

mod slices;

ghost use Rattle.std.specs.Prelude.{◌≡◌};
ghost use Rattle.struct_change.specs.Struct.{packed_of, struct_of};

use base::Change;
use edit_pixels::{change_of, column, new_of, old_of, row};
pub use slices::{any_outside, copy_front, no_room, pack, unpack};

// The change as one number of 64 bits, as the core takes it.
pub fn packed(c: Change) -> u64
    ensures { result ≡ packed_of c }
{
    change_of(c.x as usize, c.y as usize, c.old, c.new)
}

// The struct of such a number.
#[tactic(auto, unfolding(edit::specs::Change::unpacked))]
pub fn unpacked(c: u64) -> Change
    ensures { result ≡ struct_of c }
{
    Change {
        x: column(c) as u16,
        y: row(c) as u16,
        old: old_of(c),
        new: new_of(c),
    }
}
