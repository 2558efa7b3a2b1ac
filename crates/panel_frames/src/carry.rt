// What the bytes of a frame carry, copied out: an opening's palette and indices, and the changes of a pixel
// frame.
ghost use Rattle.std.specs.Prelude.{◌≡◌, map, ◌+◌, ◌*◌, ◌≤◌, length};
ghost use Rattle.base.specs.Lists.{over};
ghost use Rattle.edit.specs.Change.{unpacked};
ghost use Rattle.panel_frames.specs.Reading.{index_of, change_at, changes_from};

use crate::reading::two;
use edit::{NEW, ROW};

// The index that a byte is.
#[tactic(auto, unfolding(crate::specs::Reading::index_of))]
fn index_of(b: u8) -> i16
    ensures { result ≡ index_of b }
{
    if b == 255 { -1 } else { i16::from(b) }
}

// Copies the indices that bytes are to the front of `indices`.
pub fn take_indices(bytes: &[u8], indices: &mut [i16])
    requires { length bytes.now ≤ length indices.old }
    ensures { indices.new ≡ over (map index_of bytes.now) indices.old }
{
    for (i, b) in bytes.iter().enumerate() {
        indices[i] = index_of(*b);
    }
}

// The change that starts at byte i, as one number, with old 0.
fn change_at(bytes: &[u8], i: usize) -> u64
    requires { i + 6 ≤ length bytes.now }
    ensures { unpacked result ≡ change_at bytes.now i }
{
    let x = u64::from(two(bytes[i], bytes[i + 1]));
    let y = u64::from(two(bytes[i + 2], bytes[i + 3]));
    let new = u64::from(two(bytes[i + 4], bytes[i + 5]));
    x + ROW * y + NEW * new
}

// Copies the n changes of a pixel frame to the front of `list`.
pub fn take_changes(bytes: &[u8], n: usize, list: &mut [u64])
    requires n_in_bounds { 2 + 6 * n ≤ length bytes.now }
    requires n_in_bounds_2 { n ≤ length list.old }
    ensures { map unpacked list.new ≡ over (changes_from bytes.now 2 n) (map unpacked list.old) }
{
    for (i, change) in list[..n].iter_mut().enumerate() {
        *change = change_at(bytes, 2 + 6 * i);
    }
}
