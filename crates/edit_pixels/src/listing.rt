// The pixels of one index among those of a row: how many there are, and the list of the changes that
// replace them.
ghost use Rattle.std.specs.Prelude.{◌≡◌, map, ◌+◌, ◌^◌, ◌<◌, ◌≤◌, length};
ghost use Rattle.base.specs.Lists.{over};
ghost use Rattle.edit.specs.Change.{packed};
ghost use Rattle.edit_pixels.specs.Listing.{places_from};

use edit::{NEW, OLD, ROW};

// The change of one pixel. That of the next pixel of the row is one more.
#[tactic(auto, unfolding(edit::specs::Change::packed))]
pub fn change_of(x: usize, y: usize, old: i16, new: i16) -> u64
    requires { (x < 2 ^ 16) × (y < 2 ^ 16) }
    ensures { result ≡ packed (record { x = x; y = y; old = old; new = new }) }
{
    let was = u64::from(old.cast_unsigned());
    let is = u64::from(new.cast_unsigned());
    x as u64 + ROW * (y as u64) + OLD * was + NEW * is
}

// How many pixels have the index.
pub fn count_on(row: &[i16], index: i16) -> usize
    ensures { result ≡ length (places_from index 0 row.now) }
{
    let mut n = 0;
    for z in row {
        if *z == index {
            n += 1;
        }
    }
    n
}

// Lists the changes of a row's pixels that have the index, and answers how many they are. `first` is the
// change of the row's first pixel. What the list has past them keeps.
pub fn list_row(row: &[i16], index: i16, first: u64, list: &mut [u64]) -> usize
    requires { (first + length row.now < 2 ^ 64) × (length (places_from index 0 row.now) ≤ length list.old) }
    ensures { (result ≡ length (places_from index 0 row.now))
        × (list.new ≡ over (map (λ x. first + x) (places_from index 0 row.now)) list.old) }
{
    let mut n = 0;
    for (x, z) in row.iter().enumerate() {
        if *z == index {
            list[n] = first + x as u64;
            n += 1;
        }
    }
    n
}
