// The steps of a mirror, one after the other in the scratch.
ghost use Rattle.std.specs.Prelude.{◌≡◌, map, ◌*◌, ◌≤◌, length};
ghost use Rattle.edit.specs.Change.{packed, unpacked};
ghost use Rattle.change_list.specs.Fronts.{Front};
ghost use Rattle.tile_copies.specs.Mirror.{mirrored, Mirrorable};

use crate::waiting::{emit, pend_all};
use selection::Selection;
use tile_marks::{land_all, mark_all, spread};
use tile_match::first_cells;

// The same in as many numbers as there are places.
fn mirror_all(
    w: usize,
    h: usize,
    t: usize,
    indices: &[i16],
    region: Selection,
    list: &[u64],
    s: &mut [u64],
) -> usize
    requires { Mirrorable w h t indices.now list.now × (length s.old ≡ w * h) }
    ensures { Front (map packed (mirrored w h t indices.now region (map unpacked list.now)))
        s.new result }
{
    first_cells(w, h, t, indices, s);
    spread(w, t, s);
    mark_all(w, list, s);
    land_all(w, region, list, s);
    pend_all(w, list, s);
    emit(w, indices, s)
}

// The changes and their copies, normalised, left at the front of the scratch, which has at least as many places as
// the sheet; answers how many they are.
pub fn mirror_in(
    w: usize,
    h: usize,
    t: usize,
    indices: &[i16],
    region: Selection,
    list: &[u64],
    scratch: &mut [u64],
) -> usize
    requires { Mirrorable w h t indices.now list.now × (w * h ≤ length scratch.old) }
    ensures { Front (map packed (mirrored w h t indices.now region (map unpacked list.now)))
        scratch.new result }
{
    let n = indices.len();
    mirror_all(w, h, t, indices, region, list, &mut scratch[..n])
}
