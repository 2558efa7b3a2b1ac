// A flood of a picture.
ghost use Rattle.std.specs.Prelude.{map, ◌*◌, ◌≤◌, ◌<◌, length};
ghost use Rattle.edit.specs.Change.{packed};
ghost use Rattle.change_list.specs.Fronts.{Front};
ghost use Rattle.tool_fill_model.specs.Flood.{flood_of};
ghost use Rattle.tool_fill_model.specs.Cells.{Ground};

use crate::reach::reach;
use crate::scan::{emit, pair_of};
use selection::Selection;

// The same in as many cells as there are places.
fn flood_all(
    w: usize,
    indices: &[i16],
    region: Selection,
    start: usize,
    index: i16,
    s: &mut [u64],
) -> usize
    requires { Ground w indices.now start s.old }
    ensures { Front (map packed (flood_of w indices.now region start index)) s.new result }
{
    reach(w, indices, region, start, s);
    let pair = pair_of(indices[start], index);
    emit(w, pair, s)
}

// What is reached from start becomes index: the changes, row by row, left at the front of the scratch, which has at
// least as many places as the picture; answers how many they are.
pub fn flood_in(
    w: usize,
    indices: &[i16],
    region: Selection,
    start: usize,
    index: i16,
    scratch: &mut [u64],
) -> usize
    requires { (0 < w) × (w ≤ 1024) × (length indices.now ≤ 1024 * w) × (start < length indices.now)
        × (length indices.now ≤ length scratch.old) }
    ensures { Front (map packed (flood_of w indices.now region start index)) scratch.new result }
{
    let n = indices.len();
    flood_all(w, indices, region, start, index, &mut scratch[..n])
}
