// For each cell of a sheet the first cell that it is a flip of: along chains by key, a place a cell; and by classes where
// a chain gets long, so that no sheet takes a comparison of each cell with each. The functions ask their caller for what
// they need.
#![tactic(auto)]

mod table;

ghost use Rattle.std.specs.Prelude.{◌≡◌, ◌+◌, ◌≤◌, ◌<◌, length, take};
ghost use Rattle.tile_cells.specs.Cells.{Tiled, cell_count, first_cells};

use table::fill;
use tile_classes::first_cells_sorted;

// Chains of noise have some ten cells at most.
const LONGEST: usize = 32;

// How long a chain of n cells may get: as long as it likes where there is no room for two places a cell. (Then the tile
// side is 1, and of the 256 indices that a sheet may have at most 20 are on one chain, whatever n is.)
fn longest(n: usize, room: usize) -> usize
    requires { n ≤ room }
    ensures { result < n → n + n ≤ room }
{
    if room - n < n { n } else { LONGEST }
}

// For each cell, in order, the first cell that it is a flip of, times 4, and the first of the flips none, h, v, both
// (0 to 3) by which it is: left at the front of the scratch, a place a cell.
pub fn first_cells(w: usize, h: usize, t: usize, indices: &[i16], scratch: &mut [u64])
    requires { Tiled w h t indices.now × (cell_count w h t ≤ length scratch.old) }
    ensures { take (cell_count w h t) scratch.new ≡ first_cells w h t indices.now }
{
    let n = h / t * (w / t);
    let most = longest(n, scratch.len());
    let done = fill(w, h, t, indices, most, &mut scratch[..n]);
    if done {
        return;
    }
    first_cells_sorted(w, h, t, indices, scratch);
}
