// For each cell of a sheet the first cell that it is a flip of, found by classes: a pixel a round, the cells are sorted
// by class and pixel, and their ranks are the new classes. That is a sort of the cells a pixel, whatever the sheet. The
// functions ask their caller for what they need.
#![tactic(auto)]

mod firsts;
mod ranking;
mod rounds;

ghost use Rattle.std.specs.Prelude.{◌≡◌, ◌+◌, ◌≤◌, ◌<◌, length, take};
ghost use Rattle.tile_cells.specs.Cells.{Tiled, cell_count, first_cells};

use firsts::{clear, enter_all};
use rounds::tell_apart;

// For each cell, in order, the first cell that it is a flip of, times 4, and the first of the flips none, h, v, both
// (0 to 3) by which it is: left at the front of the scratch, which has two places a cell.
pub fn first_cells_sorted(w: usize, h: usize, t: usize, indices: &[i16], scratch: &mut [u64])
    requires { Tiled w h t indices.now × (0 < cell_count w h t) × (cell_count w h t + cell_count w h t ≤ length scratch.old) }
    ensures { take (cell_count w h t) scratch.new ≡ first_cells w h t indices.now }
{
    let n = h / t * (w / t);
    tell_apart(w, h, t, indices, n, scratch);
    clear(n, scratch);
    enter_all(w, h, t, indices, n, scratch);
}
