// The loop over the places.
ghost use Rattle.std.specs.Prelude.{◌≡◌, ◌+◌, ◌*◌, ◌<◌, ◌≤◌, length};
ghost use mathlib.Core.List.{flat_map};
ghost use Rattle.base.specs.Lists.{range, over};
ghost use Rattle.layer_shown.specs.Stack.{pixel_up_to, Stacked};
ghost use Rattle.layer_repaint.specs.Places.{view_of, Viewed, place_of, stack_place};

use base::STORAGE;
use layer_top::put_place;
use sheet_diff::{fill_shades, shade_of};

// Places that are compared at once.
const BLOCK: usize = 64;

// Repaints the places where a layer that was `before` through `palette` is `after` through `after_palette`. What else out
// has keeps.
fn repaint_places(
    count: usize,
    palettes: &[u8],
    indices: &[i16],
    palette: &[u8],
    before: &[i16],
    after_palette: &[u8],
    after: &[i16],
    out: &mut [u8],
)
    requires { let n = length before.now in
        Stacked n count palettes.now indices.now × Viewed n (view_of palette.now before.now)
        × Viewed n (view_of after_palette.now after.now) × (4 * n ≤ length out.old) }
    ensures { let n = length before.now in
        let earlier = view_of palette.now before.now in
        let later = view_of after_palette.now after.now in
        let pixel = pixel_up_to n palettes.now indices.now count in
        out.new
        ≡ over (flat_map (place_of pixel earlier later out.old) (range 0 n)) out.old }
{
    let mut shades: [u32; 256] = [0; 256];
    fill_shades(palette, &mut shades);
    let mut after_shades: [u32; 256] = [0; 256];
    fill_shades(after_palette, &mut after_shades);
    let alike = shades == after_shades;
    let n = before.len();
    for start in (0..n).step_by(BLOCK) {
        let end = (start + BLOCK).min(n);
        if alike && before[start..end] == after[start..end] {
            continue;
        }
        for p in start..end {
            let x = shade_of(&shades, before[p]);
            let y = shade_of(&after_shades, after[p]);
            put_place(x, y, n, count, palettes, indices, p, out);
        }
    }
}

// Repaints the places whose shown colour changed on layer `edited`, which was `earlier` through `palette`.
pub fn repaint_changed(
    count: usize,
    palettes: &[u8],
    indices: &[i16],
    edited: usize,
    palette: &[u8],
    earlier: &[i16],
    out: &mut [u8],
)
    requires { let n = length earlier.now in
        Stacked n count palettes.now indices.now × (edited < count)
        × Viewed n (view_of palette.now earlier.now) × (4 * n ≤ length out.old) }
    ensures { let n = length earlier.now in
        let before = view_of palette.now earlier.now in
        let place = stack_place n count palettes.now indices.now edited before out.old in
        out.new ≡ over (flat_map place (range 0 n)) out.old }
{
    let n = earlier.len();
    let p = STORAGE * edited;
    let p_end = p + STORAGE;
    let q = n * edited;
    let q_end = q + n;
    repaint_places(
        count,
        palettes,
        indices,
        palette,
        earlier,
        &palettes[p..p_end],
        &indices[q..q_end],
        out,
    );
}
