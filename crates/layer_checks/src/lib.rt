// The checks that both calls on layers begin with: their count, then 1 to 3 of each layer, one layer after the other; and
// whether a size differs.
#![tactic(auto)]

ghost use Rattle.std.specs.Prelude.{◌≡◌, ◌%◌, ◌≤◌, length};
ghost use mathlib.Core.List.{[], flat_map};
ghost use Rattle.base.specs.Checks.{first_of};
ghost use Rattle.sheet.specs.Checks.{sheet_checks, Judged};
ghost use Rattle.layer_shown.specs.Layers.{layers_of};
ghost use Rattle.layer_checks.specs.Judged.{bottom, count_wrong, sizes_differ, LayersJudged};

use base::{BAD_SHEET, LAYERS_DIFFER, MAX_LAYERS, MAX_SIDE, STORAGE, either};
use sheet::check;

// The number of the first of checks 1 to 3 that applies to the first of some layers, or 0. The last layer has all that is
// left of the buffers.
fn first_no(sizes: &[usize], palettes: &[u8], labs: &[f64], indices: &[i16]) -> u8
    requires { 3 ≤ length sizes.now }
    ensures { Judged (bottom sizes.now palettes.now labs.now indices.now) result }
{
    let w = sizes[0];
    let h = sizes[1];
    let k = sizes[2];
    if sizes.len() == 3 {
        return check(w, h, k, palettes, labs, indices);
    }
    if MAX_SIDE < w {
        return BAD_SHEET;
    }
    if MAX_SIDE < h {
        return BAD_SHEET;
    }
    let p = STORAGE.min(palettes.len());
    let l = STORAGE.min(labs.len());
    let n = (w * h).min(indices.len());
    check(w, h, k, &palettes[..p], &labs[..l], &indices[..n])
}

// The number of the first of checks 1 to 3 that applies to a layer, one layer after the other, or 0.
fn layers_no(sizes: &[usize], palettes: &[u8], labs: &[f64], indices: &[i16]) -> u8
    requires { length sizes.now % 3 ≡ 0 }
    ensures { let layers = layers_of sizes.now palettes.now labs.now indices.now in
        result ≡ first_of (flat_map (sheet_checks []) layers) }
{
    let mut at = 0;
    for i in 0..sizes.len() / 3 {
        let s = 3 * i;
        let p = STORAGE * i;
        let no = first_no(&sizes[s..], &palettes[p..], &labs[p..], &indices[at..]);
        if no != 0 {
            return no;
        }
        at += sizes[s] * sizes[s + 1];
    }
    0
}

// Whether so many sizes are not those of 1 to 8 layers, three a layer.
#[tactic(auto, unfolding(crate::specs::Judged::count_wrong))]
fn bad_count(n: usize) -> bool
    ensures { result ≡ count_wrong n }
{
    if n % 3 != 0 {
        return true;
    }
    either(n == 0, 3 * MAX_LAYERS < n)
}

// 23 for the count, or the number of the first of 1 to 3 that applies to a layer, or 0.
pub fn stack_no(sizes: &[usize], palettes: &[u8], labs: &[f64], indices: &[i16]) -> u8
    ensures { LayersJudged sizes.now palettes.now labs.now indices.now result }
{
    if bad_count(sizes.len()) {
        return LAYERS_DIFFER;
    }
    layers_no(sizes, palettes, labs, indices)
}

// Whether some layer is not w by h.
pub fn sizes_differ(w: usize, h: usize, sizes: &[usize]) -> bool
    requires { length sizes.now % 3 ≡ 0 }
    ensures { result ≡ sizes_differ w h sizes.now }
{
    for size in sizes.chunks_exact(3) {
        if size[0] != w || size[1] != h {
            return true;
        }
    }
    false
}
