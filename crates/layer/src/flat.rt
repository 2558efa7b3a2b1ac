// `flatten`.
ghost use Rattle.std.specs.Prelude.{◌≡◌};
ghost use Rattle.base.specs.Answer.{filled};
ghost use Rattle.layer_shown.specs.Layers.{layers_of};
ghost use Rattle.layer_shown.specs.Calls.{flatten_of};

use base::{Counted, LAYERS_DIFFER, NO_SPACE};
use layer_checks::{sizes_differ, stack_no};
use layer_slot::lay_all;

// Flattens layers to RGBA: each pixel takes the topmost layer that is not -1, the last being topmost, with alpha 255, or
// four zero bytes. 23 for a count that is not 1 to 8, before all others; 1 to 3 of each layer; 23 where a size differs;
// 16 where out is shorter than 4 × w × h. What out has past the pixels keeps.
pub fn flatten(
    sizes: &[usize],
    palettes: &[u8],
    labs: &[f64],
    indices: &[i16],
    out: &mut [u8],
) -> Counted
    ensures { let layers = layers_of sizes.now palettes.now labs.now indices.now in
        filled result out.new ≡ flatten_of sizes.now layers out.old }
{
    let no = stack_no(sizes, palettes, labs, indices);
    if no != 0 {
        return Counted::Refused(no);
    }
    let w = sizes[0];
    let h = sizes[1];
    if sizes_differ(w, h, sizes) {
        return Counted::Refused(LAYERS_DIFFER);
    }
    let n = w * h;
    let bytes = 4 * n;
    if out.len() < bytes {
        return Counted::Refused(NO_SPACE);
    }
    lay_all(n, sizes.len() / 3, palettes, indices, out);
    Counted::Count(bytes)
}
