// `repaint`.
ghost use Rattle.std.specs.Prelude.{◌≡◌, not, ◌||◌, ◌%◌, ◌≤◌, eqb, length, get_or};
ghost use Rattle.base.specs.Answer.{filled};
ghost use Rattle.sheet.specs.Sheet.{sheet_of};
ghost use Rattle.layer_shown.specs.Layers.{layers_of};
ghost use Rattle.layer_shown.specs.Calls.{repaint_of, width_of, height_of};
ghost use Rattle.layer_checks.specs.Judged.{sizes_differ};

use base::{Counted, LAYERS_DIFFER, NO_SPACE};
use layer_checks::{sizes_differ, stack_no};
use layer_repaint::repaint_changed;
use sheet::check;

// Whether a sheet of w by h, or a layer, has another size than the first layer.
fn any_differs(w: usize, h: usize, sizes: &[usize]) -> bool
    requires { (2 ≤ length sizes.now) × (length sizes.now % 3 ≡ 0) }
    ensures { let sides = sizes.now in
        result
        ≡ (not (eqb w (width_of sides)) || not (eqb h (height_of sides)))
        || sizes_differ (width_of sides) (height_of sides) sides }
{
    let first_w = sizes[0];
    let first_h = sizes[1];
    if w != first_w {
        return true;
    }
    if h != first_h {
        return true;
    }
    sizes_differ(first_w, first_h, sizes)
}

// Repaints, after an edit, undo or redo on layer `edited`, the places whose shown colour on that layer changed. The sheet
// of w, h, k, palette, lab and earlier is that layer before. Where out held the flattening before, it then holds what
// `flatten` gives. The numbers are `flatten`'s, with 1 to 3 of the earlier sheet after those of the layers, and 23 also
// where its size differs or there is no layer `edited`.
pub fn repaint(
    sizes: &[usize],
    palettes: &[u8],
    labs: &[f64],
    indices: &[i16],
    edited: usize,
    w: usize,
    h: usize,
    k: usize,
    palette: &[u8],
    lab: &[f64],
    earlier: &[i16],
    out: &mut [u8],
) -> Counted
    ensures { let layers = layers_of sizes.now palettes.now labs.now indices.now in
        let before = sheet_of w h k palette.now lab.now earlier.now in
        filled result out.new ≡ repaint_of sizes.now layers edited before out.old }
{
    let no = stack_no(sizes, palettes, labs, indices);
    if no != 0 {
        return Counted::Refused(no);
    }
    let earlier_no = check(w, h, k, palette, lab, earlier);
    if earlier_no != 0 {
        return Counted::Refused(earlier_no);
    }
    if any_differs(w, h, sizes) {
        return Counted::Refused(LAYERS_DIFFER);
    }
    let count = sizes.len() / 3;
    if count <= edited {
        return Counted::Refused(LAYERS_DIFFER);
    }
    let bytes = 4 * earlier.len();
    if out.len() < bytes {
        return Counted::Refused(NO_SPACE);
    }
    repaint_changed(count, palettes, indices, edited, palette, earlier, out);
    Counted::Count(bytes)
}
