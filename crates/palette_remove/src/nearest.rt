// The entry that is nearest to another: `nearest_other`.
ghost use Rattle.sheet.specs.Sheet.{sheet_of};
ghost use Rattle.palette_model.specs.RemoveNearest.{NearestOther};

use base::Found;
use palette_nearest::{nearest_but, other_no};

// The remaining entry that is nearest to entry `index`, the first of them where several are, and its `dist2`.
pub fn nearest_other(
    w: usize,
    h: usize,
    k: usize,
    palette: &[u8],
    lab: &[f64],
    indices: &[i16],
    index: usize,
) -> Found
    ensures { let sheet = sheet_of w h k palette.now lab.now indices.now in
        NearestOther sheet index result }
{
    let no = other_no(w, h, k, palette, lab, indices, index);
    if no != 0 {
        return Found::Refused(no);
    }
    let near = nearest_but(lab, k, index);
    Found::Entry {
        index: near.entry,
        distance: near.distance,
    }
}
