// `copy` and `eyedropper`.
ghost use Rattle.std.specs.Prelude.{◌≡◌, map, ◌+◌, ◌*◌, ◌≤◌, length};
ghost use Rattle.base.specs.Lists.{range, over};
ghost use Rattle.sheet.specs.Sheet.{sheet_of};
ghost use Rattle.base.specs.Answer.{got_told};
ghost use Rattle.sheet.specs.Document.{get_at_of};
ghost use Rattle.selection.specs.Selection.{positions};
ghost use Rattle.selection.specs.Region.{Fits};
ghost use Rattle.tool_snap.specs.Clipped.{clipped, from_rows};
ghost use Rattle.tool_clip.specs.Clips.{index_of, copy_of};

use base::{Copied, Got, NO_SPACE, OFF_THE_SHEET};
use selection::{Area, Chosen, Selection, region};
use sheet::{check, get_at};

// Copies n indices from a place on to the front of out.
fn copy_row(indices: &[i16], from: usize, n: usize, out: &mut [i16])
    requires { (from + n ≤ length indices.now) × (n ≤ length out.old) }
    ensures { out.new ≡ over (map (index_of indices.now) (range from n)) out.old }
{
    for i in 0..n {
        out[i] = indices[from + i];
    }
}

// Copies the indices of a region, row by row. What out has past them keeps.
fn copy_rows(w: usize, indices: &[i16], s: Selection, out: &mut [i16])
    requires { Fits w (length indices.now) s × (s.w * s.h ≤ length out.old) }
    ensures { out.new ≡ over (from_rows w (index_of indices.now) (positions s)) out.old }
{
    let x = s.x as usize;
    let y = s.y as usize;
    let width = s.w as usize;
    let height = s.h as usize;
    for j in 0..height {
        let to = j * width;
        copy_row(indices, (y + j) * w + x, width, &mut out[to..]);
    }
}

// Copies the selection's indices (the whole image without one).
pub fn copy(
    w: usize,
    h: usize,
    k: usize,
    palette: &[u8],
    lab: &[f64],
    indices: &[i16],
    area: Area,
    out: &mut [i16],
) -> Copied
    ensures { let sheet = sheet_of w h k palette.now lab.now indices.now in
        clipped result out.new ≡ copy_of sheet area out.old }
{
    let no = check(w, h, k, palette, lab, indices);
    if no != 0 {
        return Copied::Refused(no);
    }
    let Chosen::Part(s) = region(area, w, h) else {
        return Copied::Refused(OFF_THE_SHEET);
    };
    let width = s.w as usize;
    let height = s.h as usize;
    if out.len() < width * height {
        return Copied::Refused(NO_SPACE);
    }
    copy_rows(w, indices, s, out);
    Copied::Clip {
        w: width,
        h: height,
    }
}

// The index at a pointer position, or that it is outside the image.
pub fn eyedropper(
    w: usize,
    h: usize,
    k: usize,
    palette: &[u8],
    lab: &[f64],
    indices: &[i16],
    x: i32,
    y: i32,
) -> Got
    ensures { let sheet = sheet_of w h k palette.now lab.now indices.now in
        got_told result ≡ get_at_of sheet x y }
{
    get_at(w, h, k, palette, lab, indices, x, y)
}
