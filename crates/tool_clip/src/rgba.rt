// `clip_rgba`.
ghost use Rattle.std.specs.Prelude.{◌≡◌, ◌*◌, ◌≤◌, length};
ghost use mathlib.Core.List.{[], ◌∷◌, flat_map};
ghost use Rattle.base.specs.Answer.{filled};
ghost use Rattle.base.specs.Lists.{over};
ghost use Rattle.sheet.specs.Sheet.{sheet_of};
ghost use Rattle.tool_clip.specs.Clips.{rgba_of, clip_rgba_of};

use base::{BAD_CLIP, Counted, MAX_SIDE, NO_SPACE, on_axis};
use sheet::check;

// Writes four bytes to the front of out.
fn put_four(out: &mut [u8], r: u8, g: u8, b: u8, a: u8)
    requires { 4 ≤ length out.old }
    ensures { out.new ≡ over (r ∷ g ∷ b ∷ a ∷ []) out.old }
{
    out[0] = r;
    out[1] = g;
    out[2] = b;
    out[3] = a;
}

// Writes the four bytes of an index: its entry's colour, or zeros where it is no entry.
fn put_rgba(k: usize, palette: &[u8], z: i16, out: &mut [u8])
    requires { (k ≤ 255) × (length palette.now ≡ 765) × (4 ≤ length out.old) }
    ensures { out.new ≡ over (rgba_of k palette.now z) out.old }
{
    let i = on_axis(z as i32, k);
    if i < k {
        let at = 3 * i;
        put_four(out, palette[at], palette[at + 1], palette[at + 2], 255);
    } else {
        put_four(out, 0, 0, 0, 0);
    }
}

// Writes the bytes of a clip's pixels. What out has past them keeps.
fn put_clip(k: usize, palette: &[u8], clip: &[i16], out: &mut [u8])
    requires { (k ≤ 255) × (length palette.now ≡ 765) × (4 * length clip.now ≤ length out.old) }
    ensures { out.new ≡ over (flat_map (rgba_of k palette.now) clip.now) out.old }
{
    for (i, index) in clip.iter().enumerate() {
        let at = 4 * i;
        put_rgba(k, palette, *index, &mut out[at..]);
    }
}

// A clip as RGBA bytes, four a pixel: its entry's colour and 255, or zeros where it is transparent or no
// entry.
pub fn clip_rgba(
    w: usize,
    h: usize,
    k: usize,
    palette: &[u8],
    lab: &[f64],
    indices: &[i16],
    clip_w: usize,
    clip_h: usize,
    clip: &[i16],
    out: &mut [u8],
) -> Counted
    ensures { let sheet = sheet_of w h k palette.now lab.now indices.now in
        filled result out.new ≡ clip_rgba_of sheet clip_w clip_h clip.now out.old }
{
    let no = check(w, h, k, palette, lab, indices);
    if no != 0 {
        return Counted::Refused(no);
    }
    if MAX_SIDE < clip_w {
        return Counted::Refused(BAD_CLIP);
    }
    if MAX_SIDE < clip_h {
        return Counted::Refused(BAD_CLIP);
    }
    if clip.len() != clip_w * clip_h {
        return Counted::Refused(BAD_CLIP);
    }
    let bytes = 4 * clip.len();
    if out.len() < bytes {
        return Counted::Refused(NO_SPACE);
    }
    put_clip(k, palette, clip, out);
    Counted::Count(bytes)
}
