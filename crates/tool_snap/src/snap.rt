// `snap_rgba`: each pixel of an image becomes its nearest entry.
//
// A nearest entry costs far more than a pixel, and an image has few colours beside its pixels. So the
// entries found are kept in a cache, a slot by a hash of the colour; what a slot holds is proved to be what
// would be computed. The table of sRGB's curve is made once.
ghost use Rattle.std.specs.Prelude.{◌≡◌, map, ◌+◌, ◌*◌, ◌^◌, ◌<◌, ◌≤◌, length};
ghost use Rattle.base.specs.Lists.{range, over};
ghost use Rattle.base.specs.Checks.{first_of};
ghost use Rattle.color_curve.specs.Curve.{curve_of, lab_by, curve_checks};
ghost use Rattle.sheet.specs.Sheet.{sheet_of};
ghost use Rattle.selection.specs.Selection.{all, positions};
ghost use Rattle.tool_snap.specs.Clipped.{clipped, from_rows};
ghost use Rattle.tool_snap.specs.Snap.{entry_of, snapped, snap_at, snap_rgba_of};
ghost use Rattle.tool_snap.specs.Cache.{rgb_of, Numbered, all_ok, Snapping};

use base::{BAD_CLIP, Copied, MAX_SIDE, NO_SPACE, Rgb, SHORT_PIXELS};
use color_curve::{curve_no, lab_in};
use color_nearest::nearest_in;
use sheet::check;

// Pixels with alpha below this are transparent.
const PASTE_ALPHA: u8 = 128;

// A colour's bytes as one number.
fn number(c: Rgb) -> u64
    ensures { Numbered c result }
{
    c.r as u64 + 256 * (c.g as u64) + 65_536 * (c.b as u64)
}

// The colour of a number: where a colour is met anew it is taken from its number, so that a hit keeps no bytes.
fn colour(n: u64) -> Rgb
    requires { n < 2 ^ 24 }
    ensures { result ≡ rgb_of n }
{
    Rgb {
        r: (n % 256) as u8,
        g: (n / 256 % 256) as u8,
        b: (n / 65_536) as u8,
    }
}

// The nearest entry of a colour, from its slot or anew. A slot is 0 or has the colour's number and its
// entry, one more.
fn cached(
    t: &[f64; 245],
    loaded: bool,
    curve: &[f64],
    lab: &[f64],
    k: usize,
    cache: &mut [u64; 1024],
    rgb: Rgb,
) -> usize
    requires { Snapping (curve_of loaded curve.now) t.now lab.now k cache.old }
    ensures { let by = lab_by (curve_of loaded curve.now) in
        (result ≡ entry_of by lab.now k rgb) × all_ok by lab.now k cache.new }
{
    let c = number(rgb);
    let slot = (c * 2_654_435_761 / 65_536 % 1024) as usize;
    let v = cache[slot];
    if v != 0 {
        if v / 512 == c {
            return (v % 512 - 1) as usize;
        }
    }
    let near = nearest_in(lab_in(t, loaded, curve, colour(c)), lab, k);
    cache[slot] = c * 512 + near.entry as u64 + 1;
    near.entry
}

// A pixel's index: transparent, or the nearest entry.
fn snap_pixel(
    t: &[f64; 245],
    loaded: bool,
    curve: &[f64],
    lab: &[f64],
    k: usize,
    cache: &mut [u64; 1024],
    rgb: Rgb,
    alpha: u8,
) -> i16
    requires { Snapping (curve_of loaded curve.now) t.now lab.now k cache.old }
    ensures { let by = lab_by (curve_of loaded curve.now) in
        (result ≡ snapped by lab.now k rgb alpha) × all_ok by lab.now k cache.new }
{
    if alpha < PASTE_ALPHA {
        return -1;
    }
    if k == 0 {
        return -1;
    }
    cached(t, loaded, curve, lab, k, cache, rgb) as i16
}

// The indices of n pixels of an image from a place on, at the front of out.
fn snap_row(
    t: &[f64; 245],
    loaded: bool,
    curve: &[f64],
    lab: &[f64],
    k: usize,
    cache: &mut [u64; 1024],
    rgba: &[u8],
    from: usize,
    n: usize,
    out: &mut [i16],
)
    requires snapping { Snapping (curve_of loaded curve.now) t.now lab.now k cache.old }
    requires n_in_bounds { (4 * (from + n) ≤ length rgba.now) × (n ≤ length out.old) }
    ensures { let by = lab_by (curve_of loaded curve.now) in
        (out.new ≡ over (map (snap_at by lab.now k rgba.now) (range from n)) out.old)
        × all_ok by lab.now k cache.new }
{
    for i in 0..n {
        let at = 4 * (from + i);
        let rgb = Rgb {
            r: rgba[at],
            g: rgba[at + 1],
            b: rgba[at + 2],
        };
        out[i] = snap_pixel(t, loaded, curve, lab, k, cache, rgb, rgba[at + 3]);
    }
}

// The indices of the top-left part, w by h, of an image that is image_w wide, row by row.
fn snap_rows(
    loaded: bool,
    curve: &[f64],
    lab: &[f64],
    k: usize,
    rgba: &[u8],
    image_w: usize,
    w: usize,
    h: usize,
    out: &mut [i16],
)
    requires curve_value { first_of (curve_checks (curve_of loaded curve.now)) ≡ 0 }
    requires k_bound { (k ≤ 255) × (3 * k ≤ length lab.now) × (w ≤ image_w) × (4 * (h * image_w) ≤ length rgba.now)
        × (w * h ≤ length out.old) }
    ensures { let snap = snap_at (lab_by (curve_of loaded curve.now)) lab.now k rgba.now in
        out.new ≡ over (from_rows image_w snap (positions (all w h))) out.old }
{
    let t = color_lab::table();
    let mut cache: [u64; 1024] = [0; 1024];
    for y in 0..h {
        let to = y * w;
        snap_row(
            &t,
            loaded,
            curve,
            lab,
            k,
            &mut cache,
            rgba,
            y * image_w,
            w,
            &mut out[to..],
        );
    }
}

// An RGBA image as a clip of the sheet's palette: alpha below 128 is transparent, every other pixel takes
// the entry nearest to its LAB by the session's curve. Only the top-left part that fits the sheet is kept. Without
// entries every pixel is transparent.
pub fn snap_rgba(
    w: usize,
    h: usize,
    k: usize,
    palette: &[u8],
    lab: &[f64],
    indices: &[i16],
    loaded: bool,
    curve: &[f64],
    rgba: &[u8],
    image_w: usize,
    image_h: usize,
    out: &mut [i16],
) -> Copied
    ensures { let sheet = sheet_of w h k palette.now lab.now indices.now in
        let by = curve_of loaded curve.now in
        clipped result out.new ≡ snap_rgba_of sheet by rgba.now image_w image_h out.old }
{
    let no = check(w, h, k, palette, lab, indices);
    if no != 0 {
        return Copied::Refused(no);
    }
    let unfit = curve_no(loaded, curve);
    if unfit != 0 {
        return Copied::Refused(unfit);
    }
    if MAX_SIDE < image_w {
        return Copied::Refused(BAD_CLIP);
    }
    if MAX_SIDE < image_h {
        return Copied::Refused(BAD_CLIP);
    }
    if rgba.len() < 4 * (image_w * image_h) {
        return Copied::Refused(SHORT_PIXELS);
    }
    let cw = image_w.min(w);
    let ch = image_h.min(h);
    if out.len() < cw * ch {
        return Copied::Refused(NO_SPACE);
    }
    snap_rows(loaded, curve, lab, k, rgba, image_w, cw, ch, out);
    Copied::Clip { w: cw, h: ch }
}
