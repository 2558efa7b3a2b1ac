// Changes painted over a picture, one and a list.
ghost use Rattle.std.specs.Prelude.{◌≡◌, false, map, ◌<◌, length, set};
ghost use Rattle.base.specs.Lists.{some};
ghost use Rattle.edit.specs.Change.{unpacked, place, painted, new_of, old_of};
ghost use Rattle.edit_pixels.specs.Inside.{past};

use crate::change::{new_of, old_of, place_of};

// Paints a change's new at its place.
pub fn paint_new(indices: &mut [i16], w: usize, c: u64)
    requires { place w (unpacked c) < length indices.old }
    ensures { indices.new ≡ set indices.old (place w (unpacked c)) (new_of (unpacked c)) }
{
    let p = place_of(w, c);
    indices[p] = new_of(c);
}

// Paints a change's old at its place.
pub fn paint_old(indices: &mut [i16], w: usize, c: u64)
    requires { place w (unpacked c) < length indices.old }
    ensures { indices.new ≡ set indices.old (place w (unpacked c)) (old_of (unpacked c)) }
{
    let p = place_of(w, c);
    indices[p] = old_of(c);
}

// Paints each new of a list at its place, in order. No change is past the picture.
pub fn paint_news(indices: &mut [i16], w: usize, list: &[u64])
    requires { some (past w (length indices.old)) (map unpacked list.now) ≡ false }
    ensures { indices.new ≡ painted new_of w (map unpacked list.now) indices.old }
{
    for c in list {
        paint_new(indices, w, *c);
    }
}
