// `flip`.
ghost use Rattle.std.specs.Prelude.{◌≡◌};
ghost use Rattle.base.specs.Answer.{filled};
ghost use Rattle.tile_flip.specs.Flips.{flip_of};

use base::{BAD_CLIP, Counted, MAX_SIDE, NO_SPACE};
use tile_cells::copy_tile;

// A t × t tile flipped horizontally (columns reversed) and/or vertically (rows reversed), over the front of out.
pub fn flip(tile: &[i16], t: usize, flip_h: bool, flip_v: bool, out: &mut [i16]) -> Counted
    ensures { filled result out.new ≡ flip_of t flip_h flip_v tile.now out.old }
{
    if MAX_SIDE < t {
        return Counted::Refused(BAD_CLIP);
    }
    if tile.len() != t * t {
        return Counted::Refused(BAD_CLIP);
    }
    if out.len() < t * t {
        return Counted::Refused(NO_SPACE);
    }
    copy_tile(tile, 0, t, t, flip_h, flip_v, out);
    Counted::Count(t * t)
}
