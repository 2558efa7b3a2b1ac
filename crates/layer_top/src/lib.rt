// One pixel of all layers: the topmost layer that is not -1, written where it changed.
#![tactic(auto)]

ghost use Rattle.std.specs.Prelude.{◌≡◌, false, not, cond, ◌+◌, ◌*◌, ◌<◌, ◌≤◌, eqb, pos, length};
ghost use Rattle.std.specs.Int.Signed.{lt_z};
ghost use Rattle.sheet.specs.Sheet.{stray};
ghost use Rattle.base.specs.Triples.{rgb_at};
ghost use Rattle.journal_record.specs.Bytes.{le, splice};
ghost use Rattle.layer_shown.specs.Layers.{pixel_in};
ghost use Rattle.layer_shown.specs.Stack.{pixel_up_to, Stacked};
ghost use Rattle.layer_top.specs.Entry.{entry_bytes};

use base::rgb_at;
use journal_bytes::put_u32;
use layer_word::{CLEAR, word};

// The word of entry z of layer i: 255 entries a layer.
#[tactic(auto, unfolding(sheet::specs::Sheet::stray))]
fn entry_word(palettes: &[u8], i: usize, z: i16) -> u32
    requires { (765 * i + 765 ≤ length palettes.now) × (stray 255 z ≡ false) × (lt_z z (pos 0) ≡ false) }
    ensures { le 4 result ≡ entry_bytes palettes.now i z }
{
    word(rgb_at(palettes, 255 * i + z as usize))
}

// The word of the topmost layer that shows something at a place, n places a layer.
fn top_word(n: usize, count: usize, palettes: &[u8], indices: &[i16], p: usize) -> u32
    requires { Stacked n count palettes.now indices.now × (p < n) }
    ensures { le 4 result ≡ pixel_up_to n palettes.now indices.now count p }
{
    for i in (0..count).rev() {
        let z = indices[n * i + p];
        if z >= 0 {
            return entry_word(palettes, i, z);
        }
    }
    CLEAR
}

// Writes the pixel of all layers at a place where what is shown changed from x to y.
pub fn put_place(
    x: u32,
    y: u32,
    n: usize,
    count: usize,
    palettes: &[u8],
    indices: &[i16],
    p: usize,
    out: &mut [u8],
)
    requires { Stacked n count palettes.now indices.now × (p < n) × (4 * n ≤ length out.old) }
    ensures { let pixel = pixel_up_to n palettes.now indices.now count p in
        out.new
        ≡ splice out.old (4 * p) (cond (not (eqb x y)) pixel (pixel_in out.old p)) }
{
    if x != y {
        put_u32(out, 4 * p, top_word(n, count, palettes, indices, p));
    }
}
