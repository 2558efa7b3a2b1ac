// Which pixels show another colour than a baseline.
//
// Each palette is turned once into a table with a number for what each index shows, equal where the
// colours are. A pixel then costs two reads and a comparison, and no branch.
ghost use Rattle.std.specs.Prelude.{◌≡◌, false, ◌≤◌, length, get_or};
ghost use Rattle.base.specs.Lists.{some, over};
ghost use Rattle.sheet.specs.Sheet.{stray};
ghost use Rattle.sheet_diff.specs.Mask.{mask_of};
ghost use Rattle.sheet_diff.specs.Tables.{slot_of, Numbered, Shades};

use base::{MAX_ENTRIES, Rgb, rgb_at};

// The number of no colour, above every colour's.
const NO_COLOUR: u32 = 16_777_216;

// A colour's bytes as one number.
fn number(c: Rgb) -> u32
    ensures { Numbered c result }
{
    u32::from_le_bytes([c.r, c.g, c.b, 0])
}

// Fills a table with the number of what each index shows: at 0 of the transparent one, at n + 1 of
// entry n.
pub fn fill_shades(palette: &[u8], table: &mut [u32; 256])
    requires { (length palette.now ≡ 765) × (length table.old ≡ 256) }
    ensures { Shades 255 palette.now table.new }
{
    table[0] = NO_COLOUR;
    for i in 0..MAX_ENTRIES {
        table[i + 1] = number(rgb_at(palette, i));
    }
}

// The number of what an index shows, out of its palette's table.
pub fn shade_of(table: &[u32; 256], z: i16) -> u32
    requires { stray 255 z ≡ false }
    ensures { result ≡ get_or table.now (slot_of z) 0 }
{
    let at = (z + 1) as usize;
    table[at]
}

// Marks each pixel that differs: 1 where its colour, or that it is transparent, is not the baseline's,
// else 0. What the mask has past the pixels keeps.
pub(crate) fn mark_differences(
    palette: &[u8],
    indices: &[i16],
    base: &[u8],
    base_indices: &[i16],
    mask: &mut [u8],
)
    requires { (length palette.now ≡ 765) × (length base.now ≡ 765) × (some (stray 255) indices.now ≡ false)
        × (some (stray 255) base_indices.now ≡ false) × (length indices.now ≡ length base_indices.now)
        × (length indices.now ≤ length mask.old) }
    ensures { mask.new
        ≡ over (mask_of palette.now base.now indices.now base_indices.now)
        mask.old }
{
    let mut shown: [u32; 256] = [0; 256];
    fill_shades(palette, &mut shown);
    let mut base_shown: [u32; 256] = [0; 256];
    fill_shades(base, &mut base_shown);
    for (i, z) in indices.iter().enumerate() {
        let x = shade_of(&shown, *z);
        let y = shade_of(&base_shown, base_indices[i]);
        mask[i] = u8::from(x != y);
    }
}
