// Where an index of the second sheet goes: the first joined entry of its colour, out of a table that is filled once.
ghost use Rattle.std.specs.Prelude.{◌≡◌, false, map, ◌+◌, ◌*◌, ◌≤◌, length, get_or, pos};
ghost use Rattle.base.specs.Lists.{some};
ghost use Rattle.sheet.specs.Sheet.{stray};
ghost use Rattle.sheet_diff.specs.Tables.{slot_of};
ghost use Rattle.join_model.specs.Places.{goes, moved_in, Moves};

use base::rgb_at;
use join_checks::find;

// Fills a table with where each index of a palette of k entries goes among n joined colours: at 0 the transparent one,
// which stays, at i + 1 entry i.
fn fill_places(colours: &[u8], n: usize, palette: &[u8], k: usize, table: &mut [i16; 256])
    requires { (length colours.now ≡ 3 * n) × (n ≤ 255) × (k ≤ 255) × (3 * k ≤ length palette.now)
        × (length table.old ≡ 256) }
    ensures { Moves k colours.now palette.now table.new }
{
    table[0] = -1;
    for i in 0..k {
        table[i + 1] = find(colours, n, rgb_at(palette, i)) as i16;
    }
}

// Where an index goes, out of the table.
fn place_of(table: &[i16; 256], z: i16) -> i16
    requires { stray 255 z ≡ false }
    ensures { result ≡ get_or table.now (slot_of z) (pos 0) }
{
    let at = (z + 1) as usize;
    table[at]
}

// Each index, moved.
fn move_indices(table: &[i16; 256], indices: &[i16], out: &mut [i16])
    requires { (some (stray 255) indices.now ≡ false) × (length indices.now ≡ length out.old) }
    ensures { out.new ≡ map (moved_in table.now) indices.now }
{
    for (i, z) in indices.iter().enumerate() {
        out[i] = place_of(table, *z);
    }
}

// Each index of a palette of k entries sent to the first of n joined colours that is its own.
pub fn send_indices(
    colours: &[u8],
    n: usize,
    palette: &[u8],
    k: usize,
    indices: &[i16],
    out: &mut [i16],
)
    requires { (length colours.now ≡ 3 * n) × (n ≤ 255) × (k ≤ 255) × (length palette.now ≡ 765)
        × (some (stray k) indices.now ≡ false) × (length indices.now ≡ length out.old) }
    ensures { out.new ≡ map (goes colours.now palette.now) indices.now }
{
    let mut table: [i16; 256] = [0; 256];
    fill_places(colours, n, palette, k, &mut table);
    move_indices(&table, indices, out);
}
