// Palette storage and LAB storage, three numbers an entry: an entry stored, taken out and put back.
ghost use Rattle.std.specs.Prelude.{◌≡◌, ◌+◌, ◌*◌, ◌<◌, ◌≤◌, length};
ghost use Rattle.edit.specs.Storage.{bytes_of, numbers_of, stored, closed, reinserted};

use base::{Lab, Rgb, put_lab};

// Gives entry i a colour.
pub fn store_rgb(palette: &mut [u8], i: usize, c: Rgb)
    requires { 3 * i + 3 ≤ length palette.old }
    ensures { palette.new ≡ stored (3 * i) (bytes_of c) palette.old }
{
    let at = 3 * i;
    palette[at] = c.r;
    palette[at + 1] = c.g;
    palette[at + 2] = c.b;
}

// Takes entry i of k out of the palette. The last entry's old bytes stay.
pub fn close_palette_gap(palette: &mut [u8], i: usize, k: usize)
    requires { (i < k) × (3 * k ≤ length palette.old) }
    ensures { palette.new ≡ closed (3 * i) (3 * k) palette.old }
{
    let at = 3 * i;
    palette.copy_within(at + 3..3 * k, at);
}

// Puts a colour back into a palette of k entries, as entry i.
pub fn open_palette_gap(palette: &mut [u8], i: usize, k: usize, c: Rgb)
    requires { (i ≤ k) × (3 * k + 3 ≤ length palette.old) }
    ensures { palette.new ≡ reinserted (3 * i) (3 * k) (bytes_of c) palette.old }
{
    let at = 3 * i;
    palette.copy_within(at..3 * k, at + 3);
    store_rgb(palette, i, c);
}

// Takes the LAB of entry i of k out. The last entry's old numbers stay.
pub fn close_lab_gap(lab: &mut [f64], i: usize, k: usize)
    requires { (i < k) × (3 * k ≤ length lab.old) }
    ensures { lab.new ≡ closed (3 * i) (3 * k) lab.old }
{
    let at = 3 * i;
    lab.copy_within(at + 3..3 * k, at);
}

// Puts the LAB of entry i back, in front of the later of k entries.
pub fn open_lab_gap(lab: &mut [f64], i: usize, k: usize, v: Lab)
    requires { (i ≤ k) × (3 * k + 3 ≤ length lab.old) }
    ensures { lab.new ≡ reinserted (3 * i) (3 * k) (numbers_of v) lab.old }
{
    let at = 3 * i;
    lab.copy_within(at..3 * k, at + 3);
    put_lab(lab, i, v);
}
