// The joined palette stored: the first's k entries, then those of the second that a list names. What stands past them
// keeps.
ghost use Rattle.std.specs.Prelude.{◌≡◌, ◌+◌, ◌≤◌, length, take};
ghost use Rattle.join_model.specs.Stored.{Below, all_of, Entered};

use crate::storing::put_joined;

// Colours, LAB and marks of the joined entries.
pub fn put_entries(
    k: usize,
    palette: &[u8],
    lab: &[f64],
    locks: &[bool],
    palette2: &[u8],
    lab2: &[f64],
    locks2: &[bool],
    news: &[usize; 255],
    n: usize,
    to_palette: &mut [u8],
    to_lab: &mut [f64],
    to_locks: &mut [bool],
)
    requires { (k + n ≤ 255) × (length news.now ≡ 255) × Below 255 (take n news.now) × (length palette.now ≡ 765)
        × (length lab.now ≡ 765) × (length locks.now ≡ 255) × (length palette2.now ≡ 765)
        × (length lab2.now ≡ 765) × (length locks2.now ≡ 255) × (length to_palette.old ≡ 765)
        × (length to_lab.old ≡ 765) × (length to_locks.old ≡ 255) }
    ensures { let all =
        all_of k palette.now lab.now locks.now palette2.now
        lab2.now locks2.now (take n news.now) in
        Entered all to_palette.old to_lab.old to_locks.old
        to_palette.new to_lab.new to_locks.new }
{
    let named = &news[..n];
    put_joined::<u8, 3>(k, palette, palette2, named, to_palette);
    put_joined::<f64, 3>(k, lab, lab2, named, to_lab);
    put_joined::<bool, 1>(k, locks, locks2, named, to_locks);
}
