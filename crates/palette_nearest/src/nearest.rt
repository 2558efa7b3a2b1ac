// The entries but one: whether there are others, and the nearest of them.
ghost use Rattle.std.specs.Prelude.{◌≡◌, false, ◌*◌, ◌<◌, ◌≤◌, length, take};
ghost use Rattle.base.specs.Lists.{some};
ghost use Rattle.color_doubles.specs.Finite.{unfit};
ghost use Rattle.sheet.specs.Sheet.{sheet_of};
ghost use Rattle.palette_model.specs.Nearest.{other_checks, removal_checks, Removable, Nearest};

use base::{ENTRY_LOCKED, LAST_ENTRY, NO_SUCH_ENTRY, lab_at};
use color_nearest::{Near, nearer, nearest_in};
use sheet::{check, check_marked};

// The number of the first of 1 to 3, 7 and 9 that applies, or 0 where entry `index` is there and is not
// the last.
pub fn other_no(
    w: usize,
    h: usize,
    k: usize,
    palette: &[u8],
    lab: &[f64],
    indices: &[i16],
    index: usize,
) -> u8
    ensures { let sheet = sheet_of w h k palette.now lab.now indices.now in
        Removable (other_checks sheet index) sheet index result }
{
    let no = check(w, h, k, palette, lab, indices);
    if no != 0 {
        return no;
    }
    if k <= index {
        return NO_SUCH_ENTRY;
    }
    if k < 2 {
        return LAST_ENTRY;
    }
    0
}

// The same of a removal, with the lock marks: 1 to 3, 7, 24, 9. A locked entry is refused before the last one is.
pub fn removal_no(
    w: usize,
    h: usize,
    k: usize,
    palette: &[u8],
    lab: &[f64],
    indices: &[i16],
    locks: &[bool],
    index: usize,
) -> u8
    ensures { let sheet = sheet_of w h k palette.now lab.now indices.now in
        Removable (removal_checks sheet locks.now index) sheet index result }
{
    let no = check_marked(w, h, k, palette, lab, indices, locks);
    if no != 0 {
        return no;
    }
    if k <= index {
        return NO_SUCH_ENTRY;
    }
    if locks[index] {
        return ENTRY_LOCKED;
    }
    if k < 2 {
        return LAST_ENTRY;
    }
    0
}

// The nearest of the entries but `index`, the first of them where several are, and its distance. Those before it and
// those after it are searched where they stand.
pub fn nearest_but(lab: &[f64], k: usize, index: usize) -> Near
    requires { (length lab.now ≡ 765) × (k ≤ 255) × (2 ≤ k) × (index < k) × (some unfit (take (3 * k) lab.now) ≡ false) }
    ensures { Nearest lab.now k index result }
{
    let target = lab_at(lab, index);
    let at = 3 * index;
    let after = at + 3;
    let end = 3 * k;
    let before = nearest_in(target, &lab[..at], index);
    let behind = nearest_in(target, &lab[after..end], k - 1 - index);
    let later = Near {
        entry: index + behind.entry,
        ..behind
    };
    let near = nearer(before, later);
    if near.entry < index {
        return near;
    }
    Near {
        entry: near.entry + 1,
        ..near
    }
}
