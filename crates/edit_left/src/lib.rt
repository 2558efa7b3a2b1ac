// Number 13 of a removal: the scan for a pixel that is left on its entry, where the places that the removal's list
// names are marked in a scratch of a byte a pixel.
#![tactic(auto)]

ghost use Rattle.std.specs.Prelude.{◌≡◌, ◌&&◌, List, ◌*◌, ◌≤◌, eqb, pos, length, replicate};
ghost use Rattle.base.specs.Lists.{some, range};
ghost use Rattle.base.specs.Ints.{eq_z};
ghost use Rattle.edit.specs.Change.{Change};
ghost use Rattle.edit.specs.Checks.{left_from};
ghost use Rattle.edit_pixels.specs.Inside.{Marks, left_at};

use base::{both, either};

// Whether an index is the entry's.
pub fn is_entry(z: i16, index: usize) -> bool
    requires { index ≤ 255 }
    ensures { result ≡ eq_z z (pos index) }
{
    z == index as i16
}

// Takes every mark away.
pub fn clear(marks: &mut [u8])
    ensures { marks.new ≡ replicate (length marks.old) 0 }
{
    marks.fill(0);
}

// Whether a pixel is on the entry and not marked.
fn is_left(z: i16, mark: u8, index: usize) -> bool
    requires { index ≤ 255 }
    ensures { result ≡ eq_z z (pos index) && eqb mark 0 }
{
    both(is_entry(z, index), mark == 0)
}

// Whether a pixel of a row is on the entry and not marked. No early exit, so that it is compiled to vector
// code.
fn row_left(row: &[i16], marks: &[u8], index: usize) -> bool
    requires { (index ≤ 255) × (length marks.now ≡ length row.now) }
    ensures { result ≡ some (left_at index row.now marks.now) (range 0 (length row.now)) }
{
    let mut left = false;
    for (z, mark) in row.iter().zip(marks) {
        left = either(left, is_left(*z, *mark, index));
    }
    left
}

// Whether a pixel of the entry is not remapped, where the remap's places are marked: the scan ends at the
// first one. The columns are looked through only in a row that has one.
pub fn any_left(w: usize, h: usize, index: usize, indices: &[i16], marks: &[u8]) -> bool
    requires { (index ≤ 255) × (length indices.now ≡ w * h) × (length marks.now ≡ w * h) }
    ensures { (cs : List Change) → Marks w cs marks.now → result ≡ left_from w index cs 0 indices.now }
{
    let mut left = false;
    'rows: for y in 0..h {
        let at = y * w;
        let end = at + w;
        if row_left(&indices[at..end], &marks[at..end], index) {
            for x in 0..w {
                let p = at + x;
                if is_left(indices[p], marks[p], index) {
                    left = true;
                    break 'rows;
                }
            }
        }
    }
    left
}
