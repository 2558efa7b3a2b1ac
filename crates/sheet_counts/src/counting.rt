// Pixels per palette entry.
ghost use Rattle.std.specs.Prelude.{◌≡◌, false, ◌≤◌, length};
ghost use Rattle.base.specs.Answer.{filled};
ghost use Rattle.base.specs.Lists.{some, over};
ghost use Rattle.sheet.specs.Sheet.{sheet_of, stray};
ghost use Rattle.sheet_counts.specs.Counts.{counts_of, Counts};
ghost use Rattle.sheet_counts.specs.Tables.{tally, Room};

use base::{Counted, NO_SPACE};
use sheet::check;

// Counts one pixel at its entry; a transparent one at none.
fn count_one(out: &mut [u32], z: i16)
    requires { Room out.old z }
    ensures { out.new ≡ tally out.old z }
{
    if z < 0 {
        return;
    }
    let at = z as usize;
    out[at] += 1;
}

// Counts the pixels of each of the k entries into the first k numbers. The others keep.
fn count_entries(indices: &[i16], k: usize, out: &mut [u32])
    requires { (length indices.now ≤ 1048576) × (some (stray k) indices.now ≡ false) × (k ≤ length out.old) }
    ensures { out.new ≡ over (counts_of k indices.now) out.old }
{
    out[..k].fill(0);
    for z in indices {
        count_one(out, *z);
    }
}

// Pixels per palette entry, k numbers; 16 where the buffer is shorter.
pub fn counts(
    w: usize,
    h: usize,
    k: usize,
    palette: &[u8],
    lab: &[f64],
    indices: &[i16],
    out: &mut [u32],
) -> Counted
    ensures { let sheet = sheet_of w h k palette.now lab.now indices.now in
        Counts sheet out.old (filled result out.new) }
{
    let no = check(w, h, k, palette, lab, indices);
    if no != 0 {
        return Counted::Refused(no);
    }
    if out.len() < k {
        return Counted::Refused(NO_SPACE);
    }
    count_entries(indices, k, out);
    Counted::Count(k)
}
