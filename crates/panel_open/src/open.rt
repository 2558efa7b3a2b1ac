// The opening frame.
ghost use Rattle.std.specs.Prelude.{◌≡◌, false, map, ◌+◌, ◌*◌, ◌≤◌, length, replicate, take, drop};
ghost use Rattle.base.specs.Limits.{storage};
ghost use Rattle.base.specs.Lists.{over};
ghost use Rattle.panel_frames.specs.Reading.{palette_in, index_of};
ghost use Rattle.panel_frames.specs.Opening.{open_sheet};
ghost use Rattle.panel_calls.specs.Panel.{open_of};
ghost use Rattle.panel_open.specs.Memory.{panel_in, Fits, Steps};

use crate::text::{number, whole};
use crate::{Core, Stepped};
use base::{BAD_SHEET, MAX_ENTRIES};
use history::fresh;
use panel_frames::{MAX_OPEN, take_indices};

// The palette of an opening frame, and zeros behind it.
#[tactic(auto, unfolding(base::specs::Lists::over))]
fn open_palette(bytes: &[u8], k: usize, palette: &mut [u8])
    requires { (6 + 3 * k ≤ length bytes.now) × (k ≤ 255) × (length palette.old ≡ 765) }
    ensures { palette.new ≡ over (palette_in k bytes.now) (replicate storage 0) }
{
    palette.fill(0);
    palette[..3 * k].copy_from_slice(&bytes[6..6 + 3 * k]);
}

// The n indices of an opening frame, which start at a byte.
#[tactic(auto, unfolding(base::specs::Lists::over))]
fn open_indices(bytes: &[u8], start: usize, n: usize, indices: &mut [i16])
    requires { (start + n ≤ length bytes.now) × (n ≤ length indices.old) }
    ensures { take n indices.new ≡ map index_of (take n (drop start bytes.now)) }
{
    take_indices(&bytes[start..start + n], indices);
}

// Opens the sheet, with zeros for what the frame leaves open and no entry locked. A failed opening prints its number only.
pub fn open_sheet(
    core: Core,
    palette: &mut [u8],
    lab: &mut [f64],
    indices: &mut [i16],
    locks: &mut [bool],
    journal: &mut [u8],
    w: usize,
    h: usize,
    k: usize,
    bytes: &[u8],
    out: &mut [u8],
    at: usize,
) -> Stepped
    requires opened_value { core.opened ≡ false }
    requires fits { Fits core (length palette.old) (length lab.old) (length indices.old) (length locks.old) (length journal.old)
        (length bytes.now) 4096 }
    requires h_in_bounds { (6 + 3 * k + w * h ≤ length bytes.now) × (at + 8203 ≤ length out.old) }
    ensures { Steps result (panel_in result.core palette.new lab.new indices.new locks.new journal.new)
        out.old out.new at (open_of (open_sheet w h k bytes.now)) }
{
    if MAX_OPEN < w {
        return number(core, BAD_SHEET, out, at);
    }
    if MAX_OPEN < h {
        return number(core, BAD_SHEET, out, at);
    }
    if MAX_ENTRIES < k {
        return number(core, BAD_SHEET, out, at);
    }
    let n = w * h;
    open_palette(bytes, k, palette);
    open_indices(bytes, 6 + 3 * k, n, indices);
    lab.fill(0.0);
    locks.fill(false);
    journal.fill(0);
    let answer = sheet::new(w, h, k, palette, lab, &indices[..n], locks);
    let no = answer.number();
    if no != 0 {
        return number(core, no, out, at);
    }
    let handle = fresh();
    let next = Core {
        opened: true,
        w,
        h,
        k,
        handle,
    };
    whole(next, indices, no, out, at)
}
