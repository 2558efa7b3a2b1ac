// `mirror_tiles` for a list that is packed into a buffer of numbers where it is touched.
ghost use Rattle.std.specs.Prelude.{◌≡◌, true, List, map, ℕ, ◌≤◌, length, take};
ghost use Rattle.base.specs.Answer.{filled};
ghost use Rattle.base.specs.Lists.{some};
ghost use Rattle.sheet.specs.Sheet.{sheet_of};
ghost use Rattle.edit.specs.Change.{outside, unpacked};
ghost use Rattle.tile_mirror_checks.specs.Calls.{touching, straying};
ghost use Rattle.struct_mirror_list.specs.Laid.{made_of, kept_of, Laid};
ghost use Rattle.struct_mirror.specs.Lent.{mirror_lent};

use base::Counted;
use selection::Area;
use struct_mirror_list::finish;
use tile_mirror_checks::{Stage, is_touching, prepare};

// The call on n changes, where flat has their numbers as far as it has places, and `off` says whether a change that is
// read is off the sheet.
pub(crate) fn mirror_packed(
    w: usize,
    h: usize,
    k: usize,
    palette: &[u8],
    lab: &[f64],
    indices: &[i16],
    area: Area,
    on: bool,
    t: usize,
    off: bool,
    flat: &[u64],
    n: usize,
    scratch: &mut [u64],
    room: usize,
) -> Counted
    requires { touching on n t w h ≡ true → n ≤ length flat.now
        → off ≡ some (outside w h) (map unpacked (take n flat.now)) }
    ensures { (list : List ℕ) → length list ≡ n → off ≡ straying (touching on n t w h) w h list
        → (touching on n t w h ≡ true → n ≤ length flat.now → take n flat.now ≡ list)
        → Laid (made_of (touching on n t w h) result) (kept_of (touching on n t w h) result) room scratch.new list
        (filled result)
        (mirror_lent (sheet_of w h k palette.now lab.now indices.now) area on t list
        (length flat.now) (length scratch.old)) }
{
    let touched = is_touching(on, n, t, w, h);
    let places = scratch.len();
    match prepare(w, h, k, palette, lab, indices, area, n, off, places) {
        Stage::Canvas(s) => finish(touched, w, h, t, indices, s, flat, n, scratch, room),
        Stage::Refused(no) => Counted::Refused(no),
    }
}
