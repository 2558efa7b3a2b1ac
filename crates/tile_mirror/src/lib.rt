// Per-tile editing: `mirror_tiles` of tools.rs. A list of changes is lent as one number of 64 bits a change, and so
// is the scratch, whose contents are free before and after the call.
#![tactic(auto)]

ghost use Rattle.std.specs.Prelude.{◌≡◌, ◌≤◌, length, take};
ghost use Rattle.base.specs.Answer.{filled};
ghost use Rattle.sheet.specs.Sheet.{sheet_of};
ghost use Rattle.change_list.specs.Listed.{handed};
ghost use Rattle.tile_mirror_checks.specs.Calls.{mirror_list, mirror_call, Ready};

use base::{Counted, NO_SPACE};
use change_list::copy_out;
use selection::{Area, Selection};
use tile_copies::mirror_in;
use tile_mirror_checks::{Stage, is_straying, is_touching, prepare};

// The first n of a buffer over the front of out, or 16 where out has fewer places, and then nothing is written.
fn hand_out(buffer: &[u64], n: usize, out: &mut [u64]) -> Counted
    requires { n ≤ length buffer.now }
    ensures { filled result out.new ≡ handed (take n buffer.now) out.old }
{
    if out.len() < n {
        return Counted::Refused(NO_SPACE);
    }
    copy_out(buffer, n, out);
    Counted::Count(n)
}

// The list with its copies, or as it is, over the front of out; 16 where that has fewer places, and then nothing is
// written.
fn finish(
    touched: bool,
    w: usize,
    h: usize,
    t: usize,
    indices: &[i16],
    s: Selection,
    list: &[u64],
    scratch: &mut [u64],
    out: &mut [u64],
) -> Counted
    requires { Ready touched w h t indices.now list.now (length scratch.old) }
    ensures { filled result out.new
        ≡ handed (mirror_list touched w h t indices.now s list.now) out.old }
{
    if touched {
        let n = mirror_in(w, h, t, indices, s, list, scratch);
        return hand_out(scratch, n, out);
    }
    hand_out(list, list.len(), out)
}

// The changes of a list, and the same change at the corresponding pixel of every other instance of each edited tile,
// normalised: a change on a mirrored instance lands mirrored, copies only change inside the selection, and a pixel that
// the caller changes itself keeps the caller's value. The list is handed back untouched where `on` is false, it is
// empty, or the tile side t is 0 or does not divide both sides. The scratch has a place for each of the sheet's, or the
// answer is 16. What lies past the result keeps its bits, and so does all of out where it has no room: 16.
pub fn mirror_tiles(
    w: usize,
    h: usize,
    k: usize,
    palette: &[u8],
    lab: &[f64],
    indices: &[i16],
    area: Area,
    on: bool,
    t: usize,
    list: &[u64],
    scratch: &mut [u64],
    out: &mut [u64],
) -> Counted
    ensures out_after { let sheet = sheet_of w h k palette.now lab.now indices.now in
        filled result out.new
        ≡ mirror_call sheet area on t list.now (length scratch.old) out.old }
    ensures scratch_len_unchanged { length scratch.new ≡ length scratch.old }
{
    let n = list.len();
    let touched = is_touching(on, n, t, w, h);
    let off = is_straying(touched, w, h, list);
    let room = scratch.len();
    match prepare(w, h, k, palette, lab, indices, area, n, off, room) {
        Stage::Canvas(s) => finish(touched, w, h, t, indices, s, list, scratch, out),
        Stage::Refused(no) => Counted::Refused(no),
    }
}
