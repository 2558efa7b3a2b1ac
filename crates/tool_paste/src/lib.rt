// `paste` of tools.rs: a clip put on the sheet. The rows that it lands on are laid out in the scratch and painted there, and
// the changes are what lies between the two pictures in these rows. What `paste` and `tool_move` answer stands here, too.
#![tactic(auto)]

ghost use Rattle.std.specs.Prelude.{◌≡◌, false, map, ◌+◌, ◌≤◌, ◌<◌, length};
ghost use Rattle.base.specs.Checks.{first_of};
ghost use Rattle.base.specs.Answer.{counted_told};
ghost use Rattle.base.specs.Answer.Told.{result as told};
ghost use Rattle.base.specs.Ints.{far};
ghost use Rattle.sheet.specs.Sheet.{sheet_of};
ghost use Rattle.selection.specs.Calls.{chosen_told, shifted_told};
ghost use Rattle.edit.specs.Change.{packed};
ghost use Rattle.change_list.specs.Fronts.{Front};
ghost use Rattle.change_list.specs.Listed.{InScratch};
ghost use Rattle.change_normal.specs.Normal.{normalize_of};
ghost use Rattle.tool_paste_model.specs.Pasting.{Pastable, placed_of, paste_changes, pasted_selection, clip_checks};
ghost use Rattle.tool_paste_model.specs.Pasting.{paste_checks, paste_call, left, shifted_count, shifted_of};

use base::{BAD_CLIP, Counted, MAX_SIDE, NO_SPACE, TOO_FAR, is_far};
use change_list::{copy_out, counted, differences, lay_rows};
use selection::{Chosen, Selection, Shifted};
use sheet::check;
use tool_block::{land, landed_rows, landing_on};
use tool_paste_model::Landing;

// The number of the first check of a corner, a clip and the scratch that applies, or 0: 15, 17, 16. `room` is the
// scratch's length, `pixels` the sheet's.
fn clip_no(
    clip_w: usize,
    clip_h: usize,
    clip: &[i16],
    x: i32,
    y: i32,
    room: usize,
    pixels: usize,
) -> u8
    ensures { result ≡ first_of (clip_checks clip_w clip_h clip.now x y room pixels) }
{
    if is_far(x) {
        return TOO_FAR;
    }
    if is_far(y) {
        return TOO_FAR;
    }
    if MAX_SIDE < clip_w {
        return BAD_CLIP;
    }
    if MAX_SIDE < clip_h {
        return BAD_CLIP;
    }
    if clip.len() != clip_w * clip_h {
        return BAD_CLIP;
    }
    if room < pixels {
        return NO_SPACE;
    }
    0
}

// The number of the first check of a paste that applies, or 0.
fn paste_no(
    w: usize,
    h: usize,
    k: usize,
    palette: &[u8],
    lab: &[f64],
    indices: &[i16],
    clip_w: usize,
    clip_h: usize,
    clip: &[i16],
    x: i32,
    y: i32,
    room: usize,
) -> u8
    ensures { (
        let sheet = sheet_of w h k palette.now lab.now indices.now in
        result ≡ first_of (paste_checks sheet clip_w clip_h clip.now x y room)
        ) }
{
    let no = check(w, h, k, palette, lab, indices);
    if no != 0 {
        return no;
    }
    clip_no(clip_w, clip_h, clip, x, y, room, indices.len())
}

// The changes of a paste at the front of the scratch; answers how many they are. The rows that the clip lands on are
// laid out and compared.
fn list_paste(
    w: usize,
    h: usize,
    indices: &[i16],
    clip_w: usize,
    clip_h: usize,
    clip: &[i16],
    x: i32,
    y: i32,
    scratch: &mut [u64],
) -> usize
    requires { Pastable w h indices.now clip_w clip_h x y (length clip.now) (length scratch.old) }
    ensures { Front
        (map packed (normalize_of (paste_changes w h indices.now clip_w clip_h clip.now x y)))
        scratch.new result }
{
    let rows = landed_rows(landing_on(0, clip_h, y, h), 0);
    lay_rows(indices, w, rows.start, rows.count, scratch);
    let s = Selection {
        x: 0,
        y: 0,
        w: clip_w as u16,
        h: clip_h as u16,
    };
    land(clip, clip_w, s, x, y, w, h, scratch);
    differences(indices, w, rows.start, rows.count, scratch)
}

// The rectangle that lands, or nothing.
fn placed(x: Landing, y: Landing) -> Chosen
    requires { (0 < x.count → x.to + x.count ≤ 1024) × (0 < y.count → y.to + y.count ≤ 1024) }
    ensures { chosen_told result ≡ told (placed_of x y) }
{
    if x.count == 0 {
        return Chosen::Nothing;
    }
    if y.count == 0 {
        return Chosen::Nothing;
    }
    Chosen::Part(Selection {
        x: x.to as u16,
        y: y.to as u16,
        w: x.count as u16,
        h: y.count as u16,
    })
}

// The selection after a paste: the part of the clip's rectangle that is on the sheet.
fn pasted_selection(clip_w: usize, clip_h: usize, x: i32, y: i32, w: usize, h: usize) -> Chosen
    requires { (far x ≡ false) × (far y ≡ false) × (clip_w ≤ 1024) × (clip_h ≤ 1024) × (w ≤ 1024) × (h ≤ 1024) }
    ensures { chosen_told result ≡ told (pasted_selection clip_w clip_h x y w h) }
{
    placed(landing_on(0, clip_w, x, w), landing_on(0, clip_h, y, h))
}

// What a call answers with a list that was counted and a selection.
pub fn shifted_of(counted: Counted, selection: Chosen) -> Shifted
    ensures { shifted_told result ≡ shifted_of (chosen_told selection) (counted_told counted) }
{
    match counted {
        Counted::Count(count) => Shifted::Changes { count, selection },
        Counted::Refused(no) => Shifted::Refused(no),
    }
}

// How many changes such a call left, none where it was refused.
pub fn shifted_count(answer: Shifted) -> usize
    ensures { result ≡ shifted_count answer }
{
    match answer {
        Shifted::Changes {
            count,
            selection: _,
        } => count,
        Shifted::Refused(_) => 0,
    }
}

// Pastes a clip with its top-left corner at (x, y): every pixel of the rectangle, transparent ones included,
// clipped to the sheet. The changes are left at the front of the scratch for a
// buffer of `room` places.
pub fn paste_in(
    w: usize,
    h: usize,
    k: usize,
    palette: &[u8],
    lab: &[f64],
    indices: &[i16],
    clip_w: usize,
    clip_h: usize,
    clip: &[i16],
    x: i32,
    y: i32,
    scratch: &mut [u64],
    room: usize,
) -> Shifted
    ensures fact { (
        let sheet = sheet_of w h k palette.now lab.now indices.now in
        InScratch (shifted_count result) room scratch.new (left result)
        (paste_call sheet clip_w clip_h clip.now x y (length scratch.old))
        ) }
    ensures scratch_after { length scratch.new ≡ length scratch.old }
{
    let no = paste_no(
        w,
        h,
        k,
        palette,
        lab,
        indices,
        clip_w,
        clip_h,
        clip,
        x,
        y,
        scratch.len(),
    );
    if no != 0 {
        return Shifted::Refused(no);
    }
    let n = list_paste(w, h, indices, clip_w, clip_h, clip, x, y, scratch);
    shifted_of(
        counted(n, room),
        pasted_selection(clip_w, clip_h, x, y, w, h),
    )
}

// The same at the front of out.
pub fn paste(
    w: usize,
    h: usize,
    k: usize,
    palette: &[u8],
    lab: &[f64],
    indices: &[i16],
    clip_w: usize,
    clip_h: usize,
    clip: &[i16],
    x: i32,
    y: i32,
    scratch: &mut [u64],
    out: &mut [u64],
) -> Shifted
    ensures fact { (
        let sheet = sheet_of w h k palette.now lab.now indices.now in
        left result out.new
        ≡ paste_call sheet clip_w clip_h clip.now x y (length scratch.old) out.old
        ) }
    ensures scratch_after { length scratch.new ≡ length scratch.old }
{
    let r = paste_in(
        w,
        h,
        k,
        palette,
        lab,
        indices,
        clip_w,
        clip_h,
        clip,
        x,
        y,
        scratch,
        out.len(),
    );
    copy_out(scratch, shifted_count(r), out);
    r
}
