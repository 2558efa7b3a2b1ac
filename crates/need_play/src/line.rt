// A line played.
ghost use Rattle.std.specs.Prelude.{◌≡◌, ◌≤◌, length, take};
ghost use Rattle.history_model.specs.Document.{document_of};
ghost use Rattle.history_model.specs.Calls.{state_of, leaves};
ghost use Rattle.panel_frames.specs.Reading.{size_of};
ghost use Rattle.panel_model.specs.Acts.{changes_in, actBy};
ghost use Rattle.need_play.specs.Play.{line_on};

use base::{Form, Handle, Moved};
use panel_act::act;
use panel_frames::{Frame, decode, take_changes};

// What a frame asks, with its bytes at the front of `bytes`. A pixel frame's changes, at most 1,365, have a list of their
// own, so that `list` need have room for a merge's alone.
fn play_frame(
    w: usize,
    h: usize,
    k: usize,
    palette: &mut [u8],
    lab: &mut [f64],
    indices: &mut [i16],
    locks: &mut [bool],
    form: Form,
    journal: &mut [u8],
    handle: Handle,
    frame: Frame,
    bytes: &[u8],
    list: &mut [u64],
    scratch: &mut [u8],
) -> Moved
    requires { (size_of frame ≤ length bytes.now) × (length bytes.now ≡ 8192) × (length indices.old ≤ length list.old) }
    ensures { let document = document_of w h k palette.old lab.old indices.old locks.old in
        leaves result w h palette.new lab.new indices.new locks.new journal.new
        ≡ actBy form (length scratch.old) (state_of document journal.old handle) frame
        (changes_in frame bytes.now) }
{
    let mut own: [u64; 1365] = [0; 1365];
    if let Frame::Pixels { tool: _, n } = frame {
        take_changes(bytes, n, &mut own);
        return act(
            w, h, k, palette, lab, indices, locks, form, journal, handle, frame, &mut own, scratch,
        );
    }
    act(
        w, h, k, palette, lab, indices, locks, form, journal, handle, frame, list, scratch,
    )
}

// What a line asks.
pub(crate) fn play_line(
    w: usize,
    h: usize,
    k: usize,
    palette: &mut [u8],
    lab: &mut [f64],
    indices: &mut [i16],
    locks: &mut [bool],
    form: Form,
    journal: &mut [u8],
    handle: Handle,
    line: &[u8],
    list: &mut [u64],
    scratch: &mut [u8],
) -> Moved
    requires { length indices.old ≤ length list.old }
    ensures { let document = document_of w h k palette.old lab.old indices.old locks.old in
        leaves result w h palette.new lab.new indices.new locks.new journal.new
        ≡ line_on form (length scratch.old) (state_of document journal.old handle) line.now }
{
    let mut bytes: [u8; 8192] = [0; 8192];
    let frame = decode(line, &mut bytes);
    play_frame(
        w, h, k, palette, lab, indices, locks, form, journal, handle, frame, &bytes, list, scratch,
    )
}
