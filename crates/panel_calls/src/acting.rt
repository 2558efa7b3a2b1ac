// What a frame asks of the history of the open sheet.
ghost use Rattle.std.specs.Prelude.{◌≡◌, ◌≤◌, length};
ghost use Rattle.history_model.specs.Document.{document_of};
ghost use Rattle.history_model.specs.Calls.{state_of, leaves};
ghost use Rattle.panel_frames.specs.Reading.{size_of};
ghost use Rattle.panel_calls.specs.Panel.{call_of};

use base::{Form, Handle, Moved};
use panel_act::{act, lay_changes};
use panel_frames::Frame;

// What a frame does with the open sheet; its bytes are scratch once they are read.
pub fn call(
    w: usize,
    h: usize,
    k: usize,
    palette: &mut [u8],
    lab: &mut [f64],
    indices: &mut [i16],
    locks: &mut [bool],
    journal: &mut [u8],
    handle: Handle,
    frame: Frame,
    bytes: &mut [u8],
    list: &mut [u64],
) -> Moved
    requires { (size_of frame ≤ length bytes.old) × (length bytes.old ≡ 8192) × (length list.old ≡ 4096)
        × (length indices.old ≤ 4096) }
    ensures { let document = document_of w h k palette.old lab.old indices.old locks.old in
        leaves result w h palette.new lab.new indices.new locks.new journal.new
        ≡ call_of (state_of document journal.old handle) frame bytes.old }
{
    lay_changes(frame, bytes, list);
    act(
        w,
        h,
        k,
        palette,
        lab,
        indices,
        locks,
        Form::Coordinates,
        journal,
        handle,
        frame,
        list,
        bytes,
    )
}
