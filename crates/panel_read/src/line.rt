// A line, with its newline or without, to the frame that it is.
ghost use Rattle.std.specs.Prelude.{◌≡◌, ◌≤◌, length};
ghost use Rattle.panel_frames.specs.Reading.{size_of};
ghost use Rattle.panel_frames.specs.Opening.{sheet_in};
ghost use Rattle.panel_read.specs.ReadSheet.{bare, storage_checks, read_made, taken_of, line_read, read_of};

use crate::opening::read_open;
use base::{Opened, UNREAD_FRAME};
use panel_frames::{Frame, MAX_BYTES, decode};

// A line without its newline.
#[tactic(auto, unfolding(crate::specs::ReadSheet::bare))]
fn bare(line: &[u8]) -> &[u8]
    ensures { result.now ≡ bare line.now }
{
    match line {
        [front @ .., b'\n'] => front,
        _ => line,
    }
}

// A frame: the sheet that it opens, or 22.
#[tactic(auto, unfolding(panel_frames::specs::Opening::sheet_in, panel_frames::specs::Reading::size_of))]
fn read_frame(
    frame: Frame,
    bytes: &[u8],
    palette: &mut [u8],
    lab: &mut [f64],
    indices: &mut [i16],
) -> Opened
    requires { size_of frame ≤ length bytes.now }
    ensures { let lent = storage_checks palette.old lab.old in
        read_made result palette.new lab.new indices.new
        ≡ taken_of (sheet_in lent frame bytes.now)
        palette.old lab.old indices.old }
{
    match frame {
        Frame::Open { w, h, k } => read_open(w, h, k, bytes, palette, lab, indices),
        _ => Opened::Refused(UNREAD_FRAME),
    }
}

// Reads a line that has no newline.
pub fn read_line(line: &[u8], palette: &mut [u8], lab: &mut [f64], indices: &mut [i16]) -> Opened
    ensures { read_made result palette.new lab.new indices.new
        ≡ line_read line.now palette.old lab.old indices.old }
{
    let mut bytes = [0u8; MAX_BYTES];
    let frame = decode(line, &mut bytes);
    read_frame(frame, &bytes, palette, lab, indices)
}

// Reads the sheet of a line, whose newline may lack: its k colours, their LAB and its indices go to the front of the
// buffers, which keep the rest. Refused, nothing is written.
#[tactic(auto, unfolding(crate::specs::ReadSheet::read_of))]
pub fn read_sheet(line: &[u8], palette: &mut [u8], lab: &mut [f64], indices: &mut [i16]) -> Opened
    ensures { read_made result palette.new lab.new indices.new
        ≡ read_of line.now palette.old lab.old indices.old }
{
    read_line(bare(line), palette, lab, indices)
}
