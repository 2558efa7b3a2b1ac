// A line answered: the state after it, and its text.
ghost use Rattle.std.specs.Prelude.{◌≡◌, true, false, ◌+◌, ◌≤◌, length};
ghost use Rattle.panel_frames.specs.Reading.{size_of};
ghost use Rattle.panel_calls.specs.Panel.{unopened_of, act_of, step_of};
ghost use Rattle.panel_open.specs.Memory.{panel_in, Fits, Steps};

use base::UNREAD_FRAME;
use panel_calls::call;
use panel_frames::{Frame, decode};
use panel_open::{Core, Stepped, number, open_sheet, whole};

// A frame before the opening.
fn unopened(
    core: Core,
    palette: &mut [u8],
    lab: &mut [f64],
    indices: &mut [i16],
    locks: &mut [bool],
    journal: &mut [u8],
    frame: Frame,
    bytes: &[u8],
    out: &mut [u8],
    at: usize,
) -> Stepped
    requires opened_value { core.opened ≡ false }
    requires fits { Fits core (length palette.old) (length lab.old) (length indices.old) (length locks.old) (length journal.old)
        (length bytes.now) 4096 }
    requires frame_in_bounds { (size_of frame ≤ length bytes.now) × (at + 8203 ≤ length out.old) }
    ensures { Steps result (panel_in result.core palette.new lab.new indices.new locks.new journal.new)
        out.old out.new at (unopened_of frame bytes.now) }
{
    match frame {
        Frame::Open { w, h, k } => open_sheet(
            core, palette, lab, indices, locks, journal, w, h, k, bytes, out, at,
        ),
        _ => number(core, UNREAD_FRAME, out, at),
    }
}

// A frame on the open sheet.
fn act(
    core: Core,
    palette: &mut [u8],
    lab: &mut [f64],
    indices: &mut [i16],
    locks: &mut [bool],
    journal: &mut [u8],
    frame: Frame,
    bytes: &mut [u8],
    list: &mut [u64],
    out: &mut [u8],
    at: usize,
) -> Stepped
    requires opened_value { core.opened ≡ true }
    requires fits { Fits core (length palette.old) (length lab.old) (length indices.old) (length locks.old) (length journal.old)
        (length bytes.old) (length list.old) }
    requires frame_in_bounds { (size_of frame ≤ length bytes.old) × (at + 8203 ≤ length out.old) }
    ensures { Steps result (panel_in result.core palette.new lab.new indices.new locks.new journal.new)
        out.old out.new at
        (act_of (panel_in core palette.old lab.old indices.old locks.old journal.old)
        frame bytes.old) }
{
    let n = core.w * core.h;
    let moved = call(
        core.w,
        core.h,
        core.k,
        palette,
        lab,
        &mut indices[..n],
        locks,
        journal,
        core.handle,
        frame,
        bytes,
        list,
    );
    let handle = moved.handle;
    let next = Core {
        opened: true,
        w: core.w,
        h: core.h,
        k: moved.k,
        handle,
    };
    let answer = moved.answer;
    let no = answer.number();
    if no == UNREAD_FRAME {
        return number(next, no, out, at);
    }
    whole(next, indices, no, out, at)
}

// What one line does.
pub fn step(
    core: Core,
    palette: &mut [u8],
    lab: &mut [f64],
    indices: &mut [i16],
    locks: &mut [bool],
    journal: &mut [u8],
    line: &[u8],
    bytes: &mut [u8],
    list: &mut [u64],
    out: &mut [u8],
    at: usize,
) -> Stepped
    requires fits { Fits core (length palette.old) (length lab.old) (length indices.old) (length locks.old) (length journal.old)
        (length bytes.old) (length list.old) }
    requires at_in_bounds { at + 8203 ≤ length out.old }
    ensures { Steps result (panel_in result.core palette.new lab.new indices.new locks.new journal.new)
        out.old out.new at
        (step_of (panel_in core palette.old lab.old indices.old locks.old journal.old)
        line.now) }
{
    let frame = decode(line, bytes);
    if core.opened {
        return act(
            core, palette, lab, indices, locks, journal, frame, bytes, list, out, at,
        );
    }
    unopened(
        core, palette, lab, indices, locks, journal, frame, bytes, out, at,
    )
}
