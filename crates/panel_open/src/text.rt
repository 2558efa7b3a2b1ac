// The text of a line: the whole one, or a number only.
ghost use Rattle.std.specs.Prelude.{◌≡◌, ◌+◌, ◌*◌, ◌≤◌, length, take};
ghost use Rattle.history_ledger.specs.Handle.{dirty};
ghost use Rattle.panel_frames.specs.Writing.{line_of, number_line};
ghost use Rattle.panel_open.specs.Memory.{Tells};

use crate::{Core, Stepped};
use history_handle::is_dirty;
use panel_frames::{put_line, put_number};

// The whole line.
pub fn whole(core: Core, indices: &[i16], answer: u8, out: &mut [u8], at: usize) -> Stepped
    requires { (core.w * core.h ≤ 4096) × (length indices.now ≡ 4096) × (at + 8203 ≤ length out.old) }
    ensures { Tells result core out.old out.new at
        (line_of answer core.handle.position (dirty core.handle) core.k
        (take (core.w * core.h) indices.now)) }
{
    let n = core.w * core.h;
    let handle = core.handle;
    let dirty = is_dirty(handle);
    let end = put_line(
        out,
        at,
        answer,
        handle.position,
        dirty,
        core.k,
        &indices[..n],
    );
    Stepped { core, at: end }
}

// A number only.
pub fn number(core: Core, no: u8, out: &mut [u8], at: usize) -> Stepped
    requires { at + 8203 ≤ length out.old }
    ensures { Tells result core out.old out.new at (number_line no) }
{
    let end = put_number(out, at, no);
    Stepped { core, at: end }
}
