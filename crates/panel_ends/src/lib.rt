// The two ends of a session of `panel`: at first nothing is open, and at last a line may be held that no newline ended.
#![tactic(auto)]

ghost use Rattle.std.specs.Prelude.{◌≡◌, length, take};
ghost use Rattle.panel_lines.specs.Lines.{lastFed};
ghost use Rattle.panel_calls.specs.Panel.{step_of};
ghost use Rattle.panel_open.specs.Memory.{panel_in, Fits};
ghost use Rattle.panel_input.specs.Chunks.{Holds};
ghost use Rattle.panel_ends.specs.Ends.{Begins, Ends};

use history::fresh;
use panel_input::Turn;
use panel_open::Core;
use panel_session::step;

// Nothing is open, and nothing is held.
pub fn begin() -> Turn
    ensures { Begins result }
{
    let handle = fresh();
    let core = Core {
        opened: false,
        w: 0,
        h: 0,
        k: 0,
        handle,
    };
    Turn {
        core,
        len: 0,
        at: 0,
    }
}

// Answers the line that is held, where there is one: the length of its text.
pub fn answer_held(
    t: Turn,
    palette: &mut [u8],
    lab: &mut [f64],
    indices: &mut [i16],
    locks: &mut [bool],
    journal: &mut [u8],
    line: &[u8],
    bytes: &mut [u8],
    list: &mut [u64],
    out: &mut [u8],
) -> usize
    requires fits { Fits t.core (length palette.old) (length lab.old) (length indices.old) (length locks.old) (length journal.old)
        (length bytes.old) (length list.old) }
    requires holds { Holds t (length line.now) × (length out.old ≡ 65536) }
    ensures { Ends result out.new (lastFed step_of
        (panel_in t.core palette.old lab.old indices.old locks.old journal.old)
        (take t.len line.now)) }
{
    let len = t.len;
    if 0 < len {
        let s = step(
            t.core,
            palette,
            lab,
            indices,
            locks,
            journal,
            &line[..len],
            bytes,
            list,
            out,
            0,
        );
        return s.at;
    }
    0
}
