// The bytes of a chunk, one by one: a line is held until its newline comes, and then answered.
ghost use Rattle.std.specs.Prelude.{◌≡◌, ◌+◌, ◌≤◌, length, take, drop};
ghost use Rattle.panel_lines.specs.Lines.{fed, saying, byteFed, chunkFed};
ghost use Rattle.panel_calls.specs.Panel.{step_of};
ghost use Rattle.panel_open.specs.Memory.{panel_in, Fits};
ghost use Rattle.panel_input.specs.Chunks.{Holds, Onward};

use crate::{GATHERED, HELD, LONGEST, Poured, Turn};
use panel_open::Core;
use panel_session::step;

// What one byte does. Of a line that is too long the later bytes are not kept.
fn take_byte(
    t: Turn,
    palette: &mut [u8],
    lab: &mut [f64],
    indices: &mut [i16],
    locks: &mut [bool],
    journal: &mut [u8],
    line: &mut [u8],
    b: u8,
    bytes: &mut [u8],
    list: &mut [u64],
    out: &mut [u8],
) -> Turn
    requires fits { Fits t.core (length palette.old) (length lab.old) (length indices.old) (length locks.old) (length journal.old)
        (length bytes.old) (length list.old) }
    requires holds { Holds t (length line.old) }
    requires at_in_bounds { t.at + 8203 ≤ length out.old }
    ensures out_after { fed (panel_in result.core palette.new lab.new indices.new locks.new journal.new)
        (take result.len line.new) (take result.at out.new)
        ≡ saying (take t.at out.old) (byteFed step_of
        (panel_in t.core palette.old lab.old indices.old locks.old journal.old)
        (take t.len line.old) b) }
    ensures fits_2 { Fits result.core (length palette.new) (length lab.new) (length indices.new)
        (length locks.new) (length journal.new) (length bytes.new) (length list.new) }
    ensures holds_2 { Holds result (length line.new) × (result.at ≤ t.at + 8203) }
{
    let core = t.core;
    let len = t.len;
    let at = t.at;
    if b == b'\n' {
        let s = step(
            core,
            palette,
            lab,
            indices,
            locks,
            journal,
            &line[..len],
            bytes,
            list,
            out,
            at,
        );
        let next = s.core;
        return Turn {
            core: next,
            len: 0,
            at: s.at,
        };
    }
    if len < HELD {
        line[len] = b;
        return Turn {
            core,
            len: len + 1,
            at,
        };
    }
    Turn { core, len, at }
}

// Takes the chunk's bytes from `from` on, until its end or until the text may lack room for one line more.
pub fn pour(
    core: Core,
    len: usize,
    palette: &mut [u8],
    lab: &mut [f64],
    indices: &mut [i16],
    locks: &mut [bool],
    journal: &mut [u8],
    line: &mut [u8],
    chunk: &[u8],
    from: usize,
    bytes: &mut [u8],
    list: &mut [u64],
    out: &mut [u8],
) -> Poured
    requires fits { Fits core (length palette.old) (length lab.old) (length indices.old) (length locks.old) (length journal.old)
        (length bytes.old) (length list.old) }
    requires holds { Holds (record { core = core; len = len; at = 0 }) (length line.old) }
    requires from_in_bounds { (from ≤ length chunk.now) × (length out.old ≡ 65536) }
    ensures chunk_after { saying (take result.turn.at out.new) (chunkFed step_of
        (panel_in result.turn.core palette.new lab.new indices.new locks.new journal.new)
        (take result.turn.len line.new) (drop result.next chunk.now))
        ≡ chunkFed step_of
        (panel_in core palette.old lab.old indices.old locks.old journal.old)
        (take len line.old) (drop from chunk.now) }
    ensures fits_2 { Fits result.turn.core (length palette.new) (length lab.new) (length indices.new)
        (length locks.new) (length journal.new) (length bytes.new) (length list.new) }
    ensures holds_2 { Holds result.turn (length line.new) × Onward from (length chunk.now) result.next result.turn.at }
{
    let mut t = Turn { core, len, at: 0 };
    for (i, b) in chunk[from..].iter().enumerate() {
        if GATHERED - LONGEST < t.at {
            return Poured {
                turn: t,
                next: from + i,
            };
        }
        t = take_byte(
            t, palette, lab, indices, locks, journal, line, *b, bytes, list, out,
        );
    }
    Poured {
        turn: t,
        next: chunk.len(),
    }
}
