// A chunk of input answered, and its text written.
#![tactic(auto)]

ghost use Rattle.std.specs.Prelude.{◌≡◌, true, ◌≤◌, length, take};
ghost use Rattle.std.specs.Io.KnownBytes.{Appends};
ghost use Rattle.panel_lines.specs.Lines.{chunkFed, Answered};
ghost use Rattle.panel_calls.specs.Panel.{step_of};
ghost use Rattle.panel_open.specs.Memory.{panel_in, Fits};
ghost use Rattle.panel_input.specs.Chunks.{Holds};

use panel_input::{Turn, pour};
use panel_streams::send;
use std::io::Write;

// After a chunk: the turn, how many bytes of text were taken, and whether these were all.
#[derive(Clone, Copy)]
pub struct Told {
    pub turn: Turn,
    pub said: usize,
    pub all: bool,
}

// Answers a chunk: the text is written whenever it may lack room, and at the chunk's end. A text that cannot be written
// ends it.
pub fn answer_chunk<W: Write>(
    t: Turn,
    palette: &mut [u8],
    lab: &mut [f64],
    indices: &mut [i16],
    locks: &mut [bool],
    journal: &mut [u8],
    line: &mut [u8],
    chunk: &[u8],
    bytes: &mut [u8],
    list: &mut [u64],
    out: &mut [u8],
    to: &mut W,
) -> Told
    requires fits { Fits t.core (length palette.old) (length lab.old) (length indices.old) (length locks.old) (length journal.old)
        (length bytes.old) (length list.old) }
    requires holds { Holds t (length line.old) × (length out.old ≡ 65536) × (length chunk.now ≤ 4096) }
    ensures answered { result.all ≡ true → Answered
        (panel_in result.turn.core palette.new lab.new indices.new locks.new journal.new)
        (take result.turn.len line.new) result.said (chunkFed step_of
        (panel_in t.core palette.old lab.old indices.old locks.old journal.old)
        (take t.len line.old) chunk.now) }
    ensures written { result.all ≡ true → Appends (W.contents to.old) (W.contents to.new) (chunkFed step_of
        (panel_in t.core palette.old lab.old indices.old locks.old journal.old)
        (take t.len line.old) chunk.now).text }
    ensures fits_2 { Fits result.turn.core (length palette.new) (length lab.new) (length indices.new)
        (length locks.new) (length journal.new) (length bytes.new) (length list.new) }
    ensures holds_2 { Holds result.turn (length line.new) }
{
    let mut s = t;
    let mut said = 0;
    let mut from = 0;
    while from < chunk.len() {
        let p = pour(
            s.core, s.len, palette, lab, indices, locks, journal, line, chunk, from, bytes, list,
            out,
        );
        from = p.next;
        s = p.turn;
        let at = s.at;
        let sent = send(to, &out[..at]);
        said += sent.n;
        if sent.n < at {
            return Told {
                turn: s,
                said,
                all: false,
            };
        }
    }
    Told {
        turn: s,
        said,
        all: true,
    }
}
