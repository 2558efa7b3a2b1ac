// The loop of reads and writes: what is read is answered, and the text is written.
ghost use Rattle.std.specs.Prelude.{◌≡◌, true, false, length, take, IfSome};
ghost use Rattle.std.specs.Io.KnownBytes.{Appends, Consumes, IsAtEnd};
ghost use Rattle.panel_lines.specs.Lines.{chunkFed, Answered, Heard, lines_of, joined};
ghost use Rattle.panel_calls.specs.Panel.{step_of, panel_of};
ghost use Rattle.panel_open.specs.Memory.{panel_in, Fits};
ghost use Rattle.panel_input.specs.Chunks.{Holds};
ghost use Rattle.panel_streams.specs.Streams.{Streamed};
ghost use Rattle.panel_console.specs.Session.{Reads, Closed, Whole};

use crate::{Got, Session};
use panel_chunk::answer_chunk;
use panel_ends::{answer_held, begin};
use panel_input::{GATHERED, HELD, Turn};
use panel_streams::{CHUNK, count, goes_on, is_sound, send};
use std::io::{Read, Write};
use std::num::wrapping_add_u64;

// Reads once, and answers what came, which stands at the front of `chunk` then. A read that failed for the moment only is
// made again.
fn answer_some<R: Read, W: Write>(
    t: Turn,
    palette: &mut [u8],
    lab: &mut [f64],
    indices: &mut [i16],
    locks: &mut [bool],
    journal: &mut [u8],
    line: &mut [u8],
    chunk: &mut [u8],
    bytes: &mut [u8],
    list: &mut [u64],
    out: &mut [u8],
    input: &mut R,
    output: &mut W,
) -> Got
    requires fits { Fits t.core (length palette.old) (length lab.old) (length indices.old) (length locks.old) (length journal.old)
        (length bytes.old) (length list.old) }
    requires holds { Holds t (length line.old) × (length out.old ≡ 65536) × (length chunk.old ≡ 4096) }
    ensures answered { result.sound ≡ true → Answered
        (panel_in result.turn.core palette.new lab.new indices.new locks.new journal.new)
        (take result.turn.len line.new) result.said (chunkFed step_of
        (panel_in t.core palette.old lab.old indices.old locks.old journal.old)
        (take t.len line.old) (take result.n chunk.new)) }
    ensures read { Consumes (R.remaining input.old) (R.remaining input.new) (take result.n chunk.new) }
    ensures written { result.sound ≡ true → Appends (W.contents output.old) (W.contents output.new) (chunkFed step_of
        (panel_in t.core palette.old lab.old indices.old locks.old journal.old)
        (take t.len line.old) (take result.n chunk.new)).text }
    ensures ended { result.more ≡ false → result.sound ≡ true → IsAtEnd (R.remaining input.new) }
    ensures reads { Reads result }
    ensures fits_2 { Fits result.turn.core (length palette.new) (length lab.new) (length indices.new)
        (length locks.new) (length journal.new) (length bytes.new) (length list.new) }
    ensures holds_2 { Holds result.turn (length line.new) }
{
    let got = input.read(chunk);
    let n = count(&got);
    if n == 0 {
        let more = goes_on(&got);
        let sound = is_sound(&got, more);
        return Got {
            turn: t,
            n: 0,
            said: 0,
            sound,
            more,
        };
    }
    let told = answer_chunk(
        t,
        palette,
        lab,
        indices,
        locks,
        journal,
        line,
        &chunk[..n],
        bytes,
        list,
        out,
        output,
    );
    let turn = told.turn;
    let sound = told.all;
    Got {
        turn,
        n,
        said: told.said,
        sound,
        more: sound,
    }
}

// Reads until a read brings nothing, or a stream fails. A proved loop has to end, and nothing says that an input
// does: it counts its reads, up to a number that no run reaches.
fn answer_reads<R: Read, W: Write>(
    t: Turn,
    palette: &mut [u8],
    lab: &mut [f64],
    indices: &mut [i16],
    locks: &mut [bool],
    journal: &mut [u8],
    line: &mut [u8],
    chunk: &mut [u8],
    bytes: &mut [u8],
    list: &mut [u64],
    out: &mut [u8],
    input: &mut R,
    output: &mut W,
) -> Session
    requires fits { Fits t.core (length palette.old) (length lab.old) (length indices.old) (length locks.old) (length journal.old)
        (length bytes.old) (length list.old) }
    requires holds { Holds t (length line.old) × (length out.old ≡ 65536) × (length chunk.old ≡ 4096) }
    ensures heard { result.sound ≡ true → Heard step_of
        (panel_in t.core palette.old lab.old indices.old locks.old journal.old)
        (take t.len line.old)
        (panel_in result.turn.core palette.new lab.new indices.new locks.new journal.new)
        (take result.turn.len line.new) result.heard result.said }
    ensures streamed { result.sound ≡ true → Streamed step_of
        (panel_in t.core palette.old lab.old indices.old locks.old journal.old)
        (take t.len line.old)
        (panel_in result.turn.core palette.new lab.new indices.new locks.new journal.new)
        (take result.turn.len line.new) result.heard result.said
        (R.remaining input.old) (R.remaining input.new) (W.contents output.old) (W.contents output.new) }
    ensures ended { result.more ≡ false → result.sound ≡ true → IsAtEnd (R.remaining input.new) }
    ensures closed { Closed result }
    ensures fits_2 { Fits result.turn.core (length palette.new) (length lab.new) (length indices.new)
        (length locks.new) (length journal.new) (length bytes.new) (length list.new) }
    ensures holds_2 { Holds result.turn (length line.new) }
{
    let mut s = t;
    let mut reads = 0;
    let mut heard = 0;
    let mut said = 0;
    let mut last = 0;
    for _ in 0..u64::MAX {
        let g = answer_some(
            s, palette, lab, indices, locks, journal, line, chunk, bytes, list, out, input, output,
        );
        s = g.turn;
        reads += 1;
        heard = wrapping_add_u64(heard, g.n as u64);
        said = wrapping_add_u64(said, g.said as u64);
        last = g.n;
        if !g.more {
            return Session {
                turn: s,
                reads,
                heard,
                said,
                last,
                sound: g.sound,
                more: false,
            };
        }
    }
    Session {
        turn: s,
        reads,
        heard,
        said,
        last,
        sound: true,
        more: true,
    }
}

// A session from its beginning: the reads, and the last line, where it has no newline. Where a stream failed nothing more
// is written, since the held line may be cut.
fn answer_all<R: Read, W: Write>(
    palette: &mut [u8],
    lab: &mut [f64],
    indices: &mut [i16],
    locks: &mut [bool],
    journal: &mut [u8],
    line: &mut [u8],
    chunk: &mut [u8],
    bytes: &mut [u8],
    list: &mut [u64],
    out: &mut [u8],
    input: &mut R,
    output: &mut W,
) -> Session
    requires palette_len { (length palette.old ≡ 765) × (length lab.old ≡ 765) × (length indices.old ≡ 4096)
        × (length locks.old ≡ 255) × (length journal.old ≡ 4096) × (length line.old ≡ 16385) }
    requires chunk_len { (length chunk.old ≡ 4096) × (length bytes.old ≡ 8192) × (length list.old ≡ 4096)
        × (length out.old ≡ 65536) }
    ensures whole { Whole result }
    ensures printed { result.sound ≡ true → result.more ≡ false → IfSome (R.remaining input.old)
        (λ xs. Appends (W.contents output.old) (W.contents output.new) (joined (panel_of (lines_of xs)))) }
{
    let t = begin();
    let s = answer_reads(
        t, palette, lab, indices, locks, journal, line, chunk, bytes, list, out, input, output,
    );
    if !s.sound {
        return s;
    }
    let turn = s.turn;
    let at = answer_held(
        turn, palette, lab, indices, locks, journal, line, bytes, list, out,
    );
    let sent = send(output, &out[..at]);
    let said = wrapping_add_u64(s.said, sent.n as u64);
    Session {
        turn,
        reads: s.reads,
        heard: s.heard,
        said,
        last: s.last,
        sound: sent.n == at,
        more: s.more,
    }
}

// Answers what `input` reads, to its end, on `output`.
pub fn run<R: Read, W: Write>(input: &mut R, output: &mut W) -> Session
    ensures whole { Whole result }
    ensures printed { result.sound ≡ true → result.more ≡ false → IfSome (R.remaining input.old)
        (λ xs. Appends (W.contents output.old) (W.contents output.new) (joined (panel_of (lines_of xs)))) }
{
    let mut palette = [0u8; 765];
    let mut lab = [0.0f64; 765];
    let mut indices = [0i16; 4096];
    let mut locks = [false; 255];
    let mut journal = [0u8; 4096];
    let mut line = [0u8; HELD];
    let mut chunk = [0u8; CHUNK];
    let mut bytes = [0u8; 8192];
    let mut list = [0u64; 4096];
    let mut out = [0u8; GATHERED];
    answer_all(
        &mut palette,
        &mut lab,
        &mut indices,
        &mut locks,
        &mut journal,
        &mut line,
        &mut chunk,
        &mut bytes,
        &mut list,
        &mut out,
        input,
        output,
    )
}
