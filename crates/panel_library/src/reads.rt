// The loop of reads and writes.
ghost use Rattle.std.specs.Prelude.{◌≡◌, ◌≤◌, true, false, [], length, take, IfSome};
ghost use Rattle.std.specs.Io.KnownBytes.{Appends, Consumes, IsAtEnd};
ghost use Rattle.panel_lines.specs.Lines.{chunkFed, lastFed, Answered, Heard, lines_of, joined};
ghost use Rattle.panel_spelling.specs.Library.{library_of};
ghost use Rattle.panel_streams.specs.Streams.{Streamed};
ghost use Rattle.panel_library.specs.Texts.{Front, step_of};
ghost use Rattle.panel_library.specs.Runs.{Reads, Closed, Whole};

use crate::chunk::answer_chunk;
use crate::line::respell;
use crate::{Got, LONGEST, Run};
use panel_frames::HELD;
use panel_streams::{CHUNK, count, goes_on, is_sound, send};
use std::io::{Read, Write};
use std::num::wrapping_add_u64;

// Reads once, and answers what came, which stands at the front of `chunk` then. A read that failed for the moment only is
// made again.
fn answer_some<R: Read, W: Write>(
    len: usize,
    line: &mut [u8],
    chunk: &mut [u8],
    text: &mut [u8],
    input: &mut R,
    output: &mut W,
) -> Got
    requires len_bound { (len ≤ 16385) × (length line.old ≡ 16385) × (length text.old ≡ 9735) }
    requires chunk_len { length chunk.old ≡ 4096 }
    ensures answered { result.sound ≡ true → Answered tt (take result.len line.new) result.said
        (chunkFed step_of tt (take len line.old) (take result.n chunk.new)) }
    ensures read { Consumes (R.remaining input.old) (R.remaining input.new) (take result.n chunk.new) }
    ensures written { result.sound ≡ true → Appends (W.contents output.old) (W.contents output.new)
        (chunkFed step_of tt (take len line.old) (take result.n chunk.new)).text }
    ensures ended { result.more ≡ false → result.sound ≡ true → IsAtEnd (R.remaining input.new) }
    ensures reads { Reads result }
{
    let got = input.read(chunk);
    let n = count(&got);
    if n == 0 {
        let more = goes_on(&got);
        let sound = is_sound(&got, more);
        return Got {
            len,
            n: 0,
            said: 0,
            sound,
            more,
        };
    }
    let told = answer_chunk(len, line, &chunk[..n], text, output);
    let sound = told.all;
    Got {
        len: told.len,
        n,
        said: told.said,
        sound,
        more: sound,
    }
}

// Reads until a read brings nothing, or a stream fails. A proved loop has to end, and nothing says that an input does: it
// counts its reads, up to a number that no run reaches.
fn answer_reads<R: Read, W: Write>(
    line: &mut [u8],
    chunk: &mut [u8],
    text: &mut [u8],
    input: &mut R,
    output: &mut W,
) -> Run
    requires { (length line.old ≡ 16385) × (length text.old ≡ 9735) × (length chunk.old ≡ 4096) }
    ensures heard { result.sound ≡ true → Heard step_of tt [] tt (take result.len line.new) result.heard result.said }
    ensures streamed { result.sound ≡ true → Streamed step_of tt [] tt (take result.len line.new) result.heard result.said
        (R.remaining input.old) (R.remaining input.new) (W.contents output.old) (W.contents output.new) }
    ensures ended { result.more ≡ false → result.sound ≡ true → IsAtEnd (R.remaining input.new) }
    ensures closed { Closed result }
{
    let mut len = 0;
    let mut reads = 0;
    let mut heard = 0;
    let mut said = 0;
    let mut last = 0;
    for _ in 0..u64::MAX {
        let g = answer_some(len, line, chunk, text, input, output);
        len = g.len;
        reads += 1;
        heard = wrapping_add_u64(heard, g.n as u64);
        said = wrapping_add_u64(said, g.said as u64);
        last = g.n;
        if !g.more {
            return Run {
                len,
                reads,
                heard,
                said,
                last,
                sound: g.sound,
                more: false,
            };
        }
    }
    Run {
        len,
        reads,
        heard,
        said,
        last,
        sound: true,
        more: true,
    }
}

// The text of the line that is held, where there is one: its length.
fn answer_held(len: usize, line: &[u8], text: &mut [u8]) -> usize
    requires { (len ≤ 16385) × (length line.now ≡ 16385) × (length text.old ≡ 9735) }
    ensures { Front result text.new (lastFed step_of tt (take len line.now)) }
{
    if 0 < len {
        return respell(&line[..len], text);
    }
    0
}

// The reads, and the last line, where it has no newline. Where a stream failed nothing more is written, since the held
// line may be cut.
fn answer_all<R: Read, W: Write>(
    line: &mut [u8],
    chunk: &mut [u8],
    text: &mut [u8],
    input: &mut R,
    output: &mut W,
) -> Run
    requires { (length line.old ≡ 16385) × (length text.old ≡ 9735) × (length chunk.old ≡ 4096) }
    ensures whole { Whole result }
    ensures printed { result.sound ≡ true → result.more ≡ false → IfSome (R.remaining input.old)
        (λ xs. Appends (W.contents output.old) (W.contents output.new) (joined (library_of (lines_of xs)))) }
{
    let s = answer_reads(line, chunk, text, input, output);
    if !s.sound {
        return s;
    }
    let n = answer_held(s.len, line, text);
    let sent = send(output, &text[..n]);
    let said = wrapping_add_u64(s.said, sent.n as u64);
    Run {
        len: s.len,
        reads: s.reads,
        heard: s.heard,
        said,
        last: s.last,
        sound: sent.n == n,
        more: s.more,
    }
}

// Answers what `input` reads, to its end, on `output`.
pub(crate) fn run<R: Read, W: Write>(input: &mut R, output: &mut W) -> Run
    ensures whole { Whole result }
    ensures printed { result.sound ≡ true → result.more ≡ false → IfSome (R.remaining input.old)
        (λ xs. Appends (W.contents output.old) (W.contents output.new) (joined (library_of (lines_of xs)))) }
{
    let mut line = [0u8; HELD];
    let mut chunk = [0u8; CHUNK];
    let mut text = [0u8; LONGEST];
    answer_all(&mut line, &mut chunk, &mut text, input, output)
}
