// A chunk of input, byte by byte: a line is held until its newline comes, and its text is written then.
ghost use Rattle.std.specs.Prelude.{◌≡◌, ◌≤◌, true, length, take};
ghost use Rattle.std.specs.Io.KnownBytes.{Appends};
ghost use Rattle.panel_lines.specs.Lines.{fed, byteFed, chunkFed, Answered};
ghost use Rattle.panel_library.specs.Texts.{step_of};

use crate::line::respell;
use crate::{Told, Turn};
use panel_frames::HELD;
use panel_streams::send;
use std::io::Write;

// What one byte does. Of a line that is too long the later bytes are not kept.
fn take_byte(len: usize, line: &mut [u8], b: u8, text: &mut [u8]) -> Turn
    requires { (len ≤ 16385) × (length line.old ≡ 16385) × (length text.old ≡ 9735) }
    ensures text_after { fed tt (take result.len line.new) (take result.n text.new)
        ≡ byteFed step_of tt (take len line.old) b }
    ensures len_bound { (result.len ≤ 16385) × (result.n ≤ 9735) }
{
    if b == b'\n' {
        let n = respell(&line[..len], text);
        return Turn { len: 0, n };
    }
    if len < HELD {
        line[len] = b;
        return Turn { len: len + 1, n: 0 };
    }
    Turn { len, n: 0 }
}

// Answers a chunk. A text that cannot be written ends it.
pub(crate) fn answer_chunk<W: Write>(
    len: usize,
    line: &mut [u8],
    chunk: &[u8],
    text: &mut [u8],
    to: &mut W,
) -> Told
    requires len_bound { (len ≤ 16385) × (length line.old ≡ 16385) × (length text.old ≡ 9735) }
    requires chunk_len_bound { length chunk.now ≤ 4096 }
    ensures answered { result.all ≡ true → Answered tt (take result.len line.new) result.said
        (chunkFed step_of tt (take len line.old) chunk.now) }
    ensures written { result.all ≡ true → Appends (W.contents to.old) (W.contents to.new)
        (chunkFed step_of tt (take len line.old) chunk.now).text }
    ensures len_bound_2 { result.len ≤ 16385 }
{
    let mut held = len;
    let mut said = 0;
    for byte in chunk {
        let t = take_byte(held, line, *byte, text);
        held = t.len;
        let n = t.n;
        let sent = send(to, &text[..n]);
        said += sent.n;
        if sent.n < n {
            return Told {
                len: held,
                said,
                all: false,
            };
        }
    }
    Told {
        len: held,
        said,
        all: true,
    }
}
