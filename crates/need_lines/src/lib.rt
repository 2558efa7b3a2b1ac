// The lines of a text that is held whole: document 02, E11. Where a line ends, and whether one of them is no call.
#![tactic(auto)]

ghost use Rattle.std.specs.Prelude.{◌≡◌, ◌+◌, ◌≤◌, min, length, drop};
ghost use Rattle.base.specs.Lists.{some};
ghost use Rattle.panel_lines.specs.Lines.{lines_of};
ghost use Rattle.need_model.specs.Asked.{no_call, unread};
ghost use Rattle.need_lines.specs.Cut.{line_length};

use panel_frames::{Frame, decode};

// How many bytes stand before the first newline, all where there is none.
fn line_length(text: &[u8]) -> usize
    ensures value { result ≡ line_length text.now }
    ensures short { result ≤ length text.now }
{
    text.iter().position(|b| *b == b'\n').unwrap_or(text.len())
}

// Where the line that starts at a place ends: at its newline, or where the text does.
pub fn line_end(text: &[u8], at: usize) -> usize
    requires { at ≤ length text.now }
    ensures { (result ≡ at + line_length (drop at text.now)) × (result ≤ length text.now) × (at ≤ result) }
{
    at + line_length(&text[at..])
}

// Where the line after one that ends at a place starts, or where the text ends.
pub fn next_line(text: &[u8], end: usize) -> usize
    requires { end ≤ length text.now }
    ensures { let all = text.now in
        (drop result all ≡ drop (end + 1) all) × (result ≡ min (end + 1) (length all)) }
{
    (end + 1).min(text.len())
}

// An opening, or malformed.
fn no_call(frame: Frame) -> bool
    ensures { result ≡ no_call frame }
{
    match frame {
        Frame::Open { w: _, h: _, k: _ } => true,
        Frame::Pixels { tool: _, n: _ } => false,
        Frame::Set { index: _, rgb: _ } => false,
        Frame::Add { rgb: _ } => false,
        Frame::Merge { from: _, into: _ } => false,
        Frame::Undo => false,
        Frame::Redo => false,
        Frame::Mark => false,
        Frame::Malformed => true,
    }
}

// Whether a line is no call.
fn is_unread(line: &[u8]) -> bool
    ensures { result ≡ unread line.now }
{
    let mut bytes: [u8; 8192] = [0; 8192];
    no_call(decode(line, &mut bytes))
}

// Number 22 of a text: some line of it is an opening or malformed.
pub fn any_unread(text: &[u8]) -> bool
    ensures { result ≡ some unread (lines_of text.now) }
{
    let mut at = 0;
    while at < text.len() {
        let end = line_end(text, at);
        if is_unread(&text[at..end]) {
            return true;
        }
        at = next_line(text, end);
    }
    false
}
