// A session: its opening line and its frames, and what it needs.
ghost use Rattle.std.specs.Prelude.{◌≤◌, length};

use base::{BAD_SHEET, Form, Need, Opened};
use need::journal_need;
use need_lines::{line_end, next_line};
use panel_read::read_line;
use std::io;

// The journal that is lent, more than any product has.
const JOURNAL: usize = 65_536;

// Where the session that starts at a place ends: at an empty line, or where the text does.
fn session_end(text: &[u8], at: usize) -> usize
    requires { at ≤ length text.now }
    ensures { (at ≤ result) × (result ≤ length text.now) }
{
    let mut i = at;
    while i < text.len() && text[i] != b'\n' {
        i = next_line(text, line_end(text, i));
    }
    i
}

// The pixels of a sheet whose sides are at most 64. No line opens a larger one.
fn places(w: usize, h: usize) -> usize
    ensures { result ≤ 4096 }
{
    if 64 < w || 64 < h {
        return 0;
    }
    w * h
}

// What a session needs in one form, on a sheet of at most 4,096 pixels.
fn need_in(
    w: usize,
    h: usize,
    k: usize,
    palette: &[u8],
    lab: &[f64],
    indices: &[i16],
    frames: &[u8],
    form: Form,
) -> Need {
    let n = indices.len();
    if 4096 < n {
        return Need::Refused(BAD_SHEET);
    }
    let locks = [false; 255];
    let mut work_palette = [0u8; 765];
    let mut work_lab = [0.0f64; 765];
    let mut work_indices = [0i16; 4096];
    let mut work_locks = [false; 255];
    let mut journal = [0u8; JOURNAL];
    let mut list = [0u64; 4096];
    let mut scratch = [0u8; 4096];
    let work: &mut [i16] = &mut work_indices;
    journal_need(
        w,
        h,
        k,
        palette,
        lab,
        indices,
        &locks,
        frames,
        w,
        h,
        &mut work_palette,
        &mut work_lab,
        &mut work[..n],
        &mut work_locks,
        form,
        &mut journal,
        &mut list,
        &mut scratch,
    )
}

// Prints a name, and the bytes or the number.
fn tell(rt: &impl Print, name: &str, need: Need) -> io::Result<()> {
    match need {
        Need::Bytes { need, .. } => println!(rt; "{name} {need}"),
        Need::Refused(no) => println!(rt; "{name} refused {no}"),
    }
}

// Answers a session. An empty one has no answer.
fn answer(rt: &impl Print, session: &[u8]) -> io::Result<()> {
    if session.is_empty() {
        return Ok(());
    }
    let end = line_end(session, 0);
    let next = next_line(session, end);
    let mut palette = [0u8; 765];
    let mut lab = [0.0f64; 765];
    let mut indices = [0i16; 4096];
    let opened = read_line(&session[..end], &mut palette, &mut lab, &mut indices);
    match opened {
        Opened::Sheet { w, h, k } => {
            let n = places(w, h);
            let frames = &session[next..];
            let old = need_in(
                w,
                h,
                k,
                &palette,
                &lab,
                &indices[..n],
                frames,
                Form::Coordinates,
            );
            tell(rt, "coordinates", old)?;
            let new = need_in(w, h, k, &palette, &lab, &indices[..n], frames, Form::Places);
            tell(rt, "places", new)
        }
        Opened::Refused(no) => tell(rt, "opening", Need::Refused(no)),
    }
}

// Answers the sessions of a text, one after the other.
pub(crate) fn answer_all(rt: &impl Print, text: &[u8]) -> io::Result<()> {
    let mut at = 0;
    while at < text.len() {
        let end = session_end(text, at);
        answer(rt, &text[at..end])?;
        at = next_line(text, end);
    }
    Ok(())
}
