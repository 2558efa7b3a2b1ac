// A line to the frame that it is.
ghost use Rattle.std.specs.Prelude.{◌≡◌, ◌+◌, ◌*◌, ◌≤◌, length, take};
ghost use Rattle.panel_hex.specs.Spelt.{spelt, Within};
ghost use Rattle.panel_frames.specs.Reading.{opening_of, pixels_of, class_of, told, told_of, frame_of, size_of};

use crate::{Frame, MAX_DIGITS};
use base::Rgb;
use panel_hex::unhex;

// The number in two bytes, the lowest first.
pub(crate) fn two(low: u8, high: u8) -> u16
    ensures { result ≡ low + 256 * high }
{
    u16::from_le_bytes([low, high])
}

// 00 w(2) h(2) k, palette, indices.
#[tactic(auto, unfolding(crate::specs::Reading::opening_of))]
fn opening(b: &[u8]) -> Frame
    ensures { result ≡ opening_of b.now }
{
    let [_, w_low, w_high, h_low, h_high, k, ..] = b else {
        return Frame::Malformed;
    };
    let w = usize::from(two(*w_low, *w_high));
    let h = usize::from(two(*h_low, *h_high));
    let k = usize::from(*k);
    if b.len() == 6 + 3 * k + w * h {
        Frame::Open { w, h, k }
    } else {
        Frame::Malformed
    }
}

// 01 tool, changes x(2) y(2) new(2).
#[tactic(auto, unfolding(crate::specs::Reading::pixels_of))]
fn pixels(b: &[u8]) -> Frame
    ensures { result ≡ pixels_of b.now }
{
    match b {
        [_, tool, changes @ ..] if changes.len() % 6 == 0 => Frame::Pixels {
            tool: *tool,
            n: changes.len() / 6,
        },
        _ => Frame::Malformed,
    }
}

// The frame that bytes are.
#[tactic(auto, unfolding(crate::specs::Reading::class_of, journal_record::specs::Record::rgb_in))]
fn classify(b: &[u8]) -> Frame
    ensures { result ≡ class_of b.now }
{
    match b {
        [0, ..] => opening(b),
        [1, ..] => pixels(b),
        [2, index, red, green, blue] => Frame::Set {
            index: usize::from(*index),
            rgb: Rgb {
                r: *red,
                g: *green,
                b: *blue,
            },
        },
        [3, red, green, blue] => Frame::Add {
            rgb: Rgb {
                r: *red,
                g: *green,
                b: *blue,
            },
        },
        [4, from, into] => Frame::Merge {
            from: usize::from(*from),
            into: usize::from(*into),
        },
        [5] => Frame::Undo,
        [6] => Frame::Redo,
        [7] => Frame::Mark,
        _ => Frame::Malformed,
    }
}

// The frame that the bytes spelt are.
fn spelt_frame(s: Option<usize>, bytes: &[u8]) -> Frame
    requires { Within s bytes.now }
    ensures bytes_value { told result bytes.now ≡ told_of (spelt s bytes.now) }
    ensures result_in_bounds { size_of result ≤ length bytes.now }
{
    match s {
        Some(n) => classify(&bytes[..n]),
        None => Frame::Malformed,
    }
}

// What a line is read as: the frame, with its bytes at the front of `bytes`, whose rest is free.
#[tactic(auto, unfolding(crate::specs::Reading::frame_of, crate::specs::Reading::size_of))]
pub fn decode(line: &[u8], bytes: &mut [u8]) -> Frame
    requires { 8192 ≤ length bytes.old }
    ensures bytes_after { told result bytes.new ≡ frame_of line.now }
    ensures result_in_bounds { size_of result ≤ length bytes.new }
{
    if MAX_DIGITS < line.len() {
        return Frame::Malformed;
    }
    let s = unhex(line, bytes);
    spelt_frame(s, bytes)
}
