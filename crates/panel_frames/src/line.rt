// The lines that are printed.
ghost use Rattle.std.specs.Prelude.{◌≡◌, ◌∷◌, [], ◌+◌, ◌*◌, ◌≤◌, length};
ghost use Rattle.journal_record.specs.Bytes.{splice};
ghost use Rattle.panel_hex.specs.Hex.{hex_of};
ghost use Rattle.panel_frames.specs.Writing.{head_of, line_of, number_line};

use panel_hex::{put_byte, put_bytes, put_indices};

pub fn put_newline(out: &mut [u8], at: usize)
    requires { at + 1 ≤ length out.old }
    ensures { out.new ≡ splice out.old at (10 ∷ []) }
{
    out[at] = b'\n';
}

// Answer, position (2), dirty, k.
#[tactic(auto, unfolding(crate::specs::Writing::head_of, journal_record::specs::Bytes::le))]
fn put_head(out: &mut [u8], at: usize, answer: u8, position: usize, dirty: bool, k: usize)
    requires { at + 10 ≤ length out.old }
    ensures { out.new ≡ splice out.old at (hex_of (head_of answer position dirty k)) }
{
    let low = (position % 256) as u8;
    let high = (position / 256 % 256) as u8;
    let dirt = u8::from(dirty);
    let entries = (k % 256) as u8;
    let head = [answer, low, high, dirt, entries];
    put_bytes(out, at, &head);
}

// Writes the whole line from `at` on, and answers where it ends.
pub fn put_line(
    out: &mut [u8],
    at: usize,
    answer: u8,
    position: usize,
    dirty: bool,
    k: usize,
    indices: &[i16],
) -> usize
    requires { at + 11 + 2 * length indices.now ≤ length out.old }
    ensures out_after { out.new ≡ splice out.old at (line_of answer position dirty k indices.now) }
    ensures value { result ≡ at + length (line_of answer position dirty k indices.now) }
{
    let end = at + 10 + 2 * indices.len();
    put_head(out, at, answer, position, dirty, k);
    put_indices(out, at + 10, indices);
    put_newline(out, end);
    end + 1
}

// Writes the line of a number only from `at` on, and answers where it ends.
pub fn put_number(out: &mut [u8], at: usize, n: u8) -> usize
    requires { at + 3 ≤ length out.old }
    ensures out_after { out.new ≡ splice out.old at (number_line n) }
    ensures value { result ≡ at + length (number_line n) }
{
    put_byte(out, at, n);
    put_newline(out, at + 2);
    at + 3
}
