// Hexadecimal digits, in ASCII: read in either case, written in upper case.
#![tactic(auto)]

ghost use Rattle.std.specs.Prelude.{◌≡◌, map, ◌+◌, ◌*◌, ◌≤◌, ◌<◌, length, ltb};
ghost use Rattle.std.specs.Bool.{then_some};
ghost use Rattle.journal_record.specs.Bytes.{splice};
ghost use Rattle.panel_hex.specs.Hex.{hex_val, pair_val, upper_digit, hex_byte, unhex_of, hex_of, byte_of};
ghost use Rattle.panel_hex.specs.Spelt.{spelt, Within};

// The value of a digit, none where it is no digit.
#[tactic(auto, unfolding(crate::specs::Hex::hex_val))]
fn digit(c: u8) -> Option<u8>
    ensures { result ≡ then_some (ltb (hex_val c) 16) (hex_val c) }
{
    match c {
        b'0'..=b'9' => Some(c - b'0'),
        b'A'..=b'F' => Some(c - b'A' + 10),
        b'a'..=b'f' => Some(c - b'a' + 10),
        _ => None,
    }
}

// The byte that two digits spell, none where one is no digit.
#[tactic(auto, unfolding(crate::specs::Hex::pair_val))]
fn pair(a: u8, b: u8) -> Option<u8>
    ensures { result ≡ then_some (ltb (pair_val a b) 256) (pair_val a b) }
{
    let high = digit(a)?;
    let low = digit(b)?;
    Some(16 * high + low)
}

// The bytes that the line's digits spell go to the front of `out`: how many. Of a bad line some may go there.
#[tactic(auto, unfolding(crate::specs::Spelt::Within))]
pub fn unhex(line: &[u8], out: &mut [u8]) -> Option<usize>
    requires { length line.now ≤ 2 * length out.old + 1 }
    ensures out_after { spelt result out.new ≡ unhex_of line.now }
    ensures within { Within result out.new }
{
    if line.len() % 2 != 0 {
        return None;
    }
    for (n, digits) in line.chunks_exact(2).enumerate() {
        out[n] = pair(digits[0], digits[1])?;
    }
    Some(line.len() / 2)
}

#[tactic(auto, unfolding(crate::specs::Hex::upper_digit))]
fn upper(d: u8) -> u8
    requires { d < 16 }
    ensures { result ≡ upper_digit d }
{
    if d < 10 { 48 + d } else { 55 + d }
}

// Writes the two digits of a byte from `at` on.
pub fn put_byte(out: &mut [u8], at: usize, b: u8)
    requires { at + 2 ≤ length out.old }
    ensures { out.new ≡ splice out.old at (hex_byte b) }
{
    let high = upper(b / 16);
    let low = upper(b % 16);
    out[at] = high;
    out[at + 1] = low;
}

// Writes the digits of bytes from `at` on.
pub fn put_bytes(out: &mut [u8], at: usize, bytes: &[u8])
    requires { at + 2 * length bytes.now ≤ length out.old }
    ensures { out.new ≡ splice out.old at (hex_of bytes.now) }
{
    for (i, b) in bytes.iter().enumerate() {
        put_byte(out, at + 2 * i, *b);
    }
}

// An index as a byte.
#[tactic(auto, unfolding(crate::specs::Hex::byte_of))]
fn index_byte(z: i16) -> u8
    ensures { result ≡ byte_of z }
{
    if z < 0 {
        return 255;
    }
    (z as u16 % 256) as u8
}

// Writes the digits of indices from `at` on.
pub fn put_indices(out: &mut [u8], at: usize, indices: &[i16])
    requires { at + 2 * length indices.now ≤ length out.old }
    ensures { out.new ≡ splice out.old at (hex_of (map byte_of indices.now)) }
{
    for (i, z) in indices.iter().enumerate() {
        put_byte(out, at + 2 * i, index_byte(*z));
    }
}
