// Numbers in bytes, the lowest first, at any place of a slice. The wide ones are made of the narrow ones.
ghost use Rattle.std.specs.Prelude.{◌≡◌, not, ◌+◌, ◌≤◌, ◌<◌, T, length};
ghost use Rattle.std.specs.Float.Ieee.{is_nan};
ghost use Rattle.journal_record.specs.Bytes.{le, le_at, splice};
ghost use Rattle.journal_record.specs.Record.{double_bytes};
ghost use Rattle.journal_record.specs.Found.{real_of};

use journal_record::Real;

// Writes the 3 lowest bytes of v from `at` on.
pub fn put_u24(dst: &mut [u8], at: usize, v: usize)
    requires { at + 3 ≤ length dst.old }
    ensures { dst.new ≡ splice dst.old at (le 3 v) }
{
    dst[at..at + 3].copy_from_slice(&v.to_le_bytes()[..3]);
}

// Writes the 4 bytes of v from `at` on.
pub fn put_u32(dst: &mut [u8], at: usize, v: u32)
    requires { at + 4 ≤ length dst.old }
    ensures { dst.new ≡ splice dst.old at (le 4 v) }
{
    dst[at..at + 4].copy_from_slice(&v.to_le_bytes());
}

// Writes the 8 bytes of v from `at` on.
pub fn put_u64(dst: &mut [u8], at: usize, v: u64)
    requires { at + 8 ≤ length dst.old }
    ensures { dst.new ≡ splice dst.old at (le 8 v) }
{
    dst[at..at + 8].copy_from_slice(&v.to_le_bytes());
}

// Writes the 8 bytes of a double that is a number, by its bits.
pub fn put_f64(dst: &mut [u8], at: usize, x: f64)
    requires at_in_bounds { at + 8 ≤ length dst.old }
    requires t { T (not (is_nan x)) }
    ensures { dst.new ≡ splice dst.old at (double_bytes x) }
{
    put_u64(dst, at, x.to_bits());
}

// The number in the 2 bytes from `at` on.
pub fn get_u16(src: &[u8], at: usize) -> u32
    requires { at + 2 ≤ length src.now }
    ensures { (result ≡ le_at 2 src.now at) × (result < 65536) }
{
    u32::from(u16::from_le_bytes([src[at], src[at + 1]]))
}

// The number in the 3 bytes from `at` on.
pub fn get_u24(src: &[u8], at: usize) -> u32
    requires { at + 3 ≤ length src.now }
    ensures { (result ≡ le_at 3 src.now at) × (result < 16777216) }
{
    u32::from_le_bytes([src[at], src[at + 1], src[at + 2], 0])
}

// The number in the 4 bytes from `at` on.
pub fn get_u32(src: &[u8], at: usize) -> u32
    requires { at + 4 ≤ length src.now }
    ensures { result ≡ le_at 4 src.now at }
{
    u32::from_le_bytes([src[at], src[at + 1], src[at + 2], src[at + 3]])
}

// The number in the 8 bytes from `at` on.
pub fn get_u64(src: &[u8], at: usize) -> u64
    requires { at + 8 ≤ length src.now }
    ensures { result ≡ le_at 8 src.now at }
{
    u64::from_le_bytes([
        src[at],
        src[at + 1],
        src[at + 2],
        src[at + 3],
        src[at + 4],
        src[at + 5],
        src[at + 6],
        src[at + 7],
    ])
}

// The double in the 8 bytes from `at` on.
pub fn get_f64(src: &[u8], at: usize) -> Real
    requires { at + 8 ≤ length src.now }
    ensures { result ≡ real_of src.now at }
{
    let bits = get_u64(src, at);
    if 0x7ff0_0000_0000_0000 < bits % 0x8000_0000_0000_0000 {
        return Real::NotANumber;
    }
    Real::Number(f64::from_bits(bits))
}
