// Inputs, dealt from a seed: a fixed sequence of numbers, and what is picked by them.
ghost use Rattle.std.specs.Prelude.{◌≡◌, ◌<◌, length};

use base::{Form, Rgb};
use selection::Selection;

// The next number of the sequence.
pub fn next(x: u64) -> u64 {
    let a = x ^ (x << 13);
    let b = a ^ (a >> 7);
    b ^ (b << 17)
}

// A word taken into a running number.
pub fn mix(h: u64, word: u64) -> u64 {
    next((h ^ word).wrapping_add(0x9e37_79b9_7f4a_7c15))
}

// The numbers that a call's inputs are picked by; the first eight are not used.
pub fn deck(seed: u64) -> [u64; 32] {
    let mut d = [0u64; 32];
    fill(mix(mix(mix(0, seed), seed), seed), &mut d, |x| x);
    d
}

// Deals each place from the next number of the sequence after the seed.
fn fill<T: Copy, F: Fn(u64) -> T>(seed: u64, out: &mut [T], deal: F)
    requires { F.IsAlwaysCallable deal }
    ensures { length out.new ≡ length out.old }
{
    let mut x = seed;
    for place in out.iter_mut() {
        x = next(x);
        *place = deal(x);
    }
}

// One of 0 to n - 1.
pub fn pick(x: u64, n: usize) -> usize
    requires { 0 < n }
    ensures { result < n }
{
    ((x >> 11) as usize) % n
}

// True once in n.
pub fn once_in(x: u64, n: usize) -> bool
    requires { 0 < n }
{
    pick(x, n) == 0
}

// The form of a journal.
pub fn form(x: u64) -> Form {
    if once_in(x, 2) {
        Form::Places
    } else {
        Form::Coordinates
    }
}

// A coordinate on a sheet of six pixels or beside it.
pub fn near(x: u64) -> i32 {
    match pick(x, 8) {
        0 => -1,
        1 | 2 | 3 => 0,
        4 | 5 => 1,
        6 => 2,
        _ => 5,
    }
}

// The same, or one at the limit or past it.
pub fn coordinate(x: u64) -> i32 {
    match pick(x, 24) {
        0 => 65_536,
        1 => 65_537,
        2 => -65_536,
        3 => -65_537,
        _ => near(x >> 8),
    }
}

// Where a selection starts on an axis.
fn corner(x: u64) -> u16 {
    match pick(x, 4) {
        0 | 1 => 0,
        2 => 1,
        _ => 2,
    }
}

// How far a selection reaches on an axis.
fn extent(x: u64) -> u16 {
    pick(x, 4) as u16
}

pub fn part(d: &[u64; 32]) -> Selection {
    Selection {
        x: corner(d[15]),
        y: corner(d[16]),
        w: extent(d[17]),
        h: extent(d[18]),
    }
}

// A side of 0 to 3, or one at the limit or past it.
pub fn side(x: u64) -> usize {
    match pick(x, 12) {
        0 => 1023,
        1 => 1024,
        2 => 1025,
        _ => pick(x >> 8, 4),
    }
}

// The kind of an edit, 1 to 5.
pub fn kind(x: u64) -> u8 {
    pick(x, 5) as u8 + 1
}

// An index from -2 to 3.
pub fn index(x: u64) -> i16 {
    pick(x, 6) as i16 - 2
}

pub fn byte(x: u64) -> u8 {
    (x % 256) as u8
}

pub fn fill_bytes(seed: u64, out: &mut [u8])
    ensures { length out.new ≡ length out.old }
{
    fill(seed, out, byte);
}

// A colour.
pub fn colour(seed: u64) -> Rgb {
    let mut rgb = [0u8; 3];
    fill_bytes(seed, &mut rgb);
    let [r, g, b] = rgb;
    Rgb { r, g, b }
}

// Two colours.
pub fn colours(seed: u64) -> [u8; 6] {
    let mut list = [0u8; 6];
    fill_bytes(seed, &mut list);
    list
}

// Indices from -1 to k - 1, for a k up to 3.
pub fn fill_indices(seed: u64, k: usize, out: &mut [i16])
    ensures { length out.new ≡ length out.old }
{
    fill(seed, out, |x| pick(x, k.min(3) + 1) as i16 - 1);
}

// Lock marks, half of them true.
pub fn fill_locks(seed: u64, out: &mut [bool])
    ensures { length out.new ≡ length out.old }
{
    fill(seed, out, |x| once_in(x, 2));
}

// A change near the corner: x and y from 0 to 3, old and new from -1 to 2.
fn change(x: u64) -> u64 {
    let place = (x >> 11) & 0x0003_0003;
    let old = ((x >> 31) & 3) << 32;
    let new = ((x >> 41) & 3) << 48;
    place
        | sign(old, 0x0003_0000_0000, 0xffff_0000_0000)
        | sign(new, 0x0003_0000_0000_0000, 0xffff_0000_0000_0000)
}

// The field, or that of -1 where it is 3.
fn sign(field: u64, three: u64, minus: u64) -> u64 {
    if field == three { minus } else { field }
}

pub fn fill_list(seed: u64, out: &mut [u64])
    ensures { length out.new ≡ length out.old }
{
    fill(seed, out, change);
}

// The sides of a picture of six pixels; now and then its width is one more, which no picture of six pixels has.
pub fn width(x: u64) -> usize {
    match pick(x, 16) {
        0..=3 => 1,
        4..=7 => 2,
        8..=11 => 3,
        12..=14 => 6,
        _ => 7,
    }
}

pub fn height(x: u64) -> usize {
    match pick(x, 16) {
        0..=3 => 6,
        4..=7 => 3,
        8..=11 => 2,
        _ => 1,
    }
}
