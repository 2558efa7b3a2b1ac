// One number of the flat form, read and written: a double, an index, a mark, the word of a change, two bytes.
ghost use Rattle.std.specs.Prelude.{◌≡◌, ℕ, ◌+◌, ◌≤◌, List, length, take, drop};
ghost use Rattle.journal_record.specs.Bytes.{le, splice, unle};
ghost use Rattle.c_form.specs.Flat.{double_from, double_over, index_in, index_over, mark_in, mark_over, word_over};

use color_doubles::is_unfit;
use edit_pixels::{bits_of, index_of};
use journal_bytes::{get_u16, get_u64, put_f64, put_u64};
use journal_read::double_in;
use journal_write::mark_byte;

// A number that stands in SIZE bytes.
pub(crate) trait Field: Copy {
    const SIZE: usize;

    ghost SIZE: { ℕ };

    ghost read: { List ℕ → Self };

    ghost over: { Self → List ℕ → List ℕ };

    // The one in the bytes from `at` on.
    fn get(src: &[u8], at: usize) -> Self
        requires { at + SIZE ≤ length src.now }
        ensures { result ≡ read (take SIZE (drop at src.now)) };

    // Writes it over the bytes from `at` on.
    fn put(self, dst: &mut [u8], at: usize)
        requires { at + SIZE ≤ length dst.old }
        ensures { dst.new ≡ splice dst.old at (over self (take SIZE (drop at dst.old))) };
}

// A double; one that is not finite keeps its bytes.
impl Field for f64 {
    const SIZE: usize = 8;

    ghost SIZE = { 8 };

    ghost read = { double_from };

    ghost over = { double_over };

    #[tactic(auto, unfolding(journal_record::specs::Record::double_in, journal_record::specs::Bytes::le_at))]
    fn get(src: &[u8], at: usize) -> f64 {
        double_in(src, at)
    }

    fn put(self, dst: &mut [u8], at: usize) {
        if is_unfit(self) {
            return;
        }
        put_f64(dst, at, self);
    }
}

impl Field for i16 {
    const SIZE: usize = 2;

    ghost SIZE = { 2 };

    ghost read = { index_in };

    ghost over = { index_over };

    #[tactic(auto, unfolding(journal_record::specs::Bytes::le_at))]
    fn get(src: &[u8], at: usize) -> i16 {
        index_of(get_u16(src, at) as u16)
    }

    fn put(self, dst: &mut [u8], at: usize) {
        put_u16(dst, at, bits_of(self).into());
    }
}

impl Field for bool {
    const SIZE: usize = 1;

    ghost SIZE = { 1 };

    ghost read = { mark_in };

    ghost over = { mark_over };

    fn get(src: &[u8], at: usize) -> bool {
        src[at] == 1
    }

    fn put(self, dst: &mut [u8], at: usize) {
        dst[at] = mark_byte(self);
    }
}

impl Field for u64 {
    const SIZE: usize = 8;

    ghost SIZE = { 8 };

    ghost read = { unle };

    ghost over = { word_over };

    #[tactic(auto, unfolding(journal_record::specs::Bytes::le_at))]
    fn get(src: &[u8], at: usize) -> u64 {
        get_u64(src, at)
    }

    fn put(self, dst: &mut [u8], at: usize) {
        put_u64(dst, at, self);
    }
}

// Writes the 2 lowest bytes of v from `at` on.
pub(crate) fn put_u16(dst: &mut [u8], at: usize, v: usize)
    requires { at + 2 ≤ length dst.old }
    ensures { dst.new ≡ splice dst.old at (le 2 v) }
{
    dst[at] = (v % 256) as u8;
    dst[at + 1] = (v / 256 % 256) as u8;
}
