// Which entries of the second palette bring a colour: those whose colour is not in the first, nor earlier in the
// second.
ghost use Rattle.std.specs.Prelude.{◌≡◌, ◌+◌, ◌*◌, ◌≤◌, length};
ghost use Rattle.join_model.specs.News.{brings, news_of, Found};
ghost use Rattle.join_model.specs.Places.{place_in};

use base::{Rgb, rgb_at};
use edit_entries::has_rgb;

// The first of n entries that is a colour, or n where none is.
pub fn find(colours: &[u8], n: usize, c: Rgb) -> usize
    requires { length colours.now ≡ 3 * n }
    ensures { (result ≡ place_in colours.now c) × (result ≤ n) }
{
    for i in 0..n {
        if has_rgb(colours, i, c) {
            return i;
        }
    }
    n
}

// Whether entry i of the second palette brings its colour to the first, of k.
fn brings(first: &[u8], k: usize, second: &[u8], i: usize) -> bool
    requires { (length first.now ≡ 3 * k) × (3 * i + 3 ≤ length second.now) }
    ensures { result ≡ brings first.now second.now i }
{
    let c = rgb_at(second, i);
    if find(first, k, c) < k {
        return false;
    }
    let at = 3 * i;
    if find(&second[..at], i, c) < i {
        return false;
    }
    true
}

// Lists the entries of the second palette, of k2, that bring a colour to the first, of k, and answers how many they are.
// What the list has past them keeps.
pub(crate) fn find_news(
    first: &[u8],
    k: usize,
    second: &[u8],
    k2: usize,
    news: &mut [usize; 255],
) -> usize
    requires { (length first.now ≡ 3 * k) × (3 * k2 ≤ length second.now) × (k2 ≤ 255) × (length news.old ≡ 255) }
    ensures { Found (news_of first.now second.now k2) news.old news.new result }
{
    let mut n = 0;
    for i in 0..k2 {
        if brings(first, k, second, i) {
            news[n] = i;
            n += 1;
        }
    }
    n
}
