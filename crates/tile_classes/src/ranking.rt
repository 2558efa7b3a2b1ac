// Classes from numbers in order: cells have one class exactly when they have one key. The scratch has a place for each of
// n cells, its class and the order in which it is read, and then n numbers, a key and a cell each.
ghost use Rattle.std.specs.Prelude.{◌≡◌, ◌+◌, ◌≤◌, ◌<◌, ◌^◌, length};
ghost use Rattle.tile_classes.specs.Places.{class_in, order_in, key_in, cell_in};
ghost use Rattle.tile_classes.specs.Ranks.{fresh as fresh_of, key_at, Listed, Ranked};

// The unit in which a number counts its key.
pub(crate) const KEY: u64 = 2_097_152;

fn key_in(v: u64) -> u64
    ensures { result ≡ key_in v }
{
    v / KEY
}

fn cell_in(v: u64) -> usize
    ensures { (result ≡ cell_in v) × (result < 2 ^ 21) }
{
    (v % KEY) as usize
}

// A place with another class; the order stays.
fn with_class(v: u64, class: u64) -> u64
    requires { class < 2 ^ 21 }
    ensures { (class_in result ≡ class) × (order_in result ≡ order_in v) }
{
    class * 4 + v % 4
}

// 1 where number i has another key than the one before it, else 0.
fn fresh(n: usize, i: usize, s: &[u64]) -> u64
    requires { n + i < length s.now }
    ensures { (result ≡ fresh_of (key_at n s.now) i) × (result ≤ 1) }
{
    if i == 0 {
        return 0;
    }
    if key_in(s[n + i - 1]) == key_in(s[n + i]) {
        return 0;
    }
    1
}

// The rank of each number becomes the class of its cell.
pub fn rank(n: usize, s: &mut [u64])
    requires { Listed n s.old × (n ≤ 2 ^ 20) }
    ensures { Ranked n s.old s.new n }
{
    let mut class: u64 = 0;
    for i in 0..n {
        class += fresh(n, i, s);
        let c = cell_in(s[n + i]);
        let v = with_class(s[c], class);
        s[c] = v;
    }
}
