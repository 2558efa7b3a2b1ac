// The cube root: the double nearest to the exact root.
//
// A guess in doubles, of which nothing is proved, and an exact comparison of whole numbers, which
// moves the guess by one until it is right; most often by nothing.
ghost use Rattle.std.specs.Prelude.{◌≡◌, true, T, ◌+◌, ◌*◌, ◌^◌, ◌<◌, ◌≤◌};
ghost use Rattle.color_root.specs.CubeRoot.{in_root_range, RootFound, Rooted};
ghost use Rattle.color_root.specs.Cubes.{cube, target, top, NearestRoot, Digits};

// A number squared, by its four digits in base 2^28.
#[derive(Clone, Copy)]
struct Square {
    s0: u64,
    s1: u64,
    s2: u64,
    s3: u64,
}

fn squared(q: u64) -> Square
    requires { q ≤ 2 ^ 56 }
    ensures { Digits q result.s0 result.s1 result.s2 result.s3 }
{
    let a0 = q % 0x1000_0000;
    let a1 = q / 0x1000_0000;
    let p0 = a0 * a0;
    let p1 = 2 * (a0 * a1) + p0 / 0x1000_0000;
    let p2 = a1 * a1 + p1 / 0x1000_0000;
    Square {
        s0: p0 % 0x1000_0000,
        s1: p1 % 0x1000_0000,
        s2: p2 % 0x1000_0000,
        s3: p2 / 0x1000_0000,
    }
}

// The cube of q without its lowest 107 binary digits.
fn cube_top(q: u64) -> u64
    requires { q ≤ 2 ^ 56 }
    ensures { result ≡ top q }
{
    let s = squared(q);
    let s0 = s.s0;
    let s1 = s.s1;
    let s2 = s.s2;
    let s3 = s.s3;
    let a0 = q % 0x1000_0000;
    let a1 = q / 0x1000_0000;
    let c0 = a0 * s0;
    let c1 = a0 * s1 + a1 * s0 + c0 / 0x1000_0000;
    let c2 = a0 * s2 + a1 * s1 + c1 / 0x1000_0000;
    let c3 = a0 * s3 + a1 * s2 + c2 / 0x1000_0000;
    c3 / 0x80_0000 + a1 * s3 * 32
}

// The first number from `from` up to 2^53 whose half step up is not below the root.
fn raised(n: u64, from: u64) -> u64
    requires { (n < 2 ^ 55) × (from ≤ 2 ^ 53) }
    ensures { (from ≤ result) × (result ≤ 2 ^ 53) × (target n ≤ cube (2 * result + 1)) }
{
    for m in from..0x20_0000_0000_0000 {
        if n <= cube_top(2 * m + 1) {
            return m;
        }
    }
    0x20_0000_0000_0000
}

// The first number from `from` down to 2^52 whose half step down is below the root.
fn lowered(n: u64, from: u64) -> u64
    requires { (2 ^ 52 ≤ n) × (2 ^ 52 ≤ from) × (from ≤ 2 ^ 53) × (target n ≤ cube (2 * from + 1)) }
    ensures { NearestRoot n result }
{
    for m in (0x10_0000_0000_0000..from).rev() {
        if cube_top(2 * m + 1) < n {
            return m + 1;
        }
    }
    0x10_0000_0000_0000
}

// Whether the cube of m alone shows that m is the nearest: it misses the number by less than 3/2 m^2, in
// units of 2^98 and with two of them to spare. It is the usual case; of the others it says nothing.
fn settled(n: u64, m: u64) -> bool
    requires { (n < 2 ^ 55) × (2 ^ 52 ≤ m) × (m ≤ 2 ^ 53) }
    ensures { result ≡ true → NearestRoot n m }
{
    let c = cube_top(8 * m);
    let h = m / 0x400_0000;
    let w = 3 * (h * h) / 0x8000_0000_0000;
    if n * 64 <= c + w {
        if c + 2 <= n * 64 + w {
            return true;
        }
    }
    false
}

// The guess, moved to the nearer end where it lies outside 2^52..2^53.
fn clamped(guess: u64) -> u64
    ensures { (2 ^ 52 ≤ result) × (result ≤ 2 ^ 53) }
{
    if guess < 0x10_0000_0000_0000 {
        0x10_0000_0000_0000
    } else if guess > 0x20_0000_0000_0000 {
        0x20_0000_0000_0000
    } else {
        guess
    }
}

// The whole number nearest to the cube root of n * 2^104, from a guess that may be any number.
fn nearest_root(n: u64, guess: u64) -> u64
    requires { (2 ^ 52 ≤ n) × (n < 2 ^ 55) }
    ensures { NearestRoot n result }
{
    let m = clamped(guess);
    if settled(n, m) {
        return m;
    }
    lowered(n, raised(n, m))
}

// A start near the cube root of t, from t's pattern b and z = 1/t: a third of the pattern, then a polynomial
// in y^3/t, for about 19 binary digits.
fn start(b: u64, z: f64) -> f64
    requires { b < 2 ^ 63 }
{
    let y = f64::from_bits(b / 3 + 0x2a9f_7893_0000_0000);
    let r = y * y * y * z;
    let low = 1.7282240706472218 - 1.2944945718253995 * r;
    let high = 0.7376562204346357 - 0.1713871300013265 * r;
    y * (low + r * r * high)
}

// y to 17 binary digits, so that its cube is exact.
fn short(y: f64) -> f64 {
    if y < 2.0 {
        let p = f64::to_bits(y);
        if p < 0x4000_0000_0000_0000 {
            return f64::from_bits((p + 0x8_0000_0000) / 0x10_0000_0000 * 0x10_0000_0000);
        }
    }
    1.0
}

// One step from y towards the cube root of t, with z = 1/t: with d = (t - y^3)/t the root is
// y (1 - d)^(-1/3), and these are the first terms of its series.
fn stepped(y: f64, t: f64, z: f64) -> f64 {
    let d = (t - y * y * y) * z;
    y + y * d * (1.0 / 3.0 + d * (2.0 / 9.0) + d * d * (14.0 / 81.0))
}

// A guess at the pattern of the cube root of t, whose pattern is b. Any number would do; this one is
// nearly always right.
fn guess_bits(t: f64, b: u64) -> u64
    requires { b < 2 ^ 63 }
{
    let z = 1.0 / t;
    let y = stepped(short(start(b, z)), t, z);
    if y < 2.0 {
        f64::to_bits(y)
    } else {
        0x3ff0_0000_0000_0000
    }
}

// 2^i, by choice: no branch is left in the machine code.
fn factor(i: u64) -> u64
    requires { i < 3 }
    ensures { (result ≡ 2 ^ i) × (1 ≤ result) × (result ≤ 4) }
{
    if i == 0 {
        1
    } else if i == 1 {
        2
    } else {
        4
    }
}

fn scaled(m: u64, i: u64) -> u64
    requires { (m < 2 ^ 53) × (i < 3) }
    ensures { (result ≡ m * 2 ^ i) × (m ≤ result) × (result ≤ 4 * m) }
{
    m * factor(i)
}

// The pattern of the root of t, whose pattern is b. With d the exponent's field from that of 2^-9 on, and
// m the 53 digits, t is m * 2^(d % 3) * 2^104 times the cube of 2^(d / 3 - 55).
fn root_bits(t: f64, b: u64) -> u64
    requires { (0x3f80_0000_0000_0000 ≤ b) × (b ≤ 0x4000_0000_0000_0000) }
    ensures { RootFound b result }
{
    let d = b / 0x10_0000_0000_0000 - 1014;
    let m = b % 0x10_0000_0000_0000 + 0x10_0000_0000_0000;
    let n = scaled(m, d % 3);
    let base = (1020 + d / 3) * 0x10_0000_0000_0000;
    let g = guess_bits(t, b);
    let low = base - 0x10_0000_0000_0000;
    let guess = if g < low { 0 } else { g - low };
    let r = nearest_root(n, guess);
    base + (r - 0x10_0000_0000_0000)
}

// The cube root of a number from 1/128 to 2.
pub fn root(t: f64) -> f64
    requires { T (in_root_range t) }
    ensures { Rooted t result }
{
    f64::from_bits(root_bits(t, f64::to_bits(t)))
}
