// A slice copied over another of its length, by a loop: the library's copy has an archive for C ask its host for memmove.
ghost use Rattle.std.specs.Prelude.{◌≡◌, length};

pub fn copy<T: Copy>(from: &[T], to: &mut [T])
    requires { length from.now ≡ length to.old }
    ensures { to.new ≡ from.now }
{
    for (i, x) in from.iter().enumerate() {
        to[i] = *x;
    }
}
