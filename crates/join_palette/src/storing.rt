// Entries of a palette stored one after the other: N elements of storage each, three bytes, three doubles or one mark.
// What stands past them keeps.
ghost use Rattle.std.specs.Prelude.{◌≡◌, ◌+◌, ◌*◌, ◌≤◌, ◌++◌, length, take};
ghost use Rattle.base.specs.Lists.{over};
ghost use Rattle.join_model.specs.Stored.{Below};
ghost use Rattle.join_palette.specs.Pieces.{pieces};

use sheet_lent::copy;

// The entries that a list names, in its order.
fn put_named<T: Copy, const N: usize>(from: &[T], named: &[usize], out: &mut [T])
    requires { Below 255 named.now × (length from.now ≡ N * 255) × (N * length named.now ≤ length out.old) }
    ensures { out.new ≡ over (pieces N from.now named.now) out.old }
{
    for (j, i) in named.iter().enumerate() {
        let at = N * j;
        let start = N * *i;
        out[at..at + N].copy_from_slice(&from[start..start + N]);
    }
}

// The first k entries of the first, then those of the second that a list names.
pub(crate) fn put_joined<T: Copy, const N: usize>(
    k: usize,
    first: &[T],
    second: &[T],
    named: &[usize],
    out: &mut [T],
)
    requires { Below 255 named.now × (length first.now ≡ N * 255) × (length second.now ≡ N * 255)
        × (k + length named.now ≤ 255) × (length out.old ≡ N * 255) }
    ensures { out.new ≡ over (take (N * k) first.now ++ pieces N second.now named.now) out.old }
{
    let at = N * k;
    copy(&first[..at], &mut out[..at]);
    put_named::<T, N>(second, named, &mut out[at..]);
}
