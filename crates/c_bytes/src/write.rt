// The parts of a flat sheet written over what stands there.
ghost use Rattle.std.specs.Prelude.{◌≡◌, ◌+◌, ◌*◌, ◌≤◌, length};
ghost use Rattle.c_form.specs.Fields.{write_from};
ghost use Rattle.c_form.specs.Flat.{flat_length, sheet_over};

use crate::number::{Field, put_u16};

// Writes numbers from `at` on.
pub(crate) fn put_all<T: Field>(dst: &mut [u8], at: usize, list: &[T])
    requires { at + T.SIZE * length list.now ≤ length dst.old }
    ensures { dst.new ≡ write_from T.SIZE T.over at list.now dst.old }
{
    for (i, x) in list.iter().enumerate() {
        x.put(dst, at + T::SIZE * i);
    }
}

// Writes a sheet over the buffer that it was read from: its size stays.
pub fn put_sheet(
    dst: &mut [u8],
    k: usize,
    palette: &[u8],
    lab: &[f64],
    indices: &[i16],
    locks: &[bool],
)
    requires { (length dst.old ≡ flat_length (length indices.now)) × (length palette.now ≡ 765) × (length lab.now ≡ 765)
        × (length locks.now ≡ 255) }
    ensures { dst.new ≡ sheet_over k palette.now lab.now indices.now locks.now dst.old }
{
    put_u16(dst, 4, k);
    dst[6..771].copy_from_slice(palette);
    put_all(dst, 771, lab);
    put_all(dst, 6891, indices);
    put_all(dst, 6891 + 2 * indices.len(), locks);
}
