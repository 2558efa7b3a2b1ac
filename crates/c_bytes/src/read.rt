// The parts of a flat sheet, and a list of changes, read into buffers.
ghost use Rattle.std.specs.Prelude.{◌≡◌, ◌+◌, ◌*◌, ◌≤◌, length};
ghost use Rattle.journal_record.specs.Bytes.{unle};
ghost use Rattle.c_form.specs.Fields.{read_from};
ghost use Rattle.c_form.specs.Flat.{byte_in, double_from, index_in, mark_in, palette_from, lab_from, indices_from, locks_from, flat_length};

use crate::number::Field;

// As many numbers as there are places, from `at` on.
fn take_all<T: Field>(src: &[u8], at: usize, out: &mut [T])
    requires { at + T.SIZE * length out.old ≤ length src.now }
    ensures { out.new ≡ read_from T.SIZE T.read at (length out.old) src.now }
{
    for (i, place) in out.iter_mut().enumerate() {
        *place = T::get(src, at + T::SIZE * i);
    }
}

// The changes of a list, a number of 64 bits each.
pub fn take_list(src: &[u8], out: &mut [u64])
    requires { 8 * length out.old ≤ length src.now }
    ensures { out.new ≡ read_from 8 unle 0 (length out.old) src.now }
{
    take_all(src, 0, out);
}

// A sheet's parts, with as many indices as the buffer for them has.
pub fn take_sheet(
    src: &[u8],
    palette: &mut [u8],
    lab: &mut [f64],
    indices: &mut [i16],
    locks: &mut [bool],
)
    requires { (length src.now ≡ flat_length (length indices.old)) × (length palette.old ≡ 765) × (length lab.old ≡ 765)
        × (length locks.old ≡ 255) }
    ensures palette_after { palette.new ≡ read_from 1 byte_in palette_from 765 src.now }
    ensures lab_after { lab.new ≡ read_from 8 double_from lab_from 765 src.now }
    ensures indices_after { indices.new ≡ read_from 2 index_in indices_from (length indices.old) src.now }
    ensures locks_after { locks.new ≡ read_from 1 mark_in (locks_from (length indices.old)) 255 src.now }
{
    palette.copy_from_slice(&src[6..771]);
    take_all(src, 771, lab);
    take_all(src, 6891, indices);
    take_all(src, 6891 + 2 * indices.len(), locks);
}
