// The records of the used part written in the other form.
ghost use Rattle.std.specs.Prelude.{◌≡◌, true, List, ◌≤◌, length};
ghost use Rattle.std.proofs.Math.Option.{some};
ghost use Rattle.base.specs.Lists.{over};
ghost use Rattle.history_ledger.specs.Handle.{sound};
ghost use Rattle.journal_record.specs.Bytes.{splice};
ghost use Rattle.journal_raw.specs.Raw.{Raw, other, raws_bytes, raws_in};
ghost use Rattle.history_convert.specs.Convert.{Used, used_in, used_bytes};
ghost use Rattle.history_convert.specs.Sizes.{Ready, Rewritable};

use base::{Form, Handle};
use journal_raw::write_record;

// The n records of a part, from `to` on.
pub fn write(w: usize, form: Form, bytes: &[u8], n: usize, out: &mut [u8], to: usize)
    requires w_bound { (w ≤ 1024) × (length bytes.now ≤ 2147483647) }
    requires ready { Ready form w n bytes.now to (length out.old) }
    ensures { (rs : List Raw) → raws_in form w n bytes.now ≡ some rs
        → out.new ≡ splice out.old to (raws_bytes (other form) w rs) }
{
    let mut at: usize = 0;
    let mut put = to;
    for _ in 0..n {
        let one = write_record(w, form, bytes, at, out, put);
        at += one.length;
        put += one.size;
    }
}

// Both parts of the used part, the undone records from `past` on.
pub fn write_used(w: usize, form: Form, journal: &[u8], handle: Handle, out: &mut [u8], past: usize)
    requires w_bound { (w ≤ 1024) × (length journal.now ≤ 2147483647) }
    requires handle_value { sound (length journal.now) handle ≡ true }
    requires rewritable { Rewritable form w journal.now handle past (length out.old) }
    ensures { (u : Used) → used_in form w journal.now handle ≡ some u
        → out.new ≡ over (used_bytes (other form) w u) out.old }
{
    let offset = handle.offset;
    let end = handle.end;
    let position = handle.position;
    let count = handle.count;
    write(w, form, &journal[0..offset], position, out, 0);
    write(w, form, &journal[offset..end], count - position, out, past);
}
