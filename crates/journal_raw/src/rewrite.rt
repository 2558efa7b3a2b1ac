// A record written in the other form: its head is copied, and its changes are written one by one.
ghost use Rattle.std.specs.Prelude.{◌≡◌, ℕ, ◌+◌, ◌*◌, ◌<◌, ◌≤◌, length, take, drop};
ghost use mathlib.Core.List.{[], ◌∷◌, flat_map};
ghost use Rattle.std.proofs.Math.Option.{some};
ghost use Rattle.base.specs.declared.Form.TheVariants.{Coordinates, Places};
ghost use Rattle.journal_record.specs.Bytes.{splice};
ghost use Rattle.journal_record.specs.Record.{change_bytes, stride, change_in, changes_in};
ghost use Rattle.journal_raw.specs.Raw.{Raw, other, head_length, raw_length, raw_bytes, raw_in};
ghost use Rattle.journal_raw.specs.At.{raw_at, Room};

use crate::Written;
use crate::kinds::{head_length, kind_byte, other, record_size};
use base::Form;
use journal_bytes::{get_u16, get_u24, get_u64, put_u32};
use journal_find::{find_forth, list_bytes};
use journal_record::Found;

// Writes one byte.
fn put_byte(out: &mut [u8], to: usize, b: u8)
    requires { to < length out.old }
    ensures { out.new ≡ splice out.old to (b ∷ []) }
{
    out[to] = b;
}

// Copies n bytes.
fn copy(bytes: &[u8], at: usize, n: usize, out: &mut [u8], to: usize)
    requires { (at + n ≤ length bytes.now) × (to + n ≤ length out.old) }
    ensures { out.new ≡ splice out.old to (take n (drop at bytes.now)) }
{
    for i in 0..n {
        out[to + i] = bytes[at + i];
    }
}

// A change from its place to column and row; old and new as they are.
fn put_spot(w: usize, bytes: &[u8], at: usize, out: &mut [u8], to: usize)
    requires w_nonzero { (0 < w) × (w ≤ 1024) }
    requires at_in_bounds { (at + 7 ≤ length bytes.now) × (to + 8 ≤ length out.old) }
    ensures { out.new
        ≡ splice out.old to (change_bytes Coordinates w (change_in Places w bytes.now at)) }
{
    let place = get_u24(bytes, at) as usize;
    put_u32(out, to, (place % w + 65_536 * (place / w % 65_536)) as u32);
    let old = get_u16(bytes, at + 3);
    let new = get_u16(bytes, at + 5);
    put_u32(out, to + 4, old + 65_536 * new);
}

// A change, read in this form and written in the other.
fn put_change(w: usize, form: Form, bytes: &[u8], at: usize, out: &mut [u8], to: usize)
    requires w_nonzero { (0 < w) × (w ≤ 1024) }
    requires form_in_bounds { (at + stride form ≤ length bytes.now) × (to + stride (other form) ≤ length out.old) }
    ensures { out.new
        ≡ splice out.old to (change_bytes (other form) w (change_in form w bytes.now at)) }
{
    match form {
        Form::Coordinates => journal_write::put_change(
            Form::Places,
            out,
            to,
            w,
            get_u64(bytes, at),
        ),
        Form::Places => put_spot(w, bytes, at, out, to),
    }
}

// n changes. On a sheet of no width there is none.
fn put_changes(w: usize, form: Form, bytes: &[u8], at: usize, n: usize, out: &mut [u8], to: usize)
    requires fact { ((0 < n → 0 < w)) × (w ≤ 1024) }
    requires n_in_bounds { (at + stride form * n ≤ length bytes.now) × (to + stride (other form) * n ≤ length out.old) }
    ensures { out.new
        ≡ splice out.old to (flat_map (change_bytes (other form) w) (changes_in form w bytes.now at n)) }
{
    let into = other(form);
    for i in 0..n {
        put_change(
            w,
            form,
            bytes,
            at + list_bytes(form, i),
            out,
            to + list_bytes(into, i),
        );
    }
}

// The record of this kind and count that starts at `at`. Answers its length in the other form.
fn put_record(
    w: usize,
    kind: u8,
    count: usize,
    form: Form,
    bytes: &[u8],
    at: usize,
    out: &mut [u8],
    to: usize,
) -> usize
    requires fact { ((0 < count → 0 < w)) × (w ≤ 1024) × (count < 4294967296) }
    requires count_in_bounds { at + 1 + head_length kind + stride form * count ≤ length bytes.now }
    requires count_in_bounds_2 { to + 1 + head_length kind + stride (other form) * count + 4 ≤ length out.old }
    requires count_bound { 1 + head_length kind + stride (other form) * count + 4 < 4294967296 }
    ensures { let raw = raw_at form w bytes.now at kind count in
        (result ≡ raw_length (other form) raw) × (out.new ≡ splice out.old to (raw_bytes (other form) w raw)) }
{
    let into = other(form);
    let head = head_length(kind);
    put_byte(out, to, kind_byte(into, kind));
    copy(bytes, at + 1, head, out, to + 1);
    put_changes(w, form, bytes, at + 1 + head, count, out, to + 1 + head);
    let size = record_size(into, kind, count);
    put_u32(out, to + size - 4, size as u32);
    size
}

// The record that starts at `at`, where one does: then there is room for it from `to` on.
pub fn write_record(
    w: usize,
    form: Form,
    bytes: &[u8],
    at: usize,
    out: &mut [u8],
    to: usize,
) -> Written
    requires w_bound { (w ≤ 1024) × (at ≤ length bytes.now) × (length bytes.now ≤ 2147483647) }
    requires by_index { (n : ℕ) (raw : Raw) → raw_in form w (drop at bytes.now) ≡ some (n, raw)
        → Room (other form) w raw to (length out.old) }
    ensures { (n : ℕ) (raw : Raw) → raw_in form w (drop at bytes.now) ≡ some (n, raw)
        → (result.length ≡ n) × (result.size ≡ raw_length (other form) raw)
        × (out.new ≡ splice out.old to (raw_bytes (other form) w raw)) }
{
    let found = find_forth(form, bytes, at, bytes.len());
    match found {
        Found::Record {
            kind,
            start: _,
            length,
            count,
        } => {
            let size = put_record(w, kind, count, form, bytes, at, out, to);
            Written { length, size }
        }
        Found::Unsound => Written { length: 0, size: 0 },
    }
}
