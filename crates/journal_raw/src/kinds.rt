// The kinds of records, numbered 1 to 5 as in the old form: their bytes in either form, and how long their records are.
ghost use Rattle.std.specs.Prelude.{◌≡◌, ◌+◌, ◌*◌, ◌<◌, ◌≤◌};
ghost use Rattle.journal_record.specs.Record.{stride};
ghost use Rattle.journal_raw.specs.Raw.{other, head_length, kind_byte};

use base::Form;
use journal_find::{list_bytes, pixels_kind, remove_kind};

// The form that a record is converted to.
pub fn other(form: Form) -> Form
    ensures { result ≡ other form }
{
    match form {
        Form::Coordinates => Form::Places,
        Form::Places => Form::Coordinates,
    }
}

// How many bytes stand between the kind and the changes, or the length.
#[tactic(auto, unfolding(crate::specs::Raw::head_length, journal_record::specs::Record::by_kind))]
pub fn head_length(kind: u8) -> usize
    ensures { (result ≡ head_length kind) × (result ≤ 32) }
{
    if kind == 1 {
        return 5;
    }
    if kind == 2 {
        return 31;
    }
    if kind == 3 {
        return 3;
    }
    if kind == 4 {
        return 32;
    }
    if kind == 5 {
        return 3;
    }
    0
}

// The byte of a kind.
#[tactic(auto, unfolding(crate::specs::Raw::kind_byte, journal_record::specs::Record::by_kind))]
pub fn kind_byte(form: Form, kind: u8) -> u8
    ensures { result ≡ kind_byte form kind }
{
    if kind == 1 {
        return pixels_kind(form);
    }
    if kind == 2 {
        return 2;
    }
    if kind == 3 {
        return 3;
    }
    if kind == 4 {
        return remove_kind(form);
    }
    if kind == 5 {
        return 5;
    }
    0
}

// The length of a record with so many changes.
pub fn record_size(form: Form, kind: u8, count: usize) -> usize
    requires { count < 4294967296 }
    ensures { (result ≡ 1 + head_length kind + stride form * count + 4) × (result ≤ 37 + 8 * count) }
{
    1 + head_length(kind) + list_bytes(form, count) + 4
}
