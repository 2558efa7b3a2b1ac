// The two forms of a record: how many bytes its changes have, and the numbers of its kinds.
ghost use Rattle.std.specs.Prelude.{◌≡◌, ◌*◌, ◌^◌, ◌<◌, ◌≤◌};
ghost use Rattle.journal_record.specs.Record.{stride, pixels_kind, remove_kind};

use base::Form;

// The bytes of n changes.
pub fn list_bytes(form: Form, n: usize) -> usize
    requires { stride form * n < 2 ^ 64 }
    ensures { (result ≡ stride form * n) × (result ≤ 8 * n) }
{
    match form {
        Form::Coordinates => 8 * n,
        Form::Places => 7 * n,
    }
}

// The kind of a record of pixels.
pub fn pixels_kind(form: Form) -> u8
    ensures { result ≡ pixels_kind form }
{
    match form {
        Form::Coordinates => 1,
        Form::Places => 17,
    }
}

// The kind of a removal's record.
pub fn remove_kind(form: Form) -> u8
    ensures { result ≡ remove_kind form }
{
    match form {
        Form::Coordinates => 4,
        Form::Places => 20,
    }
}
