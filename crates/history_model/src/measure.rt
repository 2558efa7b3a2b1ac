// How long a record is.
ghost use Rattle.std.specs.Prelude.{◌≡◌, ◌≤◌};
ghost use Rattle.base.specs.Limits.{max_changes};
ghost use Rattle.journal_record.specs.Record.{record_length};

use base::{Edit, Form};
use journal_find::list_bytes;

// The bytes of an edit's record with n changes.
pub fn record_length(form: Form, edit: Edit, n: usize) -> usize
    requires { n ≤ max_changes }
    ensures { result ≡ record_length form edit n }
{
    match edit {
        Edit::Pixels { tool: _ } => 10 + list_bytes(form, n),
        Edit::PaletteSet {
            index: _,
            old: _,
            new: _,
            old_lab: _,
        } => 36,
        Edit::PaletteAdd { rgb: _ } => 8,
        Edit::PaletteRemove {
            index: _,
            rgb: _,
            lab: _,
        } => 37 + list_bytes(form, n),
        Edit::PaletteLock {
            index: _,
            old: _,
            new: _,
        } => 8,
    }
}
