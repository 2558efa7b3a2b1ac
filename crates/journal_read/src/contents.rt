// The edit of a record, read where it lies; its changes stay in the journal.
ghost use Rattle.std.specs.Prelude.{◌≡◌};
ghost use Rattle.base.specs.declared.Form.TheVariants.{Coordinates};
ghost use Rattle.journal_read.specs.Lies.{edit_at, Lies};

use crate::kind::{ADD, LOCK, PIXELS, SET, entry_at, mark_at};
use crate::lab::lab_in;
use crate::rgb::get_rgb;
use base::Edit;

// The edit of a record that lies in the journal, in either form: without its changes a record is as long in both.
#[tactic(auto, unfolding(crate::specs::Lies::edit_at, journal_record::specs::Record::by_kind, journal_record::specs::Record::record_length))]
pub fn edit_at(journal: &[u8], kind: u8, start: usize) -> Edit
    requires { Lies Coordinates journal.now kind start 0 }
    ensures { result ≡ edit_at journal.now kind start }
{
    if kind == PIXELS {
        let tool = journal[start + 1];
        return Edit::Pixels { tool };
    }
    if kind == SET {
        let index = entry_at(journal, start);
        let old = get_rgb(journal, start + 2);
        let new = get_rgb(journal, start + 5);
        let old_lab = lab_in(journal, start + 8);
        return Edit::PaletteSet {
            index,
            old,
            new,
            old_lab,
        };
    }
    if kind == ADD {
        return Edit::PaletteAdd {
            rgb: get_rgb(journal, start + 1),
        };
    }
    if kind == LOCK {
        let index = entry_at(journal, start);
        let old = mark_at(journal, start + 2);
        let new = mark_at(journal, start + 3);
        return Edit::PaletteLock { index, old, new };
    }
    let index = entry_at(journal, start);
    let rgb = get_rgb(journal, start + 2);
    let lab = lab_in(journal, start + 5);
    Edit::PaletteRemove { index, rgb, lab }
}
