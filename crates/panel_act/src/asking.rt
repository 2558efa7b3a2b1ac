// What a frame asks for.
ghost use Rattle.std.specs.Prelude.{◌≡◌, length};
ghost use Rattle.base.specs.declared.Edit.TheVariants.{PaletteSet};
ghost use Rattle.edit_entries.specs.Unfilled.{no_lab};
ghost use Rattle.history_model.specs.Document.{document_of};
ghost use Rattle.panel_model.specs.Acts.{Roomy};
ghost use Rattle.panel_model.specs.Asks.{Asks, asked_by};

use base::{Edit, Removal, Rgb, UNREAD_FRAME};
use edit_entries::no_lab;
use palette_remove::merge_entries;
use panel_frames::Frame;
use panel_model::Asked;

// The edit that recolours an entry: push fills in what it was.
fn set_edit(index: usize, rgb: Rgb) -> Edit
    ensures { result ≡ PaletteSet index rgb rgb no_lab }
{
    let old_lab = no_lab();
    Edit::PaletteSet {
        index,
        old: rgb,
        new: rgb,
        old_lab,
    }
}

// A merge's edit, or the number that refuses it.
#[tactic(auto, unfolding(panel_model::specs::Asks::asked_by))]
fn asked_by(made: Removal) -> Asked
    ensures { result ≡ asked_by made }
{
    match made {
        Removal::Made { edit, count } => Asked::Push { edit, n: count },
        Removal::Refused(no) => Asked::Refused(no),
    }
}

// What a frame asks of a history that stands at the sheet: a pixel frame's changes stand at the front of the list, and a
// merge's are written there. An opening and a malformed frame are 22.
pub(crate) fn asked(
    w: usize,
    h: usize,
    k: usize,
    palette: &[u8],
    lab: &[f64],
    indices: &[i16],
    locks: &[bool],
    frame: Frame,
    list: &mut [u64],
) -> Asked
    requires { Roomy frame (length indices.now) (length list.old) }
    ensures { Asks (document_of w h k palette.now lab.now indices.now locks.now) frame
        list.old result list.new }
{
    match frame {
        Frame::Open { w: _, h: _, k: _ } => Asked::Refused(UNREAD_FRAME),
        Frame::Pixels { tool, n } => {
            let edit = Edit::Pixels { tool };
            Asked::Push { edit, n }
        }
        Frame::Set { index, rgb } => {
            let edit = set_edit(index, rgb);
            Asked::Push { edit, n: 0 }
        }
        Frame::Add { rgb } => {
            let edit = Edit::PaletteAdd { rgb };
            Asked::Push { edit, n: 0 }
        }
        Frame::Merge { from, into } => {
            let made = merge_entries(w, h, k, palette, lab, indices, locks, from, into, list);
            asked_by(made)
        }
        Frame::Undo => Asked::Undo,
        Frame::Redo => Asked::Redo,
        Frame::Mark => Asked::Mark,
        Frame::Malformed => Asked::Refused(UNREAD_FRAME),
    }
}
