// An edit's list, one number of 64 bits a change, checked and painted.
#![tactic(auto)]

ghost use Rattle.std.specs.Prelude.{◌≡◌, ◌*◌, ◌≤◌, length};
ghost use mathlib.Core.List.{map, flat_map};
ghost use Rattle.base.specs.Checks.{first_of};
ghost use Rattle.edit.specs.Change.{unpacked};
ghost use Rattle.edit.specs.List.{painted_list};
ghost use Rattle.edit.specs.Checks.{remap_checks, change_checks};
ghost use Rattle.edit_pixels.specs.Inside.{bare};
ghost use Rattle.edit_checks.specs.Marks.{Checkable, ClearFor, MarksFor};
ghost use Rattle.edit_list.specs.Paintable.{Paintable};
ghost use Rattle.edit_remap.specs.Marked.{MarkedFrom};

use edit::ListKind;
use edit_pixels::{paint_news, pixels_no};
use edit_remap::mark_move;

// The number of the first of 5 and 12 that applies to a remap, or 0: then its places are marked.
fn mark_remap(
    w: usize,
    h: usize,
    k: usize,
    index: usize,
    indices: &[i16],
    marks: &mut [u8],
    list: &[u64],
) -> u8
    requires { (index ≤ 255) × (length indices.now ≡ w * h) × (w * h ≤ length marks.old) }
    ensures { (result ≡ first_of (flat_map (remap_checks (bare w h k indices.now) index) (map unpacked list.now)))
        × (result ≡ 0 → MarkedFrom w (map unpacked list.now) (w * h) marks.old marks.new) }
{
    for c in list {
        let no = mark_move(w, h, k, index, indices, marks, *c);
        if no != 0 {
            return no;
        }
    }
    0
}

// The number of the first check that applies to a change of a list, or 0: then the places of a removal's are marked.
// The olds are looked at on replay alone.
pub fn check_list(
    kind: ListKind,
    replay: bool,
    w: usize,
    h: usize,
    k: usize,
    indices: &[i16],
    marks: &mut [u8],
    list: &[u64],
) -> u8
    requires { Checkable kind w h (length indices.now) (length marks.old) }
    ensures { (result
        ≡ first_of
        (flat_map (change_checks replay (bare w h k indices.now) kind) (map unpacked list.now)))
        × (result ≡ 0 → ClearFor kind (w * h) marks.old
        → MarksFor kind w (w * h) (map unpacked list.now) marks.new) }
{
    match kind {
        ListKind::NoList => 0,
        ListKind::PixelList => pixels_no(w, h, k, indices, list, replay),
        ListKind::RemapList { index } => mark_remap(w, h, k, index, indices, marks, list),
    }
}

// Paints each new of a list at its place, in order.
#[tactic(auto, unfolding(edit::specs::List::painted_list, crate::specs::Paintable::Paintable))]
pub fn paint_list(kind: ListKind, indices: &mut [i16], w: usize, list: &[u64])
    requires { Paintable kind w (length indices.old) (map unpacked list.now) }
    ensures { indices.new ≡ painted_list kind w (map unpacked list.now) indices.old }
{
    match kind {
        ListKind::NoList => (),
        ListKind::PixelList | ListKind::RemapList { .. } => paint_news(indices, w, list),
    }
}
