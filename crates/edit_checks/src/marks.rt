// A removal's marks, a byte a pixel: taken away before its list, and looked at after it.
ghost use Rattle.std.specs.Prelude.{◌≡◌, List, ◌*◌, ◌≤◌, length};
ghost use Rattle.base.specs.Checks.{first_of};
ghost use Rattle.edit.specs.Change.{Change};
ghost use Rattle.edit.specs.Checks.{left_checks};
ghost use Rattle.edit_pixels.specs.Inside.{bare};
ghost use Rattle.edit_checks.specs.Marks.{Checkable, ClearFor, MarksFor};

use base::STILL_USED;
use edit::ListKind;
use edit_left::any_left;

// Takes the marks of n pixels away before a removal's list.
#[tactic(auto, unfolding(crate::specs::Marks::ClearFor))]
pub fn clear_marks(list: ListKind, n: usize, marks: &mut [u8])
    requires { n ≤ length marks.old }
    ensures { ClearFor list n marks.new }
{
    match list {
        ListKind::NoList | ListKind::PixelList => (),
        ListKind::RemapList { .. } => marks[..n].fill(0),
    }
}

// The number of an edit's check after its list, or 0: 13 of a removal whose places are marked.
#[tactic(auto, unfolding(crate::specs::Marks::Markable))]
pub fn left_no(list: ListKind, w: usize, h: usize, indices: &[i16], marks: &[u8]) -> u8
    requires { Checkable list w h (length indices.now) (length marks.now) }
    ensures { (cs : List Change) → MarksFor list w (w * h) cs marks.now
        → result ≡ first_of (left_checks (bare w h 0 indices.now) list cs) }
{
    match list {
        ListKind::NoList | ListKind::PixelList => 0,
        ListKind::RemapList { index } => {
            let n = indices.len();
            if any_left(w, h, index, indices, &marks[..n]) {
                return STILL_USED;
            }
            0
        }
    }
}
