// Marks read.
ghost use Rattle.std.specs.Prelude.{◌≡◌, ◌<◌, length};
ghost use Rattle.edit.specs.Locks as locks-of;
ghost use Rattle.edit.specs.Locks.{lock_at};
ghost use Rattle.edit_locks.specs.Movable.{MarkIn};

use base::Edit;

// Whether entry i is locked.
pub fn is_locked(locks: &[bool], i: usize) -> bool
    requires { i < length locks.now }
    ensures { result ≡ lock_at locks.now i }
{
    locks[i]
}

// Whether the entry of a lock bears its new mark: what undo asks of the marks.
#[tactic(auto, unfolding(edit::specs::Locks::bears, crate::specs::Movable::MarkIn))]
pub fn bears(locks: &[bool], edit: Edit) -> bool
    requires { MarkIn (length locks.now) edit }
    ensures { result ≡ locks-of.bears locks.now edit }
{
    match edit {
        Edit::PaletteLock { index, new, .. } => is_locked(locks, index) == new,
        Edit::Pixels { .. }
        | Edit::PaletteSet { .. }
        | Edit::PaletteAdd { .. }
        | Edit::PaletteRemove { .. } => true,
    }
}
