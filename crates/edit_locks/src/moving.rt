// Marks moved with their entries.
ghost use Rattle.std.specs.Prelude.{◌≡◌, false, [], ◌∷◌, ◌+◌, ◌<◌, ◌≤◌, length};
ghost use Rattle.edit.specs.Storage.{stored_by, closed_by, reinserted_by};
ghost use Rattle.edit.specs.Locks.{locks_done, locks_back};
ghost use Rattle.edit_locks.specs.Movable.{Redoable, Undoable};

use base::Edit;

// Gives entry i a mark.
fn put_mark(locks: &mut [bool], i: usize, mark: bool)
    requires { i < length locks.old }
    ensures { locks.new ≡ stored_by 1 i (mark ∷ []) locks.old }
{
    locks[i] = mark;
}

// Takes the mark of entry i of k out. The last entry's old mark stays.
fn close_mark_gap(locks: &mut [bool], i: usize, k: usize)
    requires { (i < k) × (k ≤ length locks.old) }
    ensures { locks.new ≡ closed_by 1 i k locks.old }
{
    locks.copy_within(i + 1..k, i);
}

// Puts the mark false back as that of entry i, in front of the later of k entries.
fn open_mark_gap(locks: &mut [bool], i: usize, k: usize)
    requires { (i ≤ k) × (k + 1 ≤ length locks.old) }
    ensures { locks.new ≡ reinserted_by 1 i k (false ∷ []) locks.old }
{
    locks.copy_within(i..k, i + 1);
    put_mark(locks, i, false);
}

// The marks after an edit of k entries is done: an added entry is not locked, and a removal moves the later marks down.
#[tactic(auto, unfolding(edit::specs::Locks::locks_done, crate::specs::Movable::Redoable))]
pub fn redo_locks(k: usize, locks: &mut [bool], edit: Edit)
    requires { Redoable k (length locks.old) edit }
    ensures { locks.new ≡ locks_done k locks.old edit }
{
    match edit {
        Edit::Pixels { .. } | Edit::PaletteSet { .. } => (),
        Edit::PaletteAdd { .. } => put_mark(locks, k, false),
        Edit::PaletteRemove { index, .. } => close_mark_gap(locks, index, k),
        Edit::PaletteLock { index, new, .. } => put_mark(locks, index, new),
    }
}

// The marks after an edit is undone on k entries: an entry that is brought back is not locked.
#[tactic(auto, unfolding(edit::specs::Locks::locks_back, crate::specs::Movable::Undoable))]
pub fn undo_locks(k: usize, locks: &mut [bool], edit: Edit)
    requires { Undoable k (length locks.old) edit }
    ensures { locks.new ≡ locks_back k locks.old edit }
{
    match edit {
        Edit::Pixels { .. } | Edit::PaletteSet { .. } | Edit::PaletteAdd { .. } => (),
        Edit::PaletteRemove { index, .. } => open_mark_gap(locks, index, k),
        Edit::PaletteLock { index, old, .. } => put_mark(locks, index, old),
    }
}
