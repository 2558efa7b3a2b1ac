// The lock marks of a palette's entries: document 02, E5.
ghost use Rattle.std.specs.Prelude.{◌≡◌, ◌≤◌, length};
ghost use Rattle.sheet.specs.Document.{cleared_marks};

// Makes the first k marks false. The others keep.
pub(crate) fn clear_locks(locks: &mut [bool], k: usize)
    requires { k ≤ length locks.old }
    ensures { locks.new ≡ cleared_marks k locks.old }
{
    locks[..k].fill(false);
}
