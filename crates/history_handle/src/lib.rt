// The history handle by value: the five numbers that say where a history stands in its journal, and the steps that
// push, undo, redo and mark make on them.
//
// What the calls over these steps do together, whatever the sheet, the edits and the records are, is
// document 01's demand 3: specs/Demand.antt has the statement.
#![tactic(auto)]

ghost use Rattle.std.specs.Prelude.{◌≡◌, ◌+◌, ◌≤◌, ◌<◌};
ghost use Rattle.base.specs.Limits.{max_journal};
ghost use Rattle.history_ledger.specs.Handle.{fresh, sound, after_push, stepped_back, stepped_forth, marked, dirty};

use base::{Handle, NOWHERE};

// The handle of a history without records, which is as it was saved.
pub fn fresh() -> Handle
    ensures { result ≡ fresh }
{
    Handle {
        offset: 0,
        end: 0,
        position: 0,
        count: 0,
        saved: 0,
    }
}

// Whether the handle is sound in a journal of so many bytes: a test for each clause of document 01. A record
// has 8 bytes or more; the bytes are divided, since 8 * position might not fit.
pub fn sound(handle: Handle, size: usize) -> bool
    ensures { result ≡ sound size handle }
{
    let offset = handle.offset;
    let end = handle.end;
    let position = handle.position;
    let count = handle.count;
    let saved = handle.saved;
    if end < offset {
        return false;
    }
    if size < end {
        return false;
    }
    if count < position {
        return false;
    }
    if saved != NOWHERE && count < saved {
        return false;
    }
    if offset / 8 < position {
        return false;
    }
    if (end - offset) / 8 < count - position {
        return false;
    }
    if (offset == 0) != (position == 0) {
        return false;
    }
    if (offset == end) != (position == count) {
        return false;
    }
    true
}

// The handle with its standing position saved.
pub fn marked(mut handle: Handle) -> Handle
    ensures { result ≡ marked handle }
{
    handle.saved = handle.position;
    handle
}

// Whether no position is saved, or another than the standing one.
pub fn is_dirty(handle: Handle) -> bool
    ensures { result ≡ dirty handle }
{
    let saved = handle.saved;
    if saved == NOWHERE {
        return true;
    }
    saved != handle.position
}

// The handle after a push of a record of n bytes, which is the last one then. A saved position beyond the
// standing one is forgotten.
pub fn after_push(mut handle: Handle, n: usize) -> Handle
    requires n_bound { handle.offset + n ≤ max_journal }
    requires position_le_offset { handle.position ≤ handle.offset }
    ensures { result ≡ after_push n handle }
{
    let standing = handle.position;
    handle.offset += n;
    handle.end = handle.offset;
    handle.position += 1;
    handle.count = handle.position;
    if standing < handle.saved {
        handle.saved = NOWHERE;
    }
    handle
}

// The handle after one step back over a record of n bytes. The end stays.
pub fn stepped_back(mut handle: Handle, n: usize) -> Handle
    requires n_le_offset { n ≤ handle.offset }
    requires position_nonzero { 0 < handle.position }
    ensures { result ≡ stepped_back n handle }
{
    handle.offset -= n;
    handle.position -= 1;
    handle
}

// The handle after one step forth over a record of n bytes. The end stays.
pub fn stepped_forth(mut handle: Handle, n: usize) -> Handle
    requires n_bound { handle.offset + n ≤ handle.end }
    requires position_lt_count { handle.position < handle.count }
    ensures { result ≡ stepped_forth n handle }
{
    handle.offset += n;
    handle.position += 1;
    handle
}
