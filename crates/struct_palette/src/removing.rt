// `remove_entry` and `merge_entries` of palette.rs.
ghost use Rattle.std.specs.Prelude.{◌≡◌, map, length};
ghost use Rattle.base.specs.Answer.{removal_told, removed_told};
ghost use Rattle.sheet.specs.Sheet.{sheet_of};
ghost use Rattle.change_list.specs.Listed.{InScratch};
ghost use Rattle.struct_change.specs.Struct.{packed_of};
ghost use Rattle.palette_model.specs.Removal.{remapped, replaced, remove_entry_of, merge_entries_of};
ghost use Rattle.struct_palette.specs.Scratch.{removal_count, removed_count, no_removal, needing_remap};

use base::{Change, NO_SPACE, Removal, Removed};
use struct_change::unpack;

// How many changes `remove_entry` has, none where it was refused.
fn removed_count(answer: Removed) -> usize
    ensures { result ≡ removed_count answer }
{
    match answer {
        Removed::Made { count, .. } => count,
        Removed::Refused(_) => 0,
    }
}

// What `remove_entry` answers with too little scratch: 16, where nothing else refuses it.
#[tactic(auto, unfolding(crate::specs::Scratch::no_removal))]
fn none_removed(answer: Removed) -> Removed
    ensures { removed_told result ≡ no_removal (removed_told answer) }
{
    match answer {
        Removed::Made { .. } => Removed::Refused(NO_SPACE),
        Removed::Refused(no) => Removed::Refused(no),
    }
}

// The changes of `remove_entry`, left at the front of the scratch for a buffer of `room` places.
fn remove_entry_in(
    w: usize,
    h: usize,
    k: usize,
    palette: &[u8],
    lab: &[f64],
    indices: &[i16],
    locks: &[bool],
    index: usize,
    scratch: &mut [u64],
    room: usize,
) -> Removed
    ensures { let sheet = sheet_of w h k palette.now lab.now indices.now in
        InScratch (removed_count result) room scratch.new (replaced result)
        (needing_remap (length scratch.old) (length indices.now) (remove_entry_of sheet locks.now index)) }
{
    if scratch.len() < indices.len() {
        let r = palette_remove::remove_entry(
            w,
            h,
            k,
            palette,
            lab,
            indices,
            locks,
            index,
            &mut scratch[..0],
        );
        return none_removed(r);
    }
    let m = room.min(scratch.len());
    palette_remove::remove_entry(
        w,
        h,
        k,
        palette,
        lab,
        indices,
        locks,
        index,
        &mut scratch[..m],
    )
}

// `palette::remove_entry`: an entry removed, its pixels moved to the nearest other, which is handed back with its
// distance. The scratch has a place a pixel.
pub fn remove_entry(
    w: usize,
    h: usize,
    k: usize,
    palette: &[u8],
    lab: &[f64],
    indices: &[i16],
    locks: &[bool],
    index: usize,
    scratch: &mut [u64],
    out: &mut [Change],
) -> Removed
    ensures { let sheet = sheet_of w h k palette.now lab.now indices.now in
        (replaced result (map packed_of out.new)
        ≡ needing_remap (length scratch.old) (length indices.now) (remove_entry_of sheet locks.now index)
        (map packed_of out.old)) × (length scratch.new ≡ length scratch.old) }
{
    let r = remove_entry_in(
        w,
        h,
        k,
        palette,
        lab,
        indices,
        locks,
        index,
        scratch,
        out.len(),
    );
    let n = removed_count(r);
    unpack(scratch, n, out);
    r
}

// How many changes `merge_entries` has, none where it was refused.
fn removal_count(answer: Removal) -> usize
    ensures { result ≡ removal_count answer }
{
    match answer {
        Removal::Made { count, .. } => count,
        Removal::Refused(_) => 0,
    }
}

// What `merge_entries` answers with too little scratch: 16, where nothing else refuses it.
#[tactic(auto, unfolding(crate::specs::Scratch::no_removal))]
fn no_removal(answer: Removal) -> Removal
    ensures { removal_told result ≡ no_removal (removal_told answer) }
{
    match answer {
        Removal::Made { .. } => Removal::Refused(NO_SPACE),
        Removal::Refused(no) => Removal::Refused(no),
    }
}

// The changes of `merge_entries`, left at the front of the scratch for a buffer of `room` places.
fn merge_entries_in(
    w: usize,
    h: usize,
    k: usize,
    palette: &[u8],
    lab: &[f64],
    indices: &[i16],
    locks: &[bool],
    from: usize,
    into: usize,
    scratch: &mut [u64],
    room: usize,
) -> Removal
    ensures { let sheet = sheet_of w h k palette.now lab.now indices.now in
        InScratch (removal_count result) room scratch.new (remapped result)
        (needing_remap (length scratch.old) (length indices.now) (merge_entries_of sheet locks.now from into)) }
{
    if scratch.len() < indices.len() {
        let r = palette_remove::merge_entries(
            w,
            h,
            k,
            palette,
            lab,
            indices,
            locks,
            from,
            into,
            &mut scratch[..0],
        );
        return no_removal(r);
    }
    let m = room.min(scratch.len());
    palette_remove::merge_entries(
        w,
        h,
        k,
        palette,
        lab,
        indices,
        locks,
        from,
        into,
        &mut scratch[..m],
    )
}

// `palette::merge_entries`: an entry merged into another. The scratch has a place a pixel.
pub fn merge_entries(
    w: usize,
    h: usize,
    k: usize,
    palette: &[u8],
    lab: &[f64],
    indices: &[i16],
    locks: &[bool],
    from: usize,
    into: usize,
    scratch: &mut [u64],
    out: &mut [Change],
) -> Removal
    ensures { let sheet = sheet_of w h k palette.now lab.now indices.now in
        (remapped result (map packed_of out.new)
        ≡ needing_remap (length scratch.old) (length indices.now) (merge_entries_of sheet locks.now from into)
        (map packed_of out.old)) × (length scratch.new ≡ length scratch.old) }
{
    let r = merge_entries_in(
        w,
        h,
        k,
        palette,
        lab,
        indices,
        locks,
        from,
        into,
        scratch,
        out.len(),
    );
    let n = removal_count(r);
    unpack(scratch, n, out);
    r
}
