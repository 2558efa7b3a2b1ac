// Entries that leave the palette, with the changes that move their pixels: `remove_entry` and
// `merge_entries`. The changes are counted before the first is written.
ghost use Rattle.std.specs.Prelude.{◌≡◌, [], map, ◌+◌, ◌*◌, ◌<◌, ◌≤◌, pos, length};
ghost use Rattle.base.specs.Answer.{entry_at, removal_told, removed_told};
ghost use Rattle.base.specs.Lists.{over};
ghost use Rattle.sheet.specs.Sheet.{sheet_of};
ghost use Rattle.edit.specs.Change.{packed};
ghost use Rattle.edit_pixels.specs.Listing.{places_from};
ghost use Rattle.palette_model.specs.Removal.{remap_of, remapped, replaced, with_target};
ghost use Rattle.palette_model.specs.Removal.{remove_to, remove_entry_of, merge_entries_of};

use base::{BAD_MERGE, ENTRY_LOCKED, Edit, NO_SPACE, Removal, Removed, rgb_at};
use edit_entries::no_lab;
use edit_pixels::{change_of, count_on, list_row};
use palette_nearest::{nearest_but, removal_no};
use sheet::check_marked;

// An entry as pixels have it.
fn as_index(entry: usize) -> i16
    requires { entry ≤ 255 }
    ensures { result ≡ pos entry }
{
    entry as i16
}

// Lists the changes of the pixels that are on the entry, row by row. What the list has past them keeps.
fn list_rows(w: usize, h: usize, indices: &[i16], index: usize, target: usize, list: &mut [u64])
    requires { (w ≤ 1024) × (h ≤ 1024) × (length indices.now ≡ w * h) × (index ≤ 255) × (target ≤ 255)
        × (length (places_from (pos index) 0 indices.now) ≤ length list.old) }
    ensures { list.new ≡ over (map packed (remap_of w indices.now index target)) list.old }
{
    let from = as_index(index);
    let to = as_index(target);
    let mut n = 0;
    for y in 0..h {
        let at = y * w;
        let end = at + w;
        let first = change_of(0, y, from, to);
        n += list_row(&indices[at..end], from, first, &mut list[n..]);
    }
}

// The edit that removes an entry, and the list that moves its pixels to another; 16 where the list is
// shorter than its changes.
fn remove_to(
    w: usize,
    h: usize,
    palette: &[u8],
    indices: &[i16],
    index: usize,
    target: usize,
    list: &mut [u64],
) -> Removal
    requires { (w ≤ 1024) × (h ≤ 1024) × (length indices.now ≡ w * h) × (length palette.now ≡ 765) × (index < 255)
        × (target < 255) }
    ensures { remapped result list.new
        ≡ remove_to (λ made. made) [] w palette.now indices.now index target list.old }
{
    let count = count_on(indices, as_index(index));
    if list.len() < count {
        return Removal::Refused(NO_SPACE);
    }
    list_rows(w, h, indices, index, target, list);
    let rgb = rgb_at(palette, index);
    let lab = no_lab();
    Removal::Made {
        edit: Edit::PaletteRemove { index, rgb, lab },
        count,
    }
}

// A removal, with the entry that its pixels move to and that entry's distance.
#[tactic(auto, unfolding(palette_model::specs::Removal::with_target))]
fn with_target(made: Removal, into: usize, distance: f64) -> Removed
    ensures { removed_told result ≡ with_target (entry_at into distance) (removal_told made) }
{
    match made {
        Removal::Made { edit, count } => Removed::Made {
            edit,
            count,
            into,
            distance,
        },
        Removal::Refused(no) => Removed::Refused(no),
    }
}

// The edit that removes entry `index`; its pixels move to the nearest other entry, which is handed back with its
// `dist2`, also where no pixel is on the entry. A locked entry stays: 24.
pub fn remove_entry(
    w: usize,
    h: usize,
    k: usize,
    palette: &[u8],
    lab: &[f64],
    indices: &[i16],
    locks: &[bool],
    index: usize,
    list: &mut [u64],
) -> Removed
    ensures { let sheet = sheet_of w h k palette.now lab.now indices.now in
        replaced result list.new ≡ remove_entry_of sheet locks.now index list.old }
{
    let no = removal_no(w, h, k, palette, lab, indices, locks, index);
    if no != 0 {
        return Removed::Refused(no);
    }
    let near = nearest_but(lab, k, index);
    let into = near.entry;
    let made = remove_to(w, h, palette, indices, index, into, list);
    with_target(made, into, near.distance)
}

// The edit that merges entry `from` into `into`: its pixels become `into`, and it is removed. 24 where `from` is
// locked; into a locked entry others may be merged.
pub fn merge_entries(
    w: usize,
    h: usize,
    k: usize,
    palette: &[u8],
    lab: &[f64],
    indices: &[i16],
    locks: &[bool],
    from: usize,
    into: usize,
    list: &mut [u64],
) -> Removal
    ensures { let sheet = sheet_of w h k palette.now lab.now indices.now in
        remapped result list.new ≡ merge_entries_of sheet locks.now from into list.old }
{
    let no = check_marked(w, h, k, palette, lab, indices, locks);
    if no != 0 {
        return Removal::Refused(no);
    }
    if k <= from {
        return Removal::Refused(BAD_MERGE);
    }
    if k <= into {
        return Removal::Refused(BAD_MERGE);
    }
    if from == into {
        return Removal::Refused(BAD_MERGE);
    }
    if locks[from] {
        return Removal::Refused(ENTRY_LOCKED);
    }
    remove_to(w, h, palette, indices, from, into, list)
}
