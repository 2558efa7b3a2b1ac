// The checks of an edit before its list, in document 01's order: one function a kind. 24 stands "directly after 7".
ghost use Rattle.std.specs.Prelude.{◌≡◌, Bool, not, ◌&&◌, List, ℕ, ◌+◌, ◌*◌, ◌≤◌, ℤ, Float, length};
ghost use Rattle.base.specs.Checks.{first_of};
ghost use Rattle.base.specs.declared.Lab.{Lab};
ghost use Rattle.sheet.specs.Sheet.{Sheet, sheet_of};
ghost use Rattle.base.specs.Triples.{rgb_at};
ghost use Rattle.base.specs.declared.Edit.TheVariants.{PaletteSet, PaletteAdd, PaletteRemove, PaletteLock};
ghost use Rattle.edit.specs.Checks.{Permitted, permitted_of, same_rgb, head_checks};

use base::{
    COLOUR_NOT_PERMITTED, ENTRY_LOCKED, Edit, LAST_ENTRY, MAX_ENTRIES, NO_SUCH_ENTRY, PALETTE_FULL,
    Rgb, STALE,
};
use edit_entries::{check_color, has_rgb};
use edit_locks::is_locked;

// Number 11 of an entry: on replay, whether its colour is not the one that the edit says.
fn is_stale(palette: &[u8], index: usize, c: Rgb, replay: bool) -> bool
    requires { 3 * index + 3 ≤ length palette.now }
    ensures { result ≡ replay && not (same_rgb (rgb_at palette.now index) c) }
{
    replay && !has_rgb(palette, index, c)
}

// The number of the first check that applies to a set, or 0: "7, 24, 11, 10".
#[tactic(auto, unfolding(edit::specs::Checks::head_checks, base::specs::Checks::first_of))]
fn set_no(
    k: usize,
    palette: &[u8],
    locks: &[bool],
    limited: bool,
    permitted: &[u8],
    index: usize,
    old: Rgb,
    new: Rgb,
    replay: bool,
) -> u8
    requires { (k ≤ 255) × (length palette.now ≡ 765) × (length locks.now ≡ 255) }
    ensures { (w h : ℕ) (lab : List Float) (indices : List ℤ) (x : Lab) → result
        ≡ first_of (head_checks replay (sheet_of w h k palette.now lab indices) locks.now
        (permitted_of limited permitted.now) (PaletteSet index old new x)) }
{
    if k <= index {
        return NO_SUCH_ENTRY;
    }
    if is_locked(locks, index) {
        return ENTRY_LOCKED;
    }
    if is_stale(palette, index, old, replay) {
        return STALE;
    }
    if check_color(limited, permitted, new) {
        return COLOUR_NOT_PERMITTED;
    }
    0
}

// The number of the first check that applies to an add, or 0: "8, 10".
#[tactic(auto, unfolding(edit::specs::Checks::head_checks, base::specs::Checks::first_of))]
fn add_no(k: usize, limited: bool, permitted: &[u8], c: Rgb) -> u8
    ensures { (w h : ℕ) (palette : List ℕ) (lab : List Float) (indices : List ℤ) (locks : List Bool) (replay : Bool) → result
        ≡ first_of (head_checks replay (sheet_of w h k palette lab indices) locks (permitted_of limited permitted.now)
        (PaletteAdd c)) }
{
    if MAX_ENTRIES <= k {
        return PALETTE_FULL;
    }
    if check_color(limited, permitted, c) {
        return COLOUR_NOT_PERMITTED;
    }
    0
}

// The number of the first of a removal's checks before its list that applies, or 0: "7, 24, 9, 11".
#[tactic(auto, unfolding(edit::specs::Checks::head_checks, base::specs::Checks::first_of))]
fn entry_no(k: usize, palette: &[u8], locks: &[bool], index: usize, c: Rgb, replay: bool) -> u8
    requires { (k ≤ 255) × (length palette.now ≡ 765) × (length locks.now ≡ 255) }
    ensures { (w h : ℕ) (lab : List Float) (indices : List ℤ) (p : Permitted) (x : Lab)
        → result ≡ first_of (head_checks replay (sheet_of w h k palette.now lab indices) locks.now p (PaletteRemove index c x)) }
{
    if k <= index {
        return NO_SUCH_ENTRY;
    }
    if is_locked(locks, index) {
        return ENTRY_LOCKED;
    }
    if k < 2 {
        return LAST_ENTRY;
    }
    if is_stale(palette, index, c, replay) {
        return STALE;
    }
    0
}

// The number of the first check that applies to a lock, or 0: 7, "Replay of kind 5 gets 11, after 7, when the old mark
// differs".
#[tactic(auto, unfolding(edit::specs::Checks::head_checks, base::specs::Checks::first_of))]
fn lock_no(k: usize, locks: &[bool], index: usize, old: bool, replay: bool) -> u8
    requires { (k ≤ 255) × (length locks.now ≡ 255) }
    ensures { (s : Sheet) (p : Permitted) (new : Bool) → s.k ≡ k
        → result ≡ first_of (head_checks replay s locks.now p (PaletteLock index old new)) }
{
    if k <= index {
        return NO_SUCH_ENTRY;
    }
    if replay && is_locked(locks, index) != old {
        return STALE;
    }
    0
}

// The number of the first of an edit's checks before its list that applies, or 0.
#[tactic(auto, unfolding(edit::specs::Checks::head_checks, base::specs::Checks::first_of))]
pub fn head_no(
    k: usize,
    palette: &[u8],
    locks: &[bool],
    limited: bool,
    permitted: &[u8],
    edit: Edit,
    replay: bool,
) -> u8
    requires { (k ≤ 255) × (length palette.now ≡ 765) × (length locks.now ≡ 255) }
    ensures { (w h : ℕ) (lab : List Float) (indices : List ℤ) → result
        ≡ first_of (head_checks replay (sheet_of w h k palette.now lab indices) locks.now
        (permitted_of limited permitted.now) edit) }
{
    match edit {
        Edit::Pixels { .. } => 0,
        Edit::PaletteSet {
            index,
            old,
            new,
            ..
        } => set_no(
            k, palette, locks, limited, permitted, index, old, new, replay,
        ),
        Edit::PaletteAdd { rgb } => add_no(k, limited, permitted, rgb),
        Edit::PaletteRemove { index, rgb, .. } => entry_no(k, palette, locks, index, rgb, replay),
        Edit::PaletteLock { index, old, .. } => lock_no(k, locks, index, old, replay),
    }
}
