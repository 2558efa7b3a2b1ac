// The olds of a record's changes, read from its bytes, judged and painted.
ghost use Rattle.std.specs.Prelude.{◌≡◌, false, not, ◌&&◌, List, ℕ, ◌+◌, ◌*◌, ◌<◌, ◌≤◌, ℤ, pos, length, get_or, set};
ghost use Rattle.base.specs.Lists.{some};
ghost use Rattle.sheet.specs.Sheet.{stray};
ghost use Rattle.edit.specs.Change.{unpacked, place, painted, old_of};
ghost use Rattle.edit_pixels.specs.Inside.{past};
ghost use Rattle.journal_record.specs.Record.{stride, changes_in};
ghost use Rattle.journal_olds.specs.Claims.{claimed, claim_of, release_of, Claims};

use base::{Form, both, either};
use edit_pixels::{is_stray, old_of, paint_old, place_of};
use journal_read::{change_at, row_width};

// Whether some old lies outside -1..k-1.
fn any_stray_old_in(k: usize, form: Form, journal: &[u8], at: usize, n: usize) -> bool
    requires { at + stride form * n ≤ length journal.now }
    ensures { (w : ℕ) → result ≡ some (λ c. stray k (old_of c)) (changes_in form w journal.now at n) }
{
    let mut bad = false;
    for i in 0..n {
        bad = either(bad, is_stray(old_of(change_at(form, journal, at, i)), k));
    }
    bad
}

// Paints each old at its place, in order. No change is past the picture.
pub fn paint_olds_in(indices: &mut [i16], w: usize, form: Form, journal: &[u8], at: usize, n: usize)
    requires n_in_bounds { at + stride form * n ≤ length journal.now }
    requires n_value { some (past w (length indices.old)) (changes_in form w journal.now at n) ≡ false }
    ensures { indices.new ≡ painted old_of w (changes_in form w journal.now at n) indices.old }
{
    let row = row_width(form, w);
    for i in 0..n {
        paint_old(indices, row, change_at(form, journal, at, i));
    }
}

// An index of a picture is below this, and one at a claimed place is not.
const CLAIMED: i16 = 500;

// What is added at a claimed place.
const CLAIM: i16 = 1000;

// Whether an index stands at a claimed place.
fn is_claimed(z: i16) -> bool
    ensures { result ≡ claimed z }
{
    CLAIMED <= z
}

// The index at a place that is claimed now or was before.
fn claim(z: i16) -> i16
    ensures { result ≡ claim_of z }
{
    if CLAIMED <= z { z } else { z + CLAIM }
}

// The index without the claim.
fn release(z: i16) -> i16
    ensures { result ≡ release_of z }
{
    if CLAIMED <= z { z - CLAIM } else { z }
}

// Claims a change's place. Whether it was free and the change's old lies outside -1..k-1.
fn claim_place(indices: &mut [i16], w: usize, k: usize, c: u64) -> bool
    requires { place w (unpacked c) < length indices.old }
    ensures indices_after { indices.new
        ≡ set indices.old (place w (unpacked c))
        (claim_of (get_or indices.old (place w (unpacked c)) (pos 0))) }
    ensures value { result ≡ not (claimed (get_or indices.old (place w (unpacked c)) (pos 0))) && stray k (old_of (unpacked c)) }
{
    let p = place_of(w, c);
    let taken = is_claimed(indices[p]);
    indices[p] = claim(indices[p]);
    both(!taken, is_stray(old_of(c), k))
}

// Claims the places of the changes, from the last change back: the first to claim a place is the last that
// paints it. Whether one of these paints an index outside -1..k-1, which is then in the picture to the end.
fn claim_places(
    indices: &mut [i16],
    w: usize,
    k: usize,
    form: Form,
    journal: &[u8],
    at: usize,
    n: usize,
) -> bool
    requires n_in_bounds { (at + stride form * n ≤ length journal.now) × (k ≤ 256) }
    requires n_value { some (past w (length indices.old)) (changes_in form w journal.now at n) ≡ false }
    requires indices_value { some (stray k) indices.old ≡ false }
    ensures claims { Claims w (changes_in form w journal.now at n) indices.old indices.new }
    ensures value { result ≡ some (stray k) (painted old_of w (changes_in form w journal.now at n) indices.old) }
{
    let row = row_width(form, w);
    let mut bad = false;
    for i in (0..n).rev() {
        let hit = claim_place(indices, row, k, change_at(form, journal, at, i));
        bad = either(bad, hit);
    }
    bad
}

// Takes the claim off a change's place.
fn release_place(indices: &mut [i16], w: usize, c: u64)
    requires { place w (unpacked c) < length indices.old }
    ensures { indices.new
        ≡ set indices.old (place w (unpacked c))
        (release_of (get_or indices.old (place w (unpacked c)) (pos 0))) }
{
    let p = place_of(w, c);
    indices[p] = release(indices[p]);
}

// Takes the claims off the places of the changes.
fn release_places(indices: &mut [i16], w: usize, form: Form, journal: &[u8], at: usize, n: usize)
    requires n_in_bounds { at + stride form * n ≤ length journal.now }
    requires n_value { some (past w (length indices.old)) (changes_in form w journal.now at n) ≡ false }
    ensures { (l : List ℤ) → Claims w (changes_in form w journal.now at n) l indices.old
        → indices.new ≡ l }
{
    let row = row_width(form, w);
    for i in 0..n {
        release_place(indices, row, change_at(form, journal, at, i));
    }
}

// Whether the picture with the olds painted has an index outside -1..k-1: at each place the last old
// counts. The picture is written to on the way, and is as it was at the end.
pub fn olds_stray(
    indices: &mut [i16],
    w: usize,
    k: usize,
    form: Form,
    journal: &[u8],
    at: usize,
    n: usize,
) -> bool
    requires n_in_bounds { (at + stride form * n ≤ length journal.now) × (k ≤ 256) }
    requires n_value { some (past w (length indices.old)) (changes_in form w journal.now at n) ≡ false }
    requires indices_value { some (stray k) indices.old ≡ false }
    ensures indices_unchanged { indices.new ≡ indices.old }
    ensures value { result ≡ some (stray k) (painted old_of w (changes_in form w journal.now at n) indices.old) }
{
    if !any_stray_old_in(k, form, journal, at, n) {
        return false;
    }
    let bad = claim_places(indices, w, k, form, journal, at, n);
    release_places(indices, w, form, journal, at, n);
    bad
}
