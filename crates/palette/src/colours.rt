// Colours that entries may take: `check_color`, `fixed_choices`, `set_color`, `add_color`.
ghost use Rattle.std.specs.Prelude.{◌≡◌, [], ◌+◌, ◌*◌, ◌/◌, ◌≤◌, length};
ghost use Rattle.base.specs.Answer.{answer_told, made_edit_told};
ghost use Rattle.base.specs.Lists.{over};
ghost use Rattle.sheet.specs.Sheet.{sheet_of};
ghost use Rattle.sheet.specs.Checks.{WellFormed, Marked, mark_checks};
ghost use Rattle.sheet.specs.Document.{mark};
ghost use Rattle.base.specs.Triples.{rgb_at};
ghost use Rattle.edit.specs.Checks.{permitted_of, listed};
ghost use Rattle.palette_model.specs.Colours.{PaletteJudged, check_color_of, used_of, chosen, fixed_choices_of, set_color_of, add_color_of};

use base::{
    Answer, COLOUR_NOT_PERMITTED, Choices, ENTRY_LOCKED, Edit, MAX_ENTRIES, MadeEdit, NO_SPACE,
    NO_SUCH_ENTRY, PALETTE_FULL, Rgb, rgb_at,
};
use edit_entries::{is_listed, no_lab};
use sheet::{check, check_marked, permitted_no};

// The number of the first of 1 of the permitted colours and 1 to 3 of the sheet that applies, or 0.
fn opened_no(
    w: usize,
    h: usize,
    k: usize,
    palette: &[u8],
    lab: &[f64],
    indices: &[i16],
    limited: bool,
    permitted: &[u8],
) -> u8
    ensures { let sheet = sheet_of w h k palette.now lab.now indices.now in
        PaletteJudged [] (WellFormed sheet) sheet (permitted_of limited permitted.now) result }
{
    let no = permitted_no(limited, permitted);
    if no != 0 {
        return no;
    }
    check(w, h, k, palette, lab, indices)
}

// The same with the lock marks, whose number 1 is among them.
fn marked_no(
    w: usize,
    h: usize,
    k: usize,
    palette: &[u8],
    lab: &[f64],
    indices: &[i16],
    locks: &[bool],
    limited: bool,
    permitted: &[u8],
) -> u8
    ensures { let sheet = sheet_of w h k palette.now lab.now indices.now in
        PaletteJudged (mark_checks locks.now) (Marked sheet locks.now) sheet (permitted_of limited permitted.now) result }
{
    let no = permitted_no(limited, permitted);
    if no != 0 {
        return no;
    }
    check_marked(w, h, k, palette, lab, indices, locks)
}

// Whether an entry may take this colour: 10 where it is not on a present list.
pub fn check_color(limited: bool, permitted: &[u8], rgb: Rgb) -> Answer
    ensures { answer_told result ≡ check_color_of (permitted_of limited permitted.now) rgb }
{
    let no = permitted_no(limited, permitted);
    if no != 0 {
        return Answer::Refused(no);
    }
    if edit_entries::check_color(limited, permitted, rgb) {
        return Answer::Refused(COLOUR_NOT_PERMITTED);
    }
    Answer::Done
}

// 1 where colour i of a list is among the entries, else 0.
fn used_mark(entries: &[u8], colours: &[u8], i: usize) -> u8
    requires { 3 * i + 3 ≤ length colours.now }
    ensures { result ≡ mark (listed entries.now (rgb_at colours.now i)) }
{
    u8::from(is_listed(entries, rgb_at(colours, i)))
}

// Marks each of n colours that is among the entries. What the buffer has past them keeps.
fn mark_used(entries: &[u8], colours: &[u8], n: usize, used: &mut [u8])
    requires { (3 * n ≤ length colours.now) × (n ≤ length used.old) }
    ensures { used.new ≡ over (used_of entries.now colours.now n) used.old }
{
    for i in 0..n {
        used[i] = used_mark(entries, colours, i);
    }
}

// The permitted colours as choices: `used` gets a mark for each, 1 where one of the k entries has it, else
// 0. Where every colour is free nothing is written. 16 where the buffer is shorter than the colours.
pub fn fixed_choices(
    w: usize,
    h: usize,
    k: usize,
    palette: &[u8],
    lab: &[f64],
    indices: &[i16],
    limited: bool,
    permitted: &[u8],
    used: &mut [u8],
) -> Choices
    ensures { let sheet = sheet_of w h k palette.now lab.now indices.now in
        chosen result used.new
        ≡ fixed_choices_of sheet (permitted_of limited permitted.now) used.old }
{
    let no = opened_no(w, h, k, palette, lab, indices, limited, permitted);
    if no != 0 {
        return Choices::Refused(no);
    }
    if !limited {
        return Choices::Free;
    }
    let n = permitted.len() / 3;
    if used.len() < n {
        return Choices::Refused(NO_SPACE);
    }
    let end = 3 * k;
    mark_used(&palette[..end], permitted, n, used);
    Choices::Count(n)
}

// The edit that recolours entry `index`. A locked entry keeps its colour: 24.
pub fn set_color(
    w: usize,
    h: usize,
    k: usize,
    palette: &[u8],
    lab: &[f64],
    indices: &[i16],
    locks: &[bool],
    limited: bool,
    permitted: &[u8],
    index: usize,
    rgb: Rgb,
) -> MadeEdit
    ensures { let sheet = sheet_of w h k palette.now lab.now indices.now in
        made_edit_told result
        ≡ set_color_of sheet locks.now (permitted_of limited permitted.now) index rgb }
{
    let no = marked_no(w, h, k, palette, lab, indices, locks, limited, permitted);
    if no != 0 {
        return MadeEdit::Refused(no);
    }
    if k <= index {
        return MadeEdit::Refused(NO_SUCH_ENTRY);
    }
    if locks[index] {
        return MadeEdit::Refused(ENTRY_LOCKED);
    }
    if edit_entries::check_color(limited, permitted, rgb) {
        return MadeEdit::Refused(COLOUR_NOT_PERMITTED);
    }
    let old = rgb_at(palette, index);
    let old_lab = no_lab();
    MadeEdit::Edit(Edit::PaletteSet {
        index,
        old,
        new: rgb,
        old_lab,
    })
}

// The edit that appends an entry, at index k.
pub fn add_color(
    w: usize,
    h: usize,
    k: usize,
    palette: &[u8],
    lab: &[f64],
    indices: &[i16],
    limited: bool,
    permitted: &[u8],
    rgb: Rgb,
) -> MadeEdit
    ensures { let sheet = sheet_of w h k palette.now lab.now indices.now in
        made_edit_told result ≡ add_color_of sheet (permitted_of limited permitted.now) rgb }
{
    let no = opened_no(w, h, k, palette, lab, indices, limited, permitted);
    if no != 0 {
        return MadeEdit::Refused(no);
    }
    if MAX_ENTRIES <= k {
        return MadeEdit::Refused(PALETTE_FULL);
    }
    if edit_entries::check_color(limited, permitted, rgb) {
        return MadeEdit::Refused(COLOUR_NOT_PERMITTED);
    }
    MadeEdit::Edit(Edit::PaletteAdd { rgb })
}
