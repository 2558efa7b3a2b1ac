// Number 10: whether a colour is permitted; an entry's colour, and the LAB of one that is not pushed yet.
ghost use Rattle.std.specs.Prelude.{◌≡◌, ◌+◌, ◌*◌, ◌≤◌, length};
ghost use Rattle.base.specs.Triples.{rgb_at};
ghost use Rattle.edit.specs.Checks.{same_rgb, listed, permitted_of, barred};
ghost use Rattle.edit_entries.specs.Unfilled.{no_lab};

use base::{Lab, Rgb, both, either};

// Whether entry i is this colour.
#[tactic(auto, unfolding(edit::specs::Checks::same_rgb, base::specs::Triples::rgb_at))]
pub fn has_rgb(colours: &[u8], i: usize, c: Rgb) -> bool
    requires { 3 * i + 3 ≤ length colours.now }
    ensures { result ≡ same_rgb (rgb_at colours.now i) c }
{
    let at = 3 * i;
    both(
        colours[at] == c.r,
        both(colours[at + 1] == c.g, colours[at + 2] == c.b),
    )
}

// Whether a colour is among those of a list, three bytes each.
pub fn is_listed(colours: &[u8], c: Rgb) -> bool
    ensures { result ≡ listed colours.now c }
{
    let mut found = false;
    for i in 0..colours.len() / 3 {
        found = either(found, has_rgb(colours, i, c));
    }
    found
}

// Number 10 of a colour: there is a list of permitted colours, and it is not on it.
#[tactic(auto, unfolding(edit::specs::Checks::barred))]
pub fn check_color(limited: bool, permitted: &[u8], c: Rgb) -> bool
    ensures { result ≡ barred (permitted_of limited permitted.now) c }
{
    if !limited {
        return false;
    }
    !is_listed(permitted, c)
}

// The LAB of an edit that is not pushed yet: three zeros.
pub fn no_lab() -> Lab
    ensures { result ≡ no_lab }
{
    Lab {
        l: 0.0,
        a: 0.0,
        b: 0.0,
    }
}
