// The calls of `palette`. An edit that is made comes back as `tell_edit` writes it.
use crate::colours::tell_found;
use base::{Choices, MadeEdit, Removal, Removed};
use c_flat::{NONE, rgb_of, tell_edit};

#[unsafe(no_mangle)]
pub extern "C" fn call_check_color(limited: bool, permitted: &[u8], rgb: &[u8; 3]) -> u8 {
    palette::check_color(limited, permitted, rgb_of(rgb)).number()
}

#[unsafe(no_mangle)]
pub extern "C" fn call_fixed_choices(
    w: usize,
    h: usize,
    k: usize,
    palette: &[u8],
    lab: &[f64],
    indices: &[i16],
    limited: bool,
    permitted: &[u8],
    used: &mut [u8],
    r: &mut [usize; 5],
) -> u8 {
    match palette::fixed_choices(w, h, k, palette, lab, indices, limited, permitted, used) {
        Choices::Free => NONE,
        Choices::Count(n) => {
            r[0] = n;
            0
        }
        Choices::Refused(n) => n,
    }
}

fn tell_made(m: MadeEdit, bytes: &mut [u8; 8], doubles: &mut [f64; 3], r: &mut [usize; 5]) -> u8 {
    match m {
        MadeEdit::Edit(e) => {
            tell_edit(e, bytes, doubles, r);
            0
        }
        MadeEdit::Refused(n) => n,
    }
}

#[unsafe(no_mangle)]
pub extern "C" fn call_set_color(
    w: usize,
    h: usize,
    k: usize,
    palette: &[u8],
    lab: &[f64],
    indices: &[i16],
    locks: &[bool],
    limited: bool,
    permitted: &[u8],
    index: usize,
    rgb: &[u8; 3],
    bytes: &mut [u8; 8],
    doubles: &mut [f64; 3],
    r: &mut [usize; 5],
) -> u8 {
    tell_made(
        palette::set_color(
            w,
            h,
            k,
            palette,
            lab,
            indices,
            locks,
            limited,
            permitted,
            index,
            rgb_of(rgb),
        ),
        bytes,
        doubles,
        r,
    )
}

#[unsafe(no_mangle)]
pub extern "C" fn call_add_color(
    w: usize,
    h: usize,
    k: usize,
    palette: &[u8],
    lab: &[f64],
    indices: &[i16],
    limited: bool,
    permitted: &[u8],
    rgb: &[u8; 3],
    bytes: &mut [u8; 8],
    doubles: &mut [f64; 3],
    r: &mut [usize; 5],
) -> u8 {
    tell_made(
        palette::add_color(
            w,
            h,
            k,
            palette,
            lab,
            indices,
            limited,
            permitted,
            rgb_of(rgb),
        ),
        bytes,
        doubles,
        r,
    )
}

#[unsafe(no_mangle)]
pub extern "C" fn call_nearest_other(
    w: usize,
    h: usize,
    k: usize,
    palette: &[u8],
    lab: &[f64],
    indices: &[i16],
    index: usize,
    r: &mut [usize; 5],
    away: &mut [f64; 1],
) -> u8 {
    tell_found(
        palette::nearest_other(w, h, k, palette, lab, indices, index),
        r,
        away,
    )
}

// r[1] is the count of the remap, r[2] the entry that the pixels move to, away[0] its squared distance.
fn tell_removed(
    m: Removed,
    bytes: &mut [u8; 8],
    doubles: &mut [f64; 3],
    r: &mut [usize; 5],
    away: &mut [f64; 1],
) -> u8 {
    match m {
        Removed::Made {
            edit,
            count,
            into,
            distance,
        } => {
            tell_edit(edit, bytes, doubles, r);
            r[1] = count;
            r[2] = into;
            away[0] = distance;
            0
        }
        Removed::Refused(n) => n,
    }
}

// r[1] is the count of the remap.
fn tell_removal(m: Removal, bytes: &mut [u8; 8], doubles: &mut [f64; 3], r: &mut [usize; 5]) -> u8 {
    match m {
        Removal::Made { edit, count } => {
            tell_edit(edit, bytes, doubles, r);
            r[1] = count;
            0
        }
        Removal::Refused(n) => n,
    }
}

#[unsafe(no_mangle)]
pub extern "C" fn call_remove_entry(
    w: usize,
    h: usize,
    k: usize,
    palette: &[u8],
    lab: &[f64],
    indices: &[i16],
    locks: &[bool],
    index: usize,
    list: &mut [u64],
    bytes: &mut [u8; 8],
    doubles: &mut [f64; 3],
    r: &mut [usize; 5],
    away: &mut [f64; 1],
) -> u8 {
    tell_removed(
        palette::remove_entry(w, h, k, palette, lab, indices, locks, index, list),
        bytes,
        doubles,
        r,
        away,
    )
}

#[unsafe(no_mangle)]
pub extern "C" fn call_merge_entries(
    w: usize,
    h: usize,
    k: usize,
    palette: &[u8],
    lab: &[f64],
    indices: &[i16],
    locks: &[bool],
    from: usize,
    into: usize,
    list: &mut [u64],
    bytes: &mut [u8; 8],
    doubles: &mut [f64; 3],
    r: &mut [usize; 5],
) -> u8 {
    tell_removal(
        palette::merge_entries(w, h, k, palette, lab, indices, locks, from, into, list),
        bytes,
        doubles,
        r,
    )
}
