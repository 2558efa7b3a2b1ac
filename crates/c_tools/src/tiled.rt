// The calls of `tile_extract` and `tile_mirror`.
use base::Extraction;
use c_flat::{area_of, tell_count};

#[unsafe(no_mangle)]
pub extern "C" fn call_flip(
    tile: &[i16],
    t: usize,
    flip_h: bool,
    flip_v: bool,
    out: &mut [i16],
    r: &mut [usize; 5],
) -> u8 {
    tell_count(tile_extract::flip(tile, t, flip_h, flip_v, out), r)
}

// r: how many tiles, and how many entries of the map.
#[unsafe(no_mangle)]
pub extern "C" fn call_extract(
    w: usize,
    h: usize,
    k: usize,
    palette: &[u8],
    lab: &[f64],
    indices: &[i16],
    t: usize,
    out: &mut [i16],
    map: &mut [u32],
    scratch: &mut [u64],
    r: &mut [usize; 5],
) -> u8 {
    match tile_extract::extract(w, h, k, palette, lab, indices, t, out, map, scratch) {
        Extraction::Made { tiles, entries } => {
            r[0] = tiles;
            r[1] = entries;
            0
        }
        Extraction::Refused(no) => no,
    }
}

#[unsafe(no_mangle)]
pub extern "C" fn call_mirror_tiles(
    w: usize,
    h: usize,
    k: usize,
    palette: &[u8],
    lab: &[f64],
    indices: &[i16],
    whole: bool,
    s: &[u16; 4],
    on: bool,
    t: usize,
    list: &[u64],
    scratch: &mut [u64],
    out: &mut [u64],
    r: &mut [usize; 5],
) -> u8 {
    tell_count(
        tile_mirror::mirror_tiles(
            w,
            h,
            k,
            palette,
            lab,
            indices,
            area_of(whole, s),
            on,
            t,
            list,
            scratch,
            out,
        ),
        r,
    )
}
