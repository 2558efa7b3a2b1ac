// `extract` at tolerance 0. The first cell of each cell is left in the scratch; these are numbered there, in order, and
// only then the tiles and the map are written.
ghost use Rattle.std.specs.Prelude.{◌≡◌, length};
ghost use Rattle.sheet.specs.Sheet.{sheet_of};
ghost use Rattle.tile_cells.specs.Cells.{Tiled, first_cells};
ghost use Rattle.tile_extract.specs.Extracts.{left, extracted_in, extract_call};

use base::{BAD_CLIP, Extraction, NO_SPACE};
use sheet::check;
use tile_layout::{copy_tiles, number_tiles, put_map};
use tile_match::first_cells;

// The tiles and the map of a sheet that the tile side divides, from the first cell of each cell.
fn extract_in(
    w: usize,
    h: usize,
    t: usize,
    indices: &[i16],
    s: &mut [u64],
    tiles: &mut [i16],
    map: &mut [u32],
) -> Extraction
    requires { Tiled w h t indices.now × (s.old ≡ first_cells w h t indices.now) }
    ensures { left result tiles.new map.new
        ≡ extracted_in w h t indices.now tiles.old map.old }
{
    let m = number_tiles(s);
    if tiles.len() < m * t * t {
        return Extraction::Refused(NO_SPACE);
    }
    let n = s.len();
    if map.len() < n * 3 {
        return Extraction::Refused(NO_SPACE);
    }
    copy_tiles(w, h, t, indices, s, tiles);
    put_map(s, map);
    Extraction::Made {
        tiles: m,
        entries: n,
    }
}

// Cuts the sheet into tiles of side t. The unique tiles go to `tile_extract`, t × t indices each, in order of first appearance;
// for each cell, row by row, `map` gets three numbers: the tile, whether it is flipped horizontally and whether
// vertically (1 or 0).
pub fn extract(
    w: usize,
    h: usize,
    k: usize,
    palette: &[u8],
    lab: &[f64],
    indices: &[i16],
    t: usize,
    tiles: &mut [i16],
    map: &mut [u32],
    scratch: &mut [u64],
) -> Extraction
    ensures map_after { let sheet = sheet_of w h k palette.now lab.now indices.now in
        left result tiles.new map.new
        ≡ extract_call sheet t (length scratch.old) tiles.old map.old }
    ensures scratch_len_unchanged { length scratch.new ≡ length scratch.old }
{
    let no = check(w, h, k, palette, lab, indices);
    if no != 0 {
        return Extraction::Refused(no);
    }
    if t == 0 {
        return Extraction::Refused(BAD_CLIP);
    }
    if w % t != 0 {
        return Extraction::Refused(BAD_CLIP);
    }
    if h % t != 0 {
        return Extraction::Refused(BAD_CLIP);
    }
    if scratch.len() < w * h {
        return Extraction::Refused(NO_SPACE);
    }
    first_cells(w, h, t, indices, scratch);
    let n = h / t * (w / t);
    extract_in(w, h, t, indices, &mut scratch[..n], tiles, map)
}
