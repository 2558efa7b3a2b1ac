// Layers laid one over the other into a buffer of RGBA bytes, the first at the bottom.
//
// Which entry of which layer is seen at a place is found first, as its slot in one table of all layers' words, 1,024 places
// at a time: a pass over a layer's indices has no branch and is compiled to vector code. Then a place costs one word.
#![tactic(auto)]

ghost use Rattle.std.specs.Prelude.{◌≡◌, false, ℕ, ◌+◌, ◌*◌, ◌/◌, ◌<◌, ◌≤◌, length, get_or};
ghost use mathlib.Core.List.{flat_map};
ghost use Rattle.base.specs.Lists.{some, range, over};
ghost use Rattle.sheet.specs.Sheet.{stray};
ghost use Rattle.layer_shown.specs.Stack.{pixel_up_to, Stacked};
ghost use Rattle.layer_slot.specs.Slots.{slot_over, SlotsOver, Slotted, Table, word_at, place_word};

use base::rgb_at;
use journal_bytes::put_u32;
use layer_word::{CLEAR, word};

// Places whose slots are found at once.
const BLOCK: usize = 1024;

// Fills a table with the words of none and of all layers' entries.
fn fill_table(palettes: &[u8], table: &mut [u32; 2041])
    requires { (length palettes.now ≤ 6120) × (length table.old ≡ 2041) }
    ensures { Table (length palettes.now / 3) palettes.now table.new }
{
    let n = palettes.len() / 3;
    table[0] = CLEAR;
    for i in 0..n {
        table[i + 1] = word(rgb_at(palettes, i));
    }
}

// The slot of an index over the one below.
#[tactic(auto, unfolding(crate::specs::Slots::slot_over, sheet::specs::Sheet::stray))]
fn slot(z: i16, low: u16, below: u16) -> u16
    requires { (stray 255 z ≡ false) × (low ≤ 1786) }
    ensures { result ≡ slot_over z low below }
{
    if z < 0 { below } else { z as u16 + low }
}

// Lays a layer's places over the slots.
fn slot_layer(low: u16, indices: &[i16], slots: &mut [u16; 1024])
    requires { (some (stray 255) indices.now ≡ false) × (length indices.now ≤ 1024) × (low ≤ 1786)
        × (length slots.old ≡ 1024) }
    ensures { SlotsOver low indices.now slots.old slots.new }
{
    for (j, z) in indices.iter().enumerate() {
        slots[j] = slot(*z, low, slots[j]);
    }
}

// Finds the slots of m places from `at` on, of all layers, where they are 0 at first.
fn slot_places(
    n: usize,
    count: usize,
    indices: &[i16],
    at: usize,
    m: usize,
    slots: &mut [u16; 1024],
)
    requires { (n ≤ 1048576) × (count ≤ 8) × (length indices.now ≡ n * count) × (some (stray 255) indices.now ≡ false)
        × (m ≤ 1024) × (at + m ≤ n) × Slotted n indices.now 0 at m slots.old }
    ensures { Slotted n indices.now count at m slots.new }
{
    for i in 0..count {
        let a = n * i + at;
        let e = a + m;
        slot_layer((255 * i + 1) as u16, &indices[a..e], slots);
    }
}

// Writes the words of m slots. What out has past them keeps.
fn put_words(table: &[u32; 2041], slots: &[u16; 1024], m: usize, out: &mut [u8])
    requires { let slots = slots.now in
        (length table.now ≡ 2041) × (length slots ≡ 1024) × (m ≤ 1024) × (4 * m ≤ length out.old)
        × ((j : ℕ) → j < m → get_or slots j 0 < 2041) }
    ensures { out.new ≡ over (flat_map (word_at table.now slots.now) (range 0 m)) out.old }
{
    for (j, slot) in slots[..m].iter().enumerate() {
        put_u32(out, 4 * j, table[*slot as usize]);
    }
}

// Writes m pixels of all layers, from the place `at` on. What out has past them keeps.
fn lay_places(
    n: usize,
    count: usize,
    indices: &[i16],
    table: &[u32; 2041],
    at: usize,
    m: usize,
    out: &mut [u8],
)
    requires { (n ≤ 1048576) × (count ≤ 8) × (length indices.now ≡ n * count) × (some (stray 255) indices.now ≡ false)
        × (m ≤ 1024) × (at + m ≤ n) × (length table.now ≡ 2041) × (4 * m ≤ length out.old) }
    ensures { let word = place_word n indices.now table.now count at in
        out.new ≡ over (flat_map word (range 0 m)) out.old }
{
    let mut slots: [u16; 1024] = [0; 1024];
    slot_places(n, count, indices, at, m, &mut slots);
    put_words(table, &slots, m, out);
}

// Lays all layers, n places each, the first at the bottom. What out has past the pixels keeps.
pub fn lay_all(n: usize, count: usize, palettes: &[u8], indices: &[i16], out: &mut [u8])
    requires { Stacked n count palettes.now indices.now × (0 < count) × (4 * n ≤ length out.old) }
    ensures { let pixel = pixel_up_to n palettes.now indices.now count in
        out.new ≡ over (flat_map pixel (range 0 n)) out.old }
{
    let mut table: [u32; 2041] = [0; 2041];
    fill_table(palettes, &mut table);
    for at in (0..n).step_by(BLOCK) {
        let m = BLOCK.min(n - at);
        let a = 4 * at;
        lay_places(n, count, indices, &table, at, m, &mut out[a..]);
    }
}
