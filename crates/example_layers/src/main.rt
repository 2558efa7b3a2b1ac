// A symbol of three layers, 6 by 4: an outline, a fill, and a badge on top. Each has a palette, a journal and a history
// of its own. The badge gets a pixel more; the fill is given another colour; then the badge's pixel is taken back and
// done again, which leaves the fill as it is. After each call the picture is repainted and printed.
//
// The layers lie one after the other in one buffer a kind, the bottom one first: 765 bytes, 765 numbers, 24 indices and
// 255 lock marks a layer. A call of a history is lent its layer's parts, `flatten` and `repaint` are lent all but the marks.
#![tactic(auto)]

mod print;

ghost use Rattle.std.specs.Prelude.{◌<◌};

use base::{Edit, Form, Handle, Lab, Moved, Rgb};
use history::{fresh, push, redo, undo};
use layer::{flatten, repaint};
use print::{draw, show};
use std::io;

// How each layer's history holds its changes, throughout: by column and row.
const FORM: Form = Form::Coordinates;

// A call of a history.
#[derive(Clone, Copy)]
enum Act {
    Push(Edit),
    Undo,
    Redo,
}

// Entry 0 in another colour: push fills in what it was.
fn recolour(new: Rgb) -> Edit {
    Edit::PaletteSet {
        index: 0,
        old: new,
        new,
        old_lab: Lab {
            l: 0.0,
            a: 0.0,
            b: 0.0,
        },
    }
}

// The call, on a layer of one entry. A push of pixels paints entry 0 at 4, 2; one of another kind looks at no list.
fn act_on(
    act: Act,
    palette: &mut [u8],
    lab: &mut [f64],
    indices: &mut [i16],
    locks: &mut [bool],
    journal: &mut [u8],
    handle: Handle,
) -> Moved {
    let list = [4 + 65536 * 2];
    let mut marks: [u8; 24] = [0; 24];
    match act {
        Act::Push(edit) => push(
            6,
            4,
            1,
            palette,
            lab,
            indices,
            locks,
            false,
            b"",
            false,
            &[],
            edit,
            &list,
            FORM,
            journal,
            handle,
            &mut marks,
        ),
        Act::Undo => undo(6, 4, 1, palette, lab, indices, locks, FORM, journal, handle),
        Act::Redo => redo(
            6,
            4,
            1,
            palette,
            lab,
            indices,
            locks,
            false,
            &[],
            FORM,
            journal,
            handle,
            &mut marks,
        ),
    }
}

// The call on layer i, which is lent that layer's parts of the buffers.
fn act_on_layer(
    i: usize,
    act: Act,
    palettes: &mut [u8; 2295],
    labs: &mut [f64; 2295],
    indices: &mut [i16; 72],
    locks: &mut [bool; 765],
    journal: &mut [u8],
    handle: Handle,
) -> Moved
    requires { i < 3 }
{
    act_on(
        act,
        &mut palettes[765 * i..765 * i + 765],
        &mut labs[765 * i..765 * i + 765],
        &mut indices[24 * i..24 * i + 24],
        &mut locks[255 * i..255 * i + 255],
        journal,
        handle,
    )
}

// A call on layer i, and the repaint after it, which is lent the layer as it was before the call. No entry is added
// or removed here, so the sizes stay.
fn change(
    rt: &impl Print,
    step: &str,
    i: usize,
    act: Act,
    palettes: &mut [u8; 2295],
    labs: &mut [f64; 2295],
    indices: &mut [i16; 72],
    locks: &mut [bool; 765],
    journal: &mut [u8],
    handle: Handle,
    out: &mut [u8; 96],
) -> io::Result<Handle>
    requires { i < 3 }
{
    let sizes = [6, 4, 1, 6, 4, 1, 6, 4, 1];
    let mut palette = [0u8; 765];
    let mut lab = [0.0f64; 765];
    let mut earlier = [0i16; 24];
    palette.copy_from_slice(&palettes[765 * i..765 * i + 765]);
    lab.copy_from_slice(&labs[765 * i..765 * i + 765]);
    earlier.copy_from_slice(&indices[24 * i..24 * i + 24]);
    let moved = act_on_layer(i, act, palettes, labs, indices, locks, journal, handle);
    repaint(
        &sizes, palettes, labs, indices, i, 6, 4, 1, &palette, &lab, &earlier, out,
    );
    show(rt, step, moved.answer.number(), out)?;
    Ok(moved.handle)
}

fn main(rt: HostRuntime) -> io::Result<()> {
    // A colour's red is the letter that it is printed as. LAB is left at 0: `new` would fill it in.
    let sizes = [6, 4, 1, 6, 4, 1, 6, 4, 1];
    let mut palettes: [u8; 2295] = [0; 2295];
    let mut labs: [f64; 2295] = [0.0; 2295];
    let mut indices: [i16; 72] = [-1; 72];
    let mut locks: [bool; 765] = [false; 765];
    let mut out: [u8; 96] = [0; 96];
    let mut fill: [u8; 50] = [0; 50];
    let mut badge: [u8; 50] = [0; 50];
    palettes[0] = b'#';
    palettes[765] = b'o';
    palettes[1530] = b'*';
    draw(
        b"#######....##....#######.......oooo..oooo...........**....**............",
        &mut indices,
    );
    let flat = flatten(&sizes, &palettes, &labs, &indices, &mut out);
    show(&rt, "flatten", flat.number(), &out)?;
    let pixel = Edit::Pixels { tool: 1 };
    let grown = change(
        &rt,
        "push on the badge",
        2,
        Act::Push(pixel),
        &mut palettes,
        &mut labs,
        &mut indices,
        &mut locks,
        &mut badge,
        fresh(),
        &mut out,
    )?;
    let color = recolour(Rgb {
        r: b'+',
        g: 0,
        b: 0,
    });
    change(
        &rt,
        "push on the fill",
        1,
        Act::Push(color),
        &mut palettes,
        &mut labs,
        &mut indices,
        &mut locks,
        &mut fill,
        fresh(),
        &mut out,
    )?;
    let undone = change(
        &rt,
        "undo on the badge",
        2,
        Act::Undo,
        &mut palettes,
        &mut labs,
        &mut indices,
        &mut locks,
        &mut badge,
        grown,
        &mut out,
    )?;
    change(
        &rt,
        "redo on the badge",
        2,
        Act::Redo,
        &mut palettes,
        &mut labs,
        &mut indices,
        &mut locks,
        &mut badge,
        undone,
        &mut out,
    )?;
    Ok(())
}
