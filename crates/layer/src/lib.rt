// Layers in one symbol: document 02, E1.
//
// Up to 8 sheets of one size are lent as one buffer a kind, with the layers one after the other, the first at the bottom:
// three sizes a layer (w, h, k), 765 palette bytes, 765 doubles of LAB, w × h indices. A layer's part of each buffer is
// lent to push, undo and redo as it is.
#![tactic(auto)]

mod flat;
mod painted;

pub use flat::flatten;
pub use painted::repaint;
