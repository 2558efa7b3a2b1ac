// What the drawing tools paint into a picture laid out in scratch: stamps along lines, and the rectangle.
#![tactic(auto)]

mod brush;
mod frame;

pub use brush::{paint_path, paint_two};
pub use frame::paint_rectangle;
