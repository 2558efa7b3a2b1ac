// The rectangular selection, in pixel coordinates: selection.rs. A selection is four 16-bit numbers that
// may lie anywhere; a call that is given an image's size asks that it lies inside.
//
// Each axis is worked out by itself, as a span of places (crate selection_spans), and two spans make a rectangle.
#![tactic(auto)]

ghost use Rattle.std.specs.Prelude.{◌≡◌, cond, ◌||◌, ◌<◌, eqb};
ghost use Rattle.selection.specs.Selection.{inside, rectangle, contains};
ghost use Rattle.selection.specs.Calls.{chosen_told, chosen_number, held_told, held_number, shifted_number, too_large};
ghost use Rattle.selection.specs.Calls.{far_away, all_of, from_corners_of, contains_iof, translated_of, grown_of, positions_of, region_of};
ghost use Rattle.std.proofs.Math.Option.{none, some};
ghost use Rattle.base.specs.Answer.{filled};
ghost use Rattle.base.specs.Answer.Told.{result as told};
ghost use Rattle.selection.specs.Asked.{Narrow};

use base::{
    BAD_SHEET, Counted, MAX_DISTANCE, MAX_SIDE, NO_SPACE, OFF_THE_SHEET, TOO_FAR, from_zero, is_far,
};
use selection_spans::{Span, between, in_span, shifted, widened, write_rows};

// The same limit of a margin, which has no sign.
const MAX_MARGIN: usize = MAX_DISTANCE as usize;

// The rectangle x .. x + w by y .. y + h.
#[derive(Clone, Copy)]
pub struct Selection {
    pub x: u16,
    pub y: u16,
    pub w: u16,
    pub h: u16,
}

// What a tool is given: "none means all".
#[derive(Clone, Copy)]
pub enum Area {
    Whole,
    Part(Selection),
}

// What a call that makes a selection answers.
#[derive(Clone, Copy)]
pub enum Chosen {
    Part(Selection),
    Nothing,
    Refused(u8),
}

// Whether a pointer position is in a selection.
#[derive(Clone, Copy)]
pub enum Held {
    Inside,
    Outside,
    Refused(u8),
}

impl Chosen {
    // The number as document 01 has it: a refusal's own, else 0.
    pub fn number(self) -> u8
        ensures { result ≡ chosen_number self }
    {
        match self {
            Chosen::Part(_) => 0,
            Chosen::Nothing => 0,
            Chosen::Refused(n) => n,
        }
    }
}

impl Held {
    pub fn number(self) -> u8
        ensures { result ≡ held_number self }
    {
        match self {
            Held::Inside => 0,
            Held::Outside => 0,
            Held::Refused(n) => n,
        }
    }
}

impl Selection {
    // The whole image. A side over the limit is 1, here and in each call that is given an image's size.
    pub fn all(width: usize, height: usize) -> Chosen
        ensures { chosen_told result ≡ all_of width height }
    {
        if too_large(width, height) {
            return Chosen::Refused(BAD_SHEET);
        }
        Chosen::Part(Selection {
            x: 0,
            y: 0,
            w: width as u16,
            h: height as u16,
        })
    }

    // The rectangle between two positions (both included, in any order), clipped to the image; nothing
    // where none of it is inside. A coordinate past the limit is 15.
    pub fn from_corners(ax: i32, ay: i32, bx: i32, by: i32, width: usize, height: usize) -> Chosen
        ensures { chosen_told result ≡ from_corners_of ax ay bx by width height }
    {
        if too_large(width, height) {
            return Chosen::Refused(BAD_SHEET);
        }
        if far_away(ax, ay) {
            return Chosen::Refused(TOO_FAR);
        }
        if far_away(bx, by) {
            return Chosen::Refused(TOO_FAR);
        }
        clip(between(ax, bx, width), between(ay, by, height))
    }

    // Whether (x, y) is inside. This call refuses nothing.
    pub fn contains(self, x: usize, y: usize) -> bool
        ensures { result ≡ contains self x y }
    {
        in_span(self.x, self.w, x) && in_span(self.y, self.h, y)
    }

    // Whether a pointer position (possibly negative) is inside. A coordinate past the limit is 15.
    pub fn contains_i(self, x: i32, y: i32) -> Held
        ensures { held_told result ≡ contains_iof self x y }
    {
        if far_away(x, y) {
            return Held::Refused(TOO_FAR);
        }
        if x < 0 {
            return Held::Outside;
        }
        if y < 0 {
            return Held::Outside;
        }
        if self.contains(from_zero(x), from_zero(y)) {
            return Held::Inside;
        }
        Held::Outside
    }

    // The rectangle moved by (dx, dy) and clipped to the image; nothing where it leaves the image. One of
    // no width or no height comes back two places wide or high, as from the Rust. A shift past the
    // limit is 15, a selection that is not inside 5.
    pub fn translated(self, dx: i32, dy: i32, width: usize, height: usize) -> Chosen
        ensures { chosen_told result ≡ translated_of self dx dy width height }
    {
        if too_large(width, height) {
            return Chosen::Refused(BAD_SHEET);
        }
        if far_away(dx, dy) {
            return Chosen::Refused(TOO_FAR);
        }
        if !self.inside(width, height) {
            return Chosen::Refused(OFF_THE_SHEET);
        }
        clip(
            shifted(self.x, self.w, dx, width),
            shifted(self.y, self.h, dy, height),
        )
    }

    // The rectangle grown by margin on every side, clipped to the image. A margin past the limit is 15, a
    // selection that is not inside 5.
    pub fn grown(self, margin: usize, width: usize, height: usize) -> Chosen
        ensures { chosen_told result ≡ grown_of self margin width height }
    {
        if too_large(width, height) {
            return Chosen::Refused(BAD_SHEET);
        }
        if MAX_MARGIN < margin {
            return Chosen::Refused(TOO_FAR);
        }
        if !self.inside(width, height) {
            return Chosen::Refused(OFF_THE_SHEET);
        }
        Chosen::Part(rectangle(
            widened(self.x, self.w, margin, width),
            widened(self.y, self.h, margin, height),
        ))
    }

    // Every position inside, row by row, as x then y. What lies past them keeps its bits, and so does all
    // of out where it has no room for them: 16.
    pub fn positions(self, out: &mut [i32]) -> Counted
        ensures { filled result out.new ≡ positions_of self out.old }
    {
        let count = self.w as usize * self.h as usize;
        if out.len() / 2 < count {
            return Counted::Refused(NO_SPACE);
        }
        write_rows(self.x, self.y, self.w, self.h, out);
        Counted::Count(count)
    }

    // Number 5 asks this: the image has all of the selection. One of no width or height may lie on the edge.
    fn inside(self, width: usize, height: usize) -> bool
        ensures { result ≡ inside self width height }
    {
        let right = self.x as usize + self.w as usize;
        let bottom = self.y as usize + self.h as usize;
        right <= width && bottom <= height
    }
}

// The region a tool works in: the selection, or the whole image. A selection that is not inside is 5.
pub fn region(selection: Area, width: usize, height: usize) -> Chosen
    ensures { chosen_told result ≡ region_of selection width height }
{
    match selection {
        Area::Whole => Selection::all(width, height),
        Area::Part(s) => {
            if too_large(width, height) {
                return Chosen::Refused(BAD_SHEET);
            }
            if !s.inside(width, height) {
                return Chosen::Refused(OFF_THE_SHEET);
            }
            Chosen::Part(s)
        }
    }
}

// Number 1: a side over the limit.
fn too_large(width: usize, height: usize) -> bool
    ensures { result ≡ too_large width height }
{
    MAX_SIDE < width || MAX_SIDE < height
}

// Number 15 of a position or a shift.
fn far_away(x: i32, y: i32) -> bool
    ensures { result ≡ far_away x y }
{
    is_far(x) || is_far(y)
}

// The rectangle that takes these places of its two axes.
fn rectangle(x: Span, y: Span) -> Selection
    requires { Narrow x × Narrow y }
    ensures { result ≡ rectangle x y }
{
    Selection {
        x: x.start as u16,
        y: y.start as u16,
        w: x.count as u16,
        h: y.count as u16,
    }
}

// The same, or nothing where an axis has no place of it.
fn clip(x: Span, y: Span) -> Chosen
    requires { (0 < x.count → Narrow x) × (0 < y.count → Narrow y) }
    ensures { chosen_told result ≡ told (cond (eqb x.count 0 || eqb y.count 0) none (some (rectangle x y))) }
{
    if x.count == 0 {
        return Chosen::Nothing;
    }
    if y.count == 0 {
        return Chosen::Nothing;
    }
    Chosen::Part(rectangle(x, y))
}

// What a call answers that puts a rectangle of indices somewhere: how many changes it makes, and the rectangle as
// the new selection, a part or nothing.
#[derive(Clone, Copy)]
pub enum Shifted {
    Changes { count: usize, selection: Chosen },
    Refused(u8),
}

impl Shifted {
    // The number as document 01 has it: a refusal's own, else 0.
    pub fn number(self) -> u8
        ensures { result ≡ shifted_number self }
    {
        match self {
            Shifted::Changes {
                count: _,
                selection: _,
            } => 0,
            Shifted::Refused(n) => n,
        }
    }
}
