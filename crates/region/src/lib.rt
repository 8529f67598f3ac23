// Rectangles of positions on the plane, and the limits of those that a stage works on.
// Promise: each method answers by positions as its definition says, and refuses exactly the numbers that make no region.
// The definitions are specs/Bounds.antt and specs/Positions.antt, and in prose docs/REGIONS.md.
#![tactic(auto)]

ghost use Rattle.std.specs.Prelude.{◌≡◌, true};
ghost use Rattle.region.specs.Bounds.{is_region};

pub mod axes;
pub mod limits;
mod methods;
mod parts;
mod span;

// Position (x, y) is inside if left <= x < left + width and top <= y < top + height. The ends fit i32, and only (0,0,0,0) is empty.
// Four numbers and not two axes, since the definitions of the crates above say what they mean by these four.
#[derive(Clone, Copy, PartialEq, Eq, Debug)]
pub struct Region {
    left: i32,
    top: i32,
    width: u32,
    height: u32,
    ghost ok: { is_region left top width height ≡ true },
}
