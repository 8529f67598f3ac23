// What open, patch and blend draw by: a stroke for each channel, painted over a rectangle of a store by the walk of crate `walk`.
// Promise: every place of the rectangle, in each plane that the drawing touches, becomes what the drawing makes of the samples that stood in its
// column and row before the walk, all channels read before any is written; every other place stays.
// What a drawing makes is specs/Layers.antt, rectangles are specs/Rectangles.antt of crate `walk`.
#![tactic(auto)]

ghost use Rattle.std.specs.Prelude.{◌≡◌, not, ◌&&◌};
ghost use Rattle.store.specs.Held.{Changed};
ghost use Rattle.drawing.specs.Layers.{touches, drawn_at};
ghost use Rattle.walk.specs.Rectangles.{in_area};

use picture::Picture;
use store::Store;
use walk::Area;

pub mod layers;
mod making;
mod places;
mod rooms;
mod runs;
pub mod strokes;

pub use layers::Layer;
use rooms::Room;
pub use strokes::{Drawing, Stroke};

// Draws a rectangle, as far as the store has it.
pub fn area<S: Store, P: Picture>(drawing: &Drawing, store: &mut S, picture: &P, area: Area)
    ensures { Changed (S.Store.held store.old) (S.Store.held store.new) (λ p c r. touches drawing.entry.now p && in_area area c r) (drawn_at drawing.entry.now (P.Picture.meaning picture.now) (S.Store.held store.old)) }
{
    if drawing.has_strokes() {
        walk::area(drawing, &mut Room::new(), store, picture, area);
    }
}

// Draws the rectangle with these sides from the first column and row on, but for a part of it: the rows above, what lies left and right, and the rows below.
// Two sides say all of it, so that it is no `Area`.
pub fn around<S: Store, P: Picture>(
    drawing: &Drawing,
    store: &mut S,
    picture: &P,
    width: usize,
    height: usize,
    part: Area,
)
    ensures { Changed (S.Store.held store.old) (S.Store.held store.new) (λ p c r. touches drawing.entry.now p && (in_area (record { left = 0; right = width; top = 0; bottom = height }) c r && not (in_area part c r))) (drawn_at drawing.entry.now (P.Picture.meaning picture.now) (S.Store.held store.old)) }
{
    let end = part.left.min(part.right).min(width);
    let upper = part.top.min(part.bottom).min(height);
    let lower = part.bottom.min(height);
    area(drawing, store, picture, Area::new(0, width, 0, upper));
    area(drawing, store, picture, Area::new(0, end, upper, lower));
    area(
        drawing,
        store,
        picture,
        Area::new(part.right, width, upper, lower),
    );
    area(drawing, store, picture, Area::new(0, width, lower, height));
}
