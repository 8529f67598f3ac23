// A walk over a rectangle of a store, for any painter of one run: row by row, in runs of a row.
// Promise: what a painter does to a run is done to the whole rectangle, each place from the samples that stood there before the walk.
// The words are specs/Rectangles.antt.
#![tactic(auto)]

ghost use Rattle.std.specs.Prelude.{◌≡◌, ℕ, ◌+◌, Bool, ◌&&◌, Float};
ghost use Rattle.picture.specs.Meaning.{Meaning};
ghost use Rattle.store.specs.Held.{Held, Changed};
ghost use Rattle.walk.specs.Rectangles.{in_line, in_area, Local};

pub mod parts;

pub use parts::{Area, RUN, Run};
use picture::Picture;
use store::Store;

// What is done to one run of a row, in the planes that it touches.
pub trait Painter<S: Store, P: Picture> {
    // Where a painter keeps the samples of a run while it paints it.
    type Room;

    ghost touches: { Self → ℕ → Bool };

    ghost value: { Self → Meaning → Held → ℕ → ℕ → ℕ → Float };

    fn paint_run(&self, room: &mut Self::Room, store: &mut S, picture: &P, run: Run)
        ensures { Changed (S.Store.held store.old) (S.Store.held store.new) (λ p c r. touches self.now p && in_line run.column (run.column + run.count) run.row c r) (value self.now (P.Picture.meaning picture.now) (S.Store.held store.old)) };

    // Paints so many columns of a row, run by run, as far as the store has them. Its numbers are those of a store's runs, and a `Run` is no longer than
    // RUN.
    fn paint(
        &self,
        room: &mut Self::Room,
        store: &mut S,
        picture: &P,
        column: usize,
        row: usize,
        count: usize,
    )
        ensures { Changed (S.Store.held store.old) (S.Store.held store.new) (λ p c r. touches self.now p && in_line column (column + count) row c r) (value self.now (P.Picture.meaning picture.now) (S.Store.held store.old)) }
    {
        let end = column.saturating_add(count).min(store.columns());
        for next in (column..end).step_by(RUN) {
            let run = Run {
                column: next,
                row,
                count: RUN.min(end - next),
            };
            self.paint_run(room, store, picture, run);
        }
    }

    // A place is made of what stands in its own column and row.
    ghost local: { (painter : Self) (m : Meaning) → Local (value painter m) };
}

// Paints one row from a column up to another: plain numbers, since an `Area` of one row would say the row twice.
pub fn line<S: Store, P: Picture, B: Painter<S, P>>(
    painter: &B,
    room: &mut B::Room,
    store: &mut S,
    picture: &P,
    left: usize,
    right: usize,
    row: usize,
)
    ensures { Changed (S.Store.held store.old) (S.Store.held store.new) (λ p c r. B.Painter.touches painter.now p && in_line left right row c r) (B.Painter.value painter.now (P.Picture.meaning picture.now) (S.Store.held store.old)) }
{
    painter.paint(room, store, picture, left, row, right.saturating_sub(left));
}

// Paints a rectangle.
pub fn area<S: Store, P: Picture, B: Painter<S, P>>(
    painter: &B,
    room: &mut B::Room,
    store: &mut S,
    picture: &P,
    area: Area,
)
    ensures { Changed (S.Store.held store.old) (S.Store.held store.new) (λ p c r. B.Painter.touches painter.now p && in_area area c r) (B.Painter.value painter.now (P.Picture.meaning picture.now) (S.Store.held store.old)) }
{
    for row in area.top..area.bottom {
        line(painter, room, store, picture, area.left, area.right, row);
    }
}
