// One run of a row: all channels are read before any is written.
ghost use Rattle.std.specs.Prelude.{◌≡◌, ℕ, ◌+◌, ◌-◌, ◌≤◌, ◌&&◌};
ghost use Rattle.store.specs.Held.{Changed};
ghost use Rattle.drawing.specs.Layers.{touches, drawn_at};
ghost use Rattle.walk.specs.Rectangles.{in_line};
ghost use Rattle.drawing.specs.Runs.{MadeBelow, room_at, touches_below};
ghost use Rattle.drawing.specs.Local.{drawn_local};

use crate::making::make;
use crate::places::{Place, Source};
use crate::rooms::Room;
use crate::strokes::Drawing;
use picture::Picture;
use store::Store;
use walk::{Painter, RUN, Run};

// Makes the run of each channel that has a stroke.
fn gather<S: Store, P: Picture>(
    drawing: &Drawing,
    store: &S,
    picture: &P,
    run: Run,
    room: &mut Room,
)
    ensures { MadeBelow 11 drawing.entry.now (P.Picture.meaning picture.now) (S.Store.held store.now) run.column run.row run.count room.new.made }
{
    let source = Source { store, picture };
    let Room { made, operands } = room;
    for (channel, stroke) in drawing.strokes.iter().enumerate() {
        if let Some(stroke) = *stroke {
            let place = Place {
                channel,
                column: run.column,
                row: run.row,
            };
            make(
                drawing,
                stroke,
                &source,
                place,
                &mut made[channel][0..run.count],
                operands,
            );
        }
    }
}

// Saves the runs, each to its channel's plane.
fn scatter<S: Store>(drawing: &Drawing, store: &mut S, run: Run, made: &[[f32; RUN]; 11])
    requires { run.column + run.count ≤ (S.Store.held store.old).columns }
    ensures { Changed (S.Store.held store.old) (S.Store.held store.new) (λ p c r. touches_below 11 drawing.entry.now p && in_line run.column (run.column + run.count) run.row c r) (λ p c r. room_at made.now (p - drawing.entry.now.first) (c - run.column)) }
{
    let first = drawing.first as usize;
    for (channel, stroke) in drawing.strokes.iter().enumerate() {
        if stroke.is_some() {
            store.save(
                first + channel,
                run.column,
                run.row,
                &made[channel][0..run.count],
            );
        }
    }
}

impl<S: Store, P: Picture> Painter<S, P> for Drawing {
    type Room = Room;

    ghost touches = { touches };

    ghost value = { drawn_at };

    ghost local = { drawn_local };

    // Draws the part of a run that the store has.
    fn paint_run(&self, room: &mut Room, store: &mut S, picture: &P, run: Run) {
        let Some(rest) = store.columns().checked_sub(run.column) else {
            return;
        };
        let run = Run {
            column: run.column,
            row: run.row,
            count: run.count.min(rest),
        };
        gather(self, store, picture, run, room);
        scatter(self, store, run, &room.made);
    }
}
