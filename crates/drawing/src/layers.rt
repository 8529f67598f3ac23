// Layers: where the samples of a drawing come from.
ghost use Rattle.std.specs.Prelude.{◌≡◌, ℕ, ◌+◌, ◌<◌, length, pos, ◌+ℤ◌, ◌<ℤ◌, MatchOption, slice_index_or};
ghost use Rattle.std.specs.Float.{nan};
ghost use Rattle.picture.specs.Meaning.{value_at};
ghost use Rattle.region.specs.Bounds.{greatest_coordinate};
ghost use Rattle.drawing.specs.Layers.{layer_at};

use crate::places::{Place, Source};
use picture::Picture;
use store::Store;

// 0.0 throughout; planes of the store, one for each channel; or the picture, whose position (x, y) lies in the first column and row.
#[derive(Clone, Copy)]
pub enum Layer {
    Blank,
    Planes { first: u32, count: u32 },
    Placed { x: i64, y: i64 },
}

// The coordinate so many steps on, as an i64, whereas `steps::onward` goes to an i32; none past the greatest i64, where no picture reaches.
fn steps_on(from: i64, by: usize) -> Option<i64>
    ensures { MatchOption result (greatest_coordinate <ℤ (from +ℤ pos by)) (λ at. at ≡ from +ℤ pos by) }
{
    from.checked_add_unsigned(by as u64)
}

// The picture's samples of a run, where its position (x, y) lies in the first column and row.
fn fill_from<P: Picture>(picture: &P, place: Place, x: i64, y: i64, into: &mut [f32])
    ensures { (k : ℕ) → k < length into.old → slice_index_or into.new k nan ≡ value_at (P.Picture.meaning picture.now) place.channel (x +ℤ pos (place.column + k)) (y +ℤ pos place.row) }
{
    let Some(x) = steps_on(x, place.column) else {
        into.fill(0.0);
        return;
    };
    let Some(y) = steps_on(y, place.row) else {
        into.fill(0.0);
        return;
    };
    picture.fill_far(place.channel, x, y, into);
}

impl Layer {
    // The samples of a run.
    pub(crate) fn read<S: Store, P: Picture>(
        self,
        source: &Source<S, P>,
        place: Place,
        into: &mut [f32],
    )
        ensures { (k : ℕ) → k < length into.old → slice_index_or into.new k nan ≡ layer_at self (P.Picture.meaning source.now.picture.now) (S.Store.held source.now.store.now) place.channel (place.column + k) place.row }
    {
        match self {
            Layer::Planes { first, count } if place.channel < count as usize => {
                let plane = first as usize + place.channel;
                source.store.load(plane, place.column, place.row, into)
            }
            Layer::Planes { .. } => into.fill(0.0),
            Layer::Blank => into.fill(0.0),
            Layer::Placed { x, y } => fill_from(source.picture, place, x, y, into),
        }
    }
}
