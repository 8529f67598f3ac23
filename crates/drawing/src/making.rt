// What a run of one channel becomes.
ghost use Rattle.std.specs.Prelude.{◌≡◌, ℕ, ◌+◌, ◌<◌, ◌≤◌, length, slice_index_or};
ghost use Rattle.std.specs.Float.{nan};
ghost use Rattle.drawing.specs.Layers.{stroke_at};

use crate::places::{Place, Source};
use crate::rooms::Operands;
use crate::strokes::{Drawing, Stroke};
use blend::{BlendMode, blend_single};
use picture::Picture;
use store::Store;

// Draws the new samples onto the old ones in `into`.
fn draw_over<S: Store, P: Picture>(
    drawing: &Drawing,
    stroke: Stroke,
    source: &Source<S, P>,
    place: Place,
    into: &mut [f32],
    operands: &mut Operands,
)
    requires { length into.old ≤ 128 }
    ensures { (k : ℕ) → k < length into.old → slice_index_or into.new k nan ≡ stroke_at stroke drawing.entry.now.new drawing.entry.now.colors (P.Picture.meaning source.now.picture.now) (S.Store.held source.now.store.now) place.channel (place.column + k) place.row }
{
    let count = into.len();
    let fresh = &mut operands.fresh[0..count];
    stroke.old.read(source, place, into);
    drawing.new.read(source, place, fresh);
    match stroke.mode.alpha_channel() {
        Some(alpha) => {
            let alpha = Place {
                channel: drawing.colors as usize + alpha as usize,
                ..place
            };
            let old_alpha = &mut operands.old_alpha[0..count];
            let new_alpha = &mut operands.new_alpha[0..count];
            stroke.old.read(source, alpha, old_alpha);
            drawing.new.read(source, alpha, new_alpha);
            blend_single(stroke.mode, into, fresh, old_alpha, new_alpha);
        }
        None => blend_single(stroke.mode, into, fresh, fresh, fresh),
    }
}

// What a run of a channel becomes; Replace and Skip read one layer only.
pub(crate) fn make<S: Store, P: Picture>(
    drawing: &Drawing,
    stroke: Stroke,
    source: &Source<S, P>,
    place: Place,
    into: &mut [f32],
    operands: &mut Operands,
)
    requires { length into.old ≤ 128 }
    ensures { (k : ℕ) → k < length into.old → slice_index_or into.new k nan ≡ stroke_at stroke drawing.entry.now.new drawing.entry.now.colors (P.Picture.meaning source.now.picture.now) (S.Store.held source.now.store.now) place.channel (place.column + k) place.row }
{
    match stroke.mode {
        BlendMode::Replace => drawing.new.read(source, place, into),
        BlendMode::Skip => stroke.old.read(source, place, into),
        _ => draw_over(drawing, stroke, source, place, into, operands),
    }
}
