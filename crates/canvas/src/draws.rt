// How open, patch and blend draw.
ghost use Rattle.std.specs.Prelude.{◌≡◌, ◌<◌};
ghost use Rattle.views.specs.View.{image_of, frame_in, slots_in};
ghost use Rattle.views.specs.Step.{opens, patches, fills, Painted};
ghost use Rattle.canvas.specs.Fields.{setup_from, opened_from, patch_from};
ghost use Rattle.canvas.specs.Plans.{Plan, Follows, Planned};

use crate::parts::{area_under, covered_part, sheet_layer};
use crate::plans::{FRAME_SLOT, blend_stroke, keep_stroke, patch_stroke, slot_layer, strokes};
use crate::terms::{OpenFrame, Patch, Terms};
use blend::BlendMode;
use drawing::{Drawing, Layer, Stroke, area, around};
use machine::Header;
use picture::{Blank, Picture};
use region::Region;
use store::Store;

// The drawing onto the planes of a slot by which each channel gets its stroke.
fn drawing_of<F: Fn(usize) -> Option<Stroke>>(
    terms: &Terms,
    slot: u32,
    new: Layer,
    stroke: F,
) -> Drawing
    requires slot { slot < 5 }
    requires calls { F.IsAlwaysCallable stroke }
    ensures { (plan : Plan) → Follows (F.post stroke) plan → Planned (setup_from terms.now) slot plan new result }
{
    let channels = terms.channels();
    Drawing {
        first: slot * channels,
        colors: terms.colors,
        new,
        strokes: strokes(channels as usize, stroke),
    }
}

// Copies a picture over the part of the canvas on which its frame is drawn.
pub fn copy_picture<S: Store, P: Picture>(terms: &Terms, store: &mut S, header: Header, picture: &P)
    ensures { Painted (setup_from terms.now) (opens (setup_from terms.now) header (image_of (P.Picture.meaning picture.now))) (S.Store.held store.old) (S.Store.held store.new) }
{
    let region = terms.region;
    let covered = covered_part(header, picture.region());
    let spot = area_under(region, header, covered);
    let new = sheet_layer(region, header, 0, 0, 0, 0);
    let drawing = drawing_of(terms, FRAME_SLOT, new, |_channel| {
        Some(Stroke {
            old: Layer::Blank,
            mode: BlendMode::Replace,
        })
    });
    area(&drawing, store, picture, spot);
}

// Draws a patch onto the open frame.
pub fn draw_patch<S: Store, P: Picture>(
    terms: &Terms,
    store: &mut S,
    frame: &OpenFrame,
    patch: &Patch<P>,
)
    ensures { Painted (setup_from terms.now) (patches (setup_from terms.now) (frame_in (setup_from terms.now) (S.Store.held store.old) (opened_from frame.now)) (patch_from P.Picture.meaning patch.now)) (S.Store.held store.old) (S.Store.held store.new) }
{
    let region = terms.region;
    let header = frame.header;
    let &Patch {
        rectangle,
        x,
        y,
        records,
        sheet,
    } = patch;
    let covered = covered_part(header, frame.region);
    let met = covered.cut(x, y, rectangle.width, rectangle.height);
    let spot = area_under(region, header, met);
    let new = sheet_layer(region, header, x, y, rectangle.left, rectangle.top);
    let drawing = drawing_of(terms, FRAME_SLOT, new, |channel| {
        patch_stroke(terms, records, channel)
    });
    area(&drawing, store, sheet, spot);
}

// Fills the target: the frame where it is drawn, and the sources elsewhere.
pub fn blend_frame<S: Store>(terms: &Terms, store: &mut S, frame: &OpenFrame, filled: &[bool; 4])
    ensures { Painted (setup_from terms.now) (fills (setup_from terms.now) (slots_in (setup_from terms.now) filled.now (S.Store.held store.old)) (frame_in (setup_from terms.now) (S.Store.held store.old) (opened_from frame.now))) (S.Store.held store.old) (S.Store.held store.new) }
{
    let region = terms.region;
    let header = frame.header;
    let covered = covered_part(header, frame.region);
    let spot = area_under(region, header, covered);
    let none = Blank::new(0, Region::empty());
    let new = slot_layer(terms, FRAME_SLOT);
    let drawn = drawing_of(terms, header.target, new, |channel| {
        blend_stroke(terms, frame, filled, channel)
    });
    area(&drawn, store, &none, spot);
    let kept = drawing_of(terms, header.target, Layer::Blank, |channel| {
        keep_stroke(terms, frame, filled, channel)
    });
    let (width, height) = (region.width() as usize, region.height() as usize);
    around(&kept, store, &none, width, height, spot);
}
