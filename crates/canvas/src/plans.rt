// Plans: which stroke each channel gets from a call.
ghost use Rattle.std.specs.Prelude.{◌≡◌, ℕ, ◌<◌, ◌≤◌, map, if◌then◌else◌, None, nat_lt, slice_index_or};
ghost use Rattle.machine.specs.Checks.{record_of, patch_info};
ghost use Rattle.machine.specs.Machine.{no_patch_info};
ghost use Rattle.canvas.specs.Fields.{setup_from, opened_from};
ghost use Rattle.canvas.specs.Plans.{Plan, Follows, slot_layer, source_layer, patch_plan, info_of, blend_plan, keep_plan};

use crate::terms::{OpenFrame, Terms};
use blend::{BlendMode, BlendingInfo, FrameBlendMode, PatchBlendingInfo};
use drawing::{Layer, Stroke};
use machine::PatchRecord;
use std::array;

// The open frame lies behind the four slots.
pub(crate) const FRAME_SLOT: u32 = 4;

// What stands in for a frame's record that is missing.
pub(crate) const NO_INFO: BlendingInfo = BlendingInfo {
    mode: FrameBlendMode::Replace,
    alpha_channel: 0,
    clamp: false,
    source: 0,
};

// What stands in for a patch's record that is missing.
const NO_RECORD: PatchRecord = PatchRecord {
    mode: 0,
    alpha: 0,
    clamp: false,
};

// The strokes of so many channels.
pub(crate) fn strokes<F: Fn(usize) -> Option<Stroke>>(
    channels: usize,
    stroke: F,
) -> [Option<Stroke>; 11]
    requires few { channels ≤ 11 }
    requires calls { F.IsAlwaysCallable stroke }
    ensures { (plan : Plan) → Follows (F.post stroke) plan → (ch : ℕ) → slice_index_or result ch None ≡ (if nat_lt ch channels then plan ch else None) }
{
    array::from_fn(|channel| {
        if channel < channels {
            stroke(channel)
        } else {
            None
        }
    })
}

// The layer of a slot's planes.
pub(crate) fn slot_layer(terms: &Terms, slot: u32) -> Layer
    requires { slot < 256 }
    ensures { result ≡ slot_layer (setup_from terms.now) slot }
{
    let count = terms.channels();
    Layer::Planes {
        first: slot * count,
        count,
    }
}

// A source slot as it is read.
fn source_layer(terms: &Terms, filled: &[bool], slot: u8) -> Layer
    ensures { result ≡ source_layer (setup_from terms.now) filled.now slot }
{
    match filled.get(slot as usize) {
        Some(true) => slot_layer(terms, slot as u32),
        _ => Layer::Blank,
    }
}

// The record of a channel: the first for all colours, then one for each extra channel; `none` stands in for one that is missing.
fn record_of<X: Copy>(none: X, colors: usize, records: &[X], channel: usize) -> X
    ensures { result ≡ record_of none colors records.now channel }
{
    let Some((first, extras)) = records.split_first() else {
        return none;
    };
    match channel.checked_sub(colors) {
        Some(extra) => extras.get(extra).copied().unwrap_or(none),
        None => *first,
    }
}

fn info_of(terms: &Terms, frame: &OpenFrame, channel: usize) -> BlendingInfo
    ensures { result ≡ info_of (setup_from terms.now) (opened_from frame.now) channel }
{
    record_of(NO_INFO, terms.colors as usize, frame.infos(), channel)
}

fn patch_info_of(terms: &Terms, records: &[PatchRecord], channel: usize) -> PatchBlendingInfo
    ensures { result ≡ record_of no_patch_info terms.now.colors (map patch_info records.now) channel }
{
    PatchBlendingInfo::from(record_of(NO_RECORD, terms.colors as usize, records, channel))
}

// A patch goes by its records, from the frame as it stands.
pub(crate) fn patch_stroke(terms: &Terms, records: &[PatchRecord], channel: usize) -> Option<Stroke>
    ensures { result ≡ patch_plan (setup_from terms.now) records.now channel }
{
    let info = patch_info_of(terms, records, channel);
    let colors = terms.colors as usize;
    let mode = BlendMode::from_patch_blending_info(channel, colors, info, terms.kinds())?;
    Some(Stroke {
        old: slot_layer(terms, FRAME_SLOT),
        mode,
    })
}

// Blend goes by the frame's records, each from its source. Here and below three references: a struct would be made in
// `blend_frame` alone, and taken apart by both.
pub(crate) fn blend_stroke(
    terms: &Terms,
    frame: &OpenFrame,
    filled: &[bool; 4],
    channel: usize,
) -> Option<Stroke>
    ensures { result ≡ blend_plan (setup_from terms.now) (opened_from frame.now) filled.now channel }
{
    let info = info_of(terms, frame, channel);
    let colors = terms.colors as usize;
    Some(Stroke {
        old: source_layer(terms, filled, info.source),
        mode: BlendMode::from_blending_info(channel, colors, info, terms.kinds()),
    })
}

// Where the frame is not drawn the source's sample is kept: nothing is to do where that is the target itself.
pub(crate) fn keep_stroke(
    terms: &Terms,
    frame: &OpenFrame,
    filled: &[bool; 4],
    channel: usize,
) -> Option<Stroke>
    ensures { result ≡ keep_plan (setup_from terms.now) (opened_from frame.now) filled.now channel }
{
    let source = info_of(terms, frame, channel).source;
    let target = frame.header.target;
    if filled[target as usize] && source as u32 == target {
        return None;
    }
    Some(Stroke {
        old: source_layer(terms, filled, source),
        mode: BlendMode::Skip,
    })
}
