// Records, and the formula that each stands for at a channel.
ghost use Rattle.std.specs.Prelude.{◌≡◌};
ghost use Rattle.blend.specs.declared.records.BlendMode.TheVariants.{Mul, Blend, MulAdd, MixAlpha};
ghost use Rattle.blend.specs.Modes.{premultiplied_at};
ghost use Rattle.blend.specs.Tables.{frame_mode, patch_mode, alpha_of, alpha_read, is_own, formula};

use crate::modes::{FrameBlendMode, Kind, PatchBlendMode};
use formulas::Operands;

// A frame's record: how its channels meet the canvas of the source slot.
#[derive(Clone, Copy)]
pub struct BlendingInfo {
    pub mode: FrameBlendMode,
    pub alpha_channel: u8,
    pub clamp: bool,
    pub source: u8,
}

// A patch's record: how its channels meet the open frame.
#[derive(Clone, Copy)]
pub struct PatchBlendingInfo {
    pub mode: PatchBlendMode,
    pub alpha_channel: u8,
    pub clamp: bool,
}

// The alpha that a formula reads: the extra channel's number, and how.
#[derive(Clone, Copy)]
pub struct BlendAlpha {
    pub channel: u8,
    pub clamp: bool,
    pub swapped: bool,
    pub premultiplied: bool,
}

// A formula with all that it needs besides its four floats.
#[derive(Clone, Copy)]
pub enum BlendMode {
    Replace,
    Add,
    Mul(bool),
    Blend(BlendAlpha),
    MulAdd(BlendAlpha),
    MixAlpha { clamp: bool, swapped: bool },
    Skip,
}

// Whether a channel is the extra channel of that number.
fn is_own(channel: usize, color_channels: usize, alpha_channel: u8) -> bool
    ensures { result ≡ is_own channel color_channels alpha_channel }
{
    channel.checked_sub(color_channels) == Some(alpha_channel as usize)
}

// Whether the extra channel of that number exists and holds premultiplied alpha.
fn is_premultiplied(kinds: &[Kind], alpha_channel: u8) -> bool
    ensures { result ≡ premultiplied_at kinds.now alpha_channel }
{
    matches!(kinds.get(alpha_channel as usize), Some(Kind::Premultiplied))
}

// How a record reads the alpha channel that it names.
fn alpha_of(channel: u8, clamp: bool, kinds: &[Kind], swapped: bool) -> BlendAlpha
    ensures { result ≡ alpha_of channel clamp kinds.now swapped }
{
    let premultiplied = is_premultiplied(kinds, channel);
    BlendAlpha {
        channel,
        clamp,
        swapped,
        premultiplied,
    }
}

pub(crate) fn mul(clamp: bool, operands: Operands) -> f32
    ensures { result ≡ formula (Mul clamp) operands }
{
    operands.clamp_new(clamp).mul()
}

pub(crate) fn mix_alpha(clamp: bool, swapped: bool, operands: Operands) -> f32
    ensures { result ≡ formula (MixAlpha clamp swapped) operands }
{
    operands.exchanged(swapped).clamp_new(clamp).mix_alpha()
}

impl BlendAlpha {
    pub(crate) fn blend(self, operands: Operands) -> f32
        ensures { result ≡ formula (Blend self) operands }
    {
        operands
            .exchanged(self.swapped)
            .clamp_new_alpha(self.clamp)
            .blend(self.premultiplied)
    }

    pub(crate) fn mul_add(self, operands: Operands) -> f32
        ensures { result ≡ formula (MulAdd self) operands }
    {
        operands
            .exchanged(self.swapped)
            .clamp_new_alpha(self.clamp)
            .mul_add()
    }
}

impl BlendMode {
    // The formula of a frame's record at a channel.
    pub fn from_blending_info(
        channel: usize,
        color_channels: usize,
        info: BlendingInfo,
        kinds: &[Kind],
    ) -> BlendMode
        ensures { result ≡ frame_mode channel color_channels info kinds.now }
    {
        let clamp = info.clamp;
        let own = is_own(channel, color_channels, info.alpha_channel);
        let alpha = alpha_of(info.alpha_channel, clamp, kinds, false);
        let has_extra = !kinds.is_empty();
        match info.mode {
            FrameBlendMode::Replace => BlendMode::Replace,
            FrameBlendMode::Add => BlendMode::Add,
            FrameBlendMode::Blend if !has_extra => BlendMode::Replace,
            FrameBlendMode::Blend if own => BlendMode::MixAlpha {
                clamp,
                swapped: false,
            },
            FrameBlendMode::Blend => BlendMode::Blend(alpha),
            FrameBlendMode::MulAdd if !has_extra => BlendMode::Add,
            FrameBlendMode::MulAdd if own => BlendMode::Skip,
            FrameBlendMode::MulAdd => BlendMode::MulAdd(alpha),
            FrameBlendMode::Mul => BlendMode::Mul(clamp),
        }
    }

    // The formula of a patch's record at a channel; none where nothing is drawn.
    pub fn from_patch_blending_info(
        channel: usize,
        color_channels: usize,
        info: PatchBlendingInfo,
        kinds: &[Kind],
    ) -> Option<BlendMode>
        ensures { result ≡ patch_mode channel color_channels info kinds.now }
    {
        let clamp = info.clamp;
        let own = is_own(channel, color_channels, info.alpha_channel);
        let above = alpha_of(info.alpha_channel, clamp, kinds, false);
        let below = alpha_of(info.alpha_channel, clamp, kinds, true);
        Some(match info.mode {
            PatchBlendMode::None => return None,
            PatchBlendMode::Replace => BlendMode::Replace,
            PatchBlendMode::Add => BlendMode::Add,
            PatchBlendMode::Mul => BlendMode::Mul(clamp),
            PatchBlendMode::BlendAbove if own => BlendMode::MixAlpha {
                clamp,
                swapped: false,
            },
            PatchBlendMode::BlendAbove => BlendMode::Blend(above),
            PatchBlendMode::BlendBelow if own => BlendMode::MixAlpha {
                clamp,
                swapped: true,
            },
            PatchBlendMode::BlendBelow => BlendMode::Blend(below),
            PatchBlendMode::MulAddAbove if own => BlendMode::Skip,
            PatchBlendMode::MulAddAbove => BlendMode::MulAdd(above),
            PatchBlendMode::MulAddBelow if own => BlendMode::Replace,
            PatchBlendMode::MulAddBelow => BlendMode::MulAdd(below),
        })
    }

    // The extra channel that the formula reads as alpha.
    pub fn alpha_channel(self) -> Option<u8>
        ensures { result ≡ alpha_read self }
    {
        match self {
            BlendMode::Blend(alpha) | BlendMode::MulAdd(alpha) => Some(alpha.channel),
            BlendMode::Replace | BlendMode::Add | BlendMode::Mul(_) => None,
            BlendMode::MixAlpha { .. } | BlendMode::Skip => None,
        }
    }

    // One sample by the formula.
    pub fn apply(self, operands: Operands) -> f32
        ensures { result ≡ formula self operands }
    {
        match self {
            BlendMode::Replace => operands.replace(),
            BlendMode::Add => operands.add(),
            BlendMode::Mul(clamp) => mul(clamp, operands),
            BlendMode::Blend(alpha) => alpha.blend(operands),
            BlendMode::MulAdd(alpha) => alpha.mul_add(operands),
            BlendMode::MixAlpha { clamp, swapped } => mix_alpha(clamp, swapped, operands),
            BlendMode::Skip => operands.skip(),
        }
    }
}
