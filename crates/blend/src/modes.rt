// The modes of frames and patches and the kinds of extra channels, made from the numbers that callers hand over.
ghost use Rattle.std.specs.Prelude.{◌≡◌, ◌<◌, MatchResult};
ghost use Rattle.refusal.specs.declared.Refusal.TheVariants.{ModeNumber, ChannelKinds};
ghost use Rattle.blend.specs.Modes.{frame_number, patch_number, kind_number, frame_reads_alpha, patch_reads_alpha};

use refusal::Refusal;

// How a frame is blended with the canvas of its source slot.
#[derive(Clone, Copy)]
pub enum FrameBlendMode {
    Replace,
    Add,
    Blend,
    MulAdd,
    Mul,
}

impl TryFrom<u8> for FrameBlendMode {
    type Error = Refusal;

    ghost try_from_gives = { λ number r. MatchResult r (λ mode. frame_number mode ≡ number) (λ refusal. (refusal ≡ ModeNumber) × (4 < number)) };

    fn try_from(number: u8) -> Result<Self, Refusal> {
        match number {
            0 => Ok(FrameBlendMode::Replace),
            1 => Ok(FrameBlendMode::Add),
            2 => Ok(FrameBlendMode::Blend),
            3 => Ok(FrameBlendMode::MulAdd),
            4 => Ok(FrameBlendMode::Mul),
            _ => Err(Refusal::ModeNumber),
        }
    }
}

impl FrameBlendMode {
    // Whether a record of this mode reads alpha, with extra channels or without.
    pub fn reads_alpha(self, has_extra: bool) -> bool
        ensures { result ≡ frame_reads_alpha has_extra self }
    {
        match self {
            FrameBlendMode::Blend | FrameBlendMode::MulAdd => has_extra,
            FrameBlendMode::Replace | FrameBlendMode::Add | FrameBlendMode::Mul => false,
        }
    }
}

// How a patch is drawn onto the open frame. Above: the patch over the frame; below: the other way round.
#[derive(Clone, Copy)]
pub enum PatchBlendMode {
    None,
    Replace,
    Add,
    Mul,
    BlendAbove,
    BlendBelow,
    MulAddAbove,
    MulAddBelow,
}

impl TryFrom<u8> for PatchBlendMode {
    type Error = Refusal;

    ghost try_from_gives = { λ number r. MatchResult r (λ mode. patch_number mode ≡ number) (λ refusal. (refusal ≡ ModeNumber) × (7 < number)) };

    fn try_from(number: u8) -> Result<Self, Refusal> {
        match number {
            0 => Ok(PatchBlendMode::None),
            1 => Ok(PatchBlendMode::Replace),
            2 => Ok(PatchBlendMode::Add),
            3 => Ok(PatchBlendMode::Mul),
            4 => Ok(PatchBlendMode::BlendAbove),
            5 => Ok(PatchBlendMode::BlendBelow),
            6 => Ok(PatchBlendMode::MulAddAbove),
            7 => Ok(PatchBlendMode::MulAddBelow),
            _ => Err(Refusal::ModeNumber),
        }
    }
}

impl PatchBlendMode {
    // Whether a record of this mode reads alpha.
    pub fn reads_alpha(self) -> bool
        ensures { result ≡ patch_reads_alpha self }
    {
        match self {
            PatchBlendMode::BlendAbove | PatchBlendMode::BlendBelow => true,
            PatchBlendMode::MulAddAbove | PatchBlendMode::MulAddBelow => true,
            PatchBlendMode::None | PatchBlendMode::Replace => false,
            PatchBlendMode::Add | PatchBlendMode::Mul => false,
        }
    }
}

// What an extra channel holds.
#[derive(Clone, Copy)]
pub enum Kind {
    NoAlpha,
    Alpha,
    Premultiplied,
}

impl TryFrom<u8> for Kind {
    type Error = Refusal;

    ghost try_from_gives = { λ number r. MatchResult r (λ kind. kind_number kind ≡ number) (λ refusal. (refusal ≡ ChannelKinds) × (2 < number)) };

    fn try_from(number: u8) -> Result<Self, Refusal> {
        match number {
            0 => Ok(Kind::NoAlpha),
            1 => Ok(Kind::Alpha),
            2 => Ok(Kind::Premultiplied),
            _ => Err(Refusal::ChannelKinds),
        }
    }
}
