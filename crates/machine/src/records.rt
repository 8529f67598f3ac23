// What the numbers of kinds, modes and records stand for once they are checked.
ghost use Rattle.std.specs.Prelude.{◌≡◌, nat_lt};
ghost use Rattle.std.specs.List.{list_any};
ghost use Rattle.machine.specs.Checks.{kind_of, frame_mode_of, patch_mode_of, frame_info, patch_info};

use crate::calls::{FrameRecord, PatchRecord};
use blend::{BlendingInfo, FrameBlendMode, Kind, PatchBlendMode, PatchBlendingInfo};

// A number beyond the last stands for the last, here and for modes: a generic function would take that last one from each caller.
pub fn kind_of(number: u8) -> Kind
    ensures { result ≡ kind_of number }
{
    Kind::try_from(number).unwrap_or(Kind::Premultiplied)
}

// Whether one of the kinds is none.
pub fn any_unknown(kinds: &[u8]) -> bool
    ensures { result ≡ list_any (nat_lt 2) kinds.now }
{
    kinds.iter().any(|kind| Kind::try_from(*kind).is_err())
}

pub fn frame_mode(number: u8) -> FrameBlendMode
    ensures { result ≡ frame_mode_of number }
{
    FrameBlendMode::try_from(number).unwrap_or(FrameBlendMode::Mul)
}

pub fn patch_mode(number: u8) -> PatchBlendMode
    ensures { result ≡ patch_mode_of number }
{
    PatchBlendMode::try_from(number).unwrap_or(PatchBlendMode::MulAddBelow)
}

impl From<FrameRecord> for BlendingInfo {
    ghost from_gives = { λ handed info. info ≡ frame_info handed };

    fn from(handed: FrameRecord) -> BlendingInfo {
        BlendingInfo {
            mode: frame_mode(handed.mode),
            alpha_channel: handed.alpha,
            clamp: handed.clamp,
            source: handed.source,
        }
    }
}

impl From<PatchRecord> for PatchBlendingInfo {
    ghost from_gives = { λ handed info. info ≡ patch_info handed };

    fn from(handed: PatchRecord) -> PatchBlendingInfo {
        PatchBlendingInfo {
            mode: patch_mode(handed.mode),
            alpha_channel: handed.alpha,
            clamp: handed.clamp,
        }
    }
}
