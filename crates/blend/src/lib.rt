// Blending: the modes of frames and patches, the records that choose a formula for a channel, and rows of samples.
// Promise: each record stands for the formula that the table gives.
// The definitions are specs/Modes.antt, specs/Tables.antt and specs/Rows.antt, and in prose docs/FORMULAS.md.
#![tactic(auto)]

pub mod modes;
pub mod records;
pub mod rows;

pub use modes::{FrameBlendMode, Kind, PatchBlendMode};
pub use records::{BlendAlpha, BlendMode, BlendingInfo, PatchBlendingInfo};
pub use rows::blend_single;
