// Canvases in a store: what a started stage and its open frame keep, and how the calls of a stage draw.
// Promise: each function changes the places of the store as the definition's painting says, and no other.
// What the fields mean is specs/Fields.antt, a painting is specs/Step.antt of crate `views`, and in prose docs/STAGE.md.
#![tactic(auto)]

pub mod draws;
mod makes;
mod parts;
mod plans;
pub mod terms;

pub use draws::{blend_frame, copy_picture, draw_patch};
pub use terms::{OpenFrame, Patch, Terms};
