// Strokes: what a drawing does to each channel.
ghost use Rattle.std.specs.Prelude.{◌≡◌, ℕ, false};
ghost use Rattle.drawing.specs.Layers.{touches};

use crate::layers::Layer;
use blend::BlendMode;

// The formula, and the layer that it takes the old samples from.
#[derive(Clone, Copy)]
pub struct Stroke {
    pub old: Layer,
    pub mode: BlendMode,
}

// A stroke for each channel, three colours and eight extra channels at the most, onto planes of the store from `first` on.
// A channel without a stroke stays as it is.
#[derive(Clone, Copy)]
pub struct Drawing {
    pub first: u32,
    pub colors: u32,
    pub new: Layer,
    pub strokes: [Option<Stroke>; 11],
}

impl Drawing {
    // Whether any channel has a stroke.
    pub(crate) fn has_strokes(&self) -> bool
        ensures { result ≡ false → (p : ℕ) → touches self.entry.now p ≡ false }
    {
        self.strokes.iter().any(|stroke| stroke.is_some())
    }
}
