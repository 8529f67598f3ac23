// The kinds of samples that callers hold, f32, i32 and i16, and the f32 that each stands for.
// Promise: an f32 means itself; an integer means its part of the largest sample of its depth, divided once in f32.
// The definition is specs/Samples.antt, and in prose docs/PICTURES.md.
#![tactic(auto)]

ghost use Rattle.std.specs.Prelude.{◌≡◌, ℕ, Bool, true, Float};
ghost use Rattle.sample.specs.Samples.{part_of, countable};

use std::num::{nearest_i32_to_f32, nearest_u32_to_f32};

// A sample kind. `full` is the largest sample of a bit depth, 2^depth - 1.
pub trait Sample: Copy {
    // the deepest bit depth; 0 for a kind that has no depth
    const DEEPEST: u32;

    ghost DEEPEST: { ℕ };

    // whether f32 counts up to the sample without a gap
    ghost exact: { Self → Bool };

    // what the sample means under the largest sample of its depth
    ghost value: { Self → ℕ → Float };

    fn depth_limit() -> u32
        ensures { result ≡ DEEPEST }
    {
        Self::DEEPEST
    }

    fn is_exact(self) -> bool
        ensures { result ≡ exact self };

    fn to_f32(self, full: u32) -> f32
        ensures { result ≡ value self full };
}

impl Sample for f32 {
    const DEEPEST: u32 = 0;

    ghost DEEPEST = { 0 };

    ghost exact = { λ _. true };

    ghost value = { λ sample _. sample };

    fn is_exact(self) -> bool {
        true
    }

    fn to_f32(self, _full: u32) -> f32 {
        self
    }
}

impl Sample for i32 {
    const DEEPEST: u32 = 24;

    ghost DEEPEST = { 24 };

    ghost exact = { λ sample. countable sample };

    ghost value = { λ sample full. part_of sample full };

    fn is_exact(self) -> bool {
        (-16_777_216..=16_777_216).contains(&self)
    }

    fn to_f32(self, full: u32) -> f32 {
        nearest_i32_to_f32(self) / nearest_u32_to_f32(full)
    }
}

impl Sample for i16 {
    const DEEPEST: u32 = 15;

    ghost DEEPEST = { 15 };

    ghost exact = { λ sample. countable sample };

    ghost value = { λ sample full. part_of sample full };

    fn is_exact(self) -> bool {
        i32::from(self).is_exact()
    }

    fn to_f32(self, full: u32) -> f32 {
        i32::from(self).to_f32(full)
    }
}
