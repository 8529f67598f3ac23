// The formulas of blending: seven kernels in f32 over one set of four floats, with clamping and the exchange of old and new.
// Promise: each equals its written expression bit by bit, every operation rounded once in its order.
// The definition is specs/Formulas.antt, and in prose docs/FORMULAS.md.
#![tactic(auto)]

ghost use Rattle.std.specs.Prelude.{◌≡◌};
ghost use Rattle.formulas.specs.Formulas.{clamped, exchanged, clamp_new, clamp_new_alpha, replace_of, add_of, mul_of, skip_of, mix_alpha_of, mul_add_of, blend_of};

// What a formula reads: the old sample and the new one, and the alpha of each.
#[derive(Clone, Copy)]
pub struct Operands {
    pub base: f32,
    pub new: f32,
    pub base_alpha: f32,
    pub new_alpha: f32,
}

// Into the range from 0 to 1; what is not a number, and -0.0, stays.
pub fn clamp(x: f32) -> f32
    ensures { result ≡ clamped x }
{
    x.clamp(0.0, 1.0)
}

impl Operands {
    // Old and new exchanged, where asked.
    pub fn exchanged(self, swapped: bool) -> Operands
        ensures { result ≡ exchanged swapped self }
    {
        if swapped {
            Operands {
                base: self.new,
                new: self.base,
                base_alpha: self.new_alpha,
                new_alpha: self.base_alpha,
            }
        } else {
            self
        }
    }

    // The new sample clamped, where asked.
    pub fn clamp_new(self, asked: bool) -> Operands
        ensures { result ≡ clamp_new asked self }
    {
        let new = if asked { clamp(self.new) } else { self.new };
        Operands { new, ..self }
    }

    // The new alpha clamped, where asked.
    pub fn clamp_new_alpha(self, asked: bool) -> Operands
        ensures { result ≡ clamp_new_alpha asked self }
    {
        let new_alpha = if asked {
            clamp(self.new_alpha)
        } else {
            self.new_alpha
        };
        Operands { new_alpha, ..self }
    }

    pub fn replace(self) -> f32
        ensures { result ≡ replace_of self }
    {
        let Operands { new, .. } = self;
        new
    }

    pub fn add(self) -> f32
        ensures { result ≡ add_of self }
    {
        self.base + self.new
    }

    pub fn mul(self) -> f32
        ensures { result ≡ mul_of self }
    {
        self.base * self.new
    }

    pub fn skip(self) -> f32
        ensures { result ≡ skip_of self }
    {
        let Operands { base, .. } = self;
        base
    }

    // An alpha channel onto itself.
    pub fn mix_alpha(self) -> f32
        ensures { result ≡ mix_alpha_of self }
    {
        self.base + (self.new * (1.0 - self.base))
    }

    pub fn mul_add(self) -> f32
        ensures { result ≡ mul_add_of self }
    {
        self.base + (self.new_alpha * self.new)
    }

    // New over old. With premultiplied alpha the samples hold their alpha already.
    pub fn blend(self, premultiplied: bool) -> f32
        ensures { result ≡ blend_of premultiplied self }
    {
        let new_alpha_rev = 1.0 - self.new_alpha;
        if premultiplied {
            return self.new + self.base * new_alpha_rev;
        }
        let mixed_alpha = 1.0 - new_alpha_rev * (1.0 - self.base_alpha);
        let mixed_alpha_recip = if mixed_alpha > 0.0 {
            1.0 / mixed_alpha
        } else {
            0.0
        };
        (self.new_alpha * self.new + self.base_alpha * self.base * new_alpha_rev)
            * mixed_alpha_recip
    }
}
