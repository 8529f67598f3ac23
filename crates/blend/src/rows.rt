// One formula over rows of samples: it is chosen once, outside the loop over the columns. A closure that calls `BlendMode::apply` was tried: it chooses the
// formula again for each sample, and takes more than twice the time. The closures own what they read: by a reference the loop would read it again for each
// sample, as its writes might change it, and rows of MulAdd take eight times as long.
ghost use Rattle.std.specs.Prelude.{◌≡◌, ℕ, slice_index_or, Float};
ghost use Rattle.std.specs.Float.{nan};
ghost use Rattle.formulas.specs.declared.Operands.{Operands};
ghost use Rattle.blend.specs.Tables.{formula};
ghost use Rattle.blend.specs.Rows.{common, row_at};

use crate::records::{BlendMode, mix_alpha, mul};
use formulas::Operands;

// The rows that are drawn from: the new samples, and the alphas of old and new.
#[derive(Clone, Copy)]
struct Sources<'a> {
    new: &'a [f32],
    base_alpha: &'a [f32],
    new_alpha: &'a [f32],
}

// Draws onto the row `base` by the kernel, in every column that all rows have.
fn draw<F: Fn(Operands) -> f32>(base: &mut [f32], from: Sources, kernel: F)
    requires { F.IsAlwaysCallable kernel }
    ensures { (made : Operands → Float) → ((o : Operands) (r : Float) → F.post kernel o r → r ≡ made o) → (k : ℕ) → slice_index_or base.new k nan ≡ row_at made (common base.old from.entry.new.now from.entry.base_alpha.now from.entry.new_alpha.now) base.old from.entry.new.now from.entry.base_alpha.now from.entry.new_alpha.now k }
{
    let Sources {
        new,
        base_alpha,
        new_alpha,
    } = from;
    let count = base
        .len()
        .min(new.len())
        .min(base_alpha.len().min(new_alpha.len()));
    // By the index into the other rows: after a `zip` with `iter_mut` a proof knows nothing of what was written.
    for (column, sample) in base[0..count].iter_mut().enumerate() {
        *sample = kernel(Operands {
            base: *sample,
            new: new[column],
            base_alpha: base_alpha[column],
            new_alpha: new_alpha[column],
        });
    }
}

// Draws the row `new` onto the row `base` by the formula, in every column that all four rows have. The four rows are as the crate has them that this comes
// from.
pub fn blend_single(
    mode: BlendMode,
    base: &mut [f32],
    new: &[f32],
    base_alpha: &[f32],
    new_alpha: &[f32],
)
    ensures { (k : ℕ) → slice_index_or base.new k nan ≡ row_at (formula mode) (common base.old new.now base_alpha.now new_alpha.now) base.old new.now base_alpha.now new_alpha.now k }
{
    let from = Sources {
        new,
        base_alpha,
        new_alpha,
    };
    match mode {
        BlendMode::Replace => draw(base, from, Operands::replace),
        BlendMode::Add => draw(base, from, Operands::add),
        BlendMode::Mul(clamp) => draw(base, from, move |o| mul(clamp, o)),
        BlendMode::Blend(alpha) => draw(base, from, move |o| alpha.blend(o)),
        BlendMode::MulAdd(alpha) => draw(base, from, move |o| alpha.mul_add(o)),
        BlendMode::MixAlpha { clamp, swapped } => draw(
            base,
            from,
            move |o| mix_alpha(clamp, swapped, o),
        ),
        BlendMode::Skip => {}
    }
}
