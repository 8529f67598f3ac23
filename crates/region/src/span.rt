// One axis of a region that fits: where it begins, and how many positions it has.
ghost use Rattle.std.specs.Prelude.{◌≡◌, ℕ, ◌≤◌, true, false, ◌&&◌, ℤ, pos, ◌+ℤ◌, ◌-ℤ◌, int_le, int_lt, nat_le, nat_lt, MatchResult};
ghost use Rattle.std.specs.Int.{int_max, int_min};
ghost use Rattle.refusal.specs.declared.Refusal.TheVariants.{NoRegion};
ghost use Rattle.region.specs.Bounds.{is_span};
ghost use Rattle.region.specs.Positions.{along};

use crate::axes::past;
use refusal::Refusal;
use std::ops::Range;

// It ends, one past its last position, at an i32.
#[derive(Clone, Copy)]
pub(crate) struct Span {
    pub(crate) from: i32,
    pub(crate) size: u32,
    ghost fits: { is_span from size ≡ true },
}

// Whether one axis fits: its end is at most the greatest i32.
pub(crate) fn is_span(from: i32, size: u32) -> bool
    ensures { result ≡ is_span from size }
{
    past(from, size) <= i64::from(i32::MAX)
}

// How far it is from one coordinate up to another, 0 where that comes first: `gap` of crate `steps` at i32, which through that would want a cast back, and
// a fact that it fits u32.
fn distance(from: i32, to: i32) -> u32
    ensures { pos result ≡ int_max (to -ℤ from) (pos 0) }
{
    to.max(from).abs_diff(from)
}

impl Span {
    pub(crate) fn end(self) -> i32
        ensures { result ≡ self.from +ℤ pos self.size }
    {
        past(self.from, self.size) as i32
    }

    // The axis moved; refused where it would not fit.
    pub(crate) fn translate(self, by: i32) -> Result<Span, Refusal>
        ensures { MatchResult result (λ moved. (moved.from ≡ self.from +ℤ by) × (moved.size ≡ self.size)) (λ refusal. (refusal ≡ NoRegion) × (is_span (self.from +ℤ by) self.size ≡ false)) }
    {
        let from = self.from.checked_add(by).ok_or(Refusal::NoRegion)?;
        Refusal::NoRegion.unless(is_span(from, self.size))?;
        Ok(Span {
            from,
            size: self.size,
        })
    }

    // The coordinate nearest to another among the axis's and its end.
    fn nearest(self, at: i64) -> i32
        ensures { result ≡ int_max self.from (int_min at (self.from +ℤ pos self.size)) }
    {
        at.clamp(i64::from(self.from), past(self.from, self.size)) as i32
    }

    // The part from one coordinate up to another, with no position where there is none.
    pub(crate) fn part(self, coordinates: Range<i64>) -> Span
        ensures { (at : ℤ) → along result.from result.size at ≡ (along self.from self.size at && (int_le coordinates.start at && int_lt at coordinates.end)) }
    {
        let from = self.nearest(coordinates.start);
        let to = self.nearest(coordinates.end);
        Span {
            from,
            size: distance(from, to),
        }
    }

    // The positions that both axes have, with none where they lie apart.
    pub(crate) fn overlap(self, rhs: Span) -> Span
        ensures { (at : ℤ) → along result.from result.size at ≡ (along self.from self.size at && along rhs.from rhs.size at) }
    {
        let from = self.from.max(rhs.from);
        let to = self.end().min(rhs.end()).max(from);
        Span {
            from,
            size: to.abs_diff(from),
        }
    }

    // Where the axis lies among the coordinates from another on: from the first up to one past the last.
    pub(crate) fn places(self, origin: i32) -> (u32, u32)
        ensures positions { (c : ℕ) → (nat_le result.0 c && nat_lt c result.1) ≡ along self.from self.size (origin +ℤ pos c) }
        ensures order { result.0 ≤ result.1 }
    {
        (distance(origin, self.from), distance(origin, self.end()))
    }
}
