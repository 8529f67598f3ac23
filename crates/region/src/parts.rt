// Parts of a region: what another region, a rectangle of any numbers or a moved target cuts out of it, and where a part lies among its columns and rows.
ghost use Rattle.std.specs.Prelude.{◌≡◌, ℕ, ◌≤◌, ◌&&◌, ℤ, pos, ◌+ℤ◌, ◌-ℤ◌, int_le, int_lt, nat_le, nat_lt};
ghost use Rattle.region.specs.Positions.{along, has};

use crate::Region;
use crate::axes::past;
use std::ops::Range;

// The coordinates of an axis once it is moved, also where those are no i32.
fn moved(from: i32, size: u32, by: i32) -> Range<i64>
    ensures { (at : ℤ) → (int_le result.start at && int_lt at result.end) ≡ along from size (at -ℤ by) }
{
    let by = i64::from(by);
    i64::from(from) + by..past(from, size) + by
}

impl Region {
    // The part from one column up to another, and from one row up to another.
    fn part(self, columns: Range<i64>, rows: Range<i64>) -> Region
        ensures { (x y : ℤ) → has result x y ≡ (has self x y && ((int_le columns.start x && int_lt x columns.end) && (int_le rows.start y && int_lt y rows.end))) }
    {
        Region::of_spans(self.across().part(columns), self.down().part(rows))
    }

    // The part that lies within a rectangle of any numbers.
    pub fn cut(self, left: i32, top: i32, width: u32, height: u32) -> Region
        ensures { (x y : ℤ) → has result x y ≡ (has self x y && (along left width x && along top height y)) }
    {
        self.part(
            i64::from(left)..past(left, width),
            i64::from(top)..past(top, height),
        )
    }

    // The positions that both have.
    pub fn intersection(self, rhs: Region) -> Region
        ensures { (x y : ℤ) → has result x y ≡ (has self x y && has rhs x y) }
    {
        Region::of_spans(
            self.across().overlap(rhs.across()),
            self.down().overlap(rhs.down()),
        )
    }

    // The part that a target covers once that is moved by (x, y).
    pub fn part_under(self, target: Region, x: i32, y: i32) -> Region
        ensures { (p q : ℤ) → has result p q ≡ (has self p q && has target (p -ℤ x) (q -ℤ y)) }
    {
        self.part(
            moved(target.left, target.width, x),
            moved(target.top, target.height, y),
        )
    }

    // Where a part lies among this region's columns, from the first up to one past the last: a pair, which its callers take apart, so that a `Range`
    // would be no plainer.
    pub fn columns_of(self, part: Region) -> (u32, u32)
        ensures positions { (c : ℕ) → (nat_le result.0 c && nat_lt c result.1) ≡ along part.left part.width (self.left +ℤ pos c) }
        ensures order { result.0 ≤ result.1 }
    {
        part.across().places(self.left)
    }

    // Where a part lies among this region's rows.
    pub fn rows_of(self, part: Region) -> (u32, u32)
        ensures positions { (c : ℕ) → (nat_le result.0 c && nat_lt c result.1) ≡ along part.top part.height (self.top +ℤ pos c) }
        ensures order { result.0 ≤ result.1 }
    {
        part.down().places(self.top)
    }
}
