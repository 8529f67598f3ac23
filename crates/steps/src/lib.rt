// Steps along an axis: where they lead, how many lie between two coordinates, and which column or row of a region a coordinate is.
// Promise: each function answers for all numbers what its definition says.
// The words are specs/Gaps.antt, and specs/Positions.antt of crate `region`.
#![tactic(auto)]

ghost use Rattle.std.specs.Prelude.{◌≡◌, ◌<◌, true, false, pos, ◌+ℤ◌, ◌-ℤ◌, MatchOption, unsigned_abs};
ghost use Rattle.region.specs.Positions.{along, column_of, row_of};
ghost use Rattle.steps.specs.Gaps.{is_coordinate, gap_of};

use region::Region;

// The coordinate `k` further on; none where that is no i32, and there no region lies.
pub fn onward(from: i64, k: usize) -> Option<i32>
    ensures { MatchOption result (is_coordinate (from +ℤ pos k) ≡ false) (λ at. at ≡ from +ℤ pos k) }
{
    i32::try_from(i128::from(from) + k as i128).ok()
}

// How far it is from one coordinate up to another; 0 where that comes first. By an `if`, which costs each short row a few steps less than `max` and `abs_diff`.
pub fn gap(from: i64, to: i64) -> usize
    ensures { result ≡ gap_of from to }
{
    if from < to {
        to.abs_diff(from) as usize
    } else {
        0
    }
}

// Which of the `size` coordinates from `from` on it is, counted from 0; none where it lies elsewhere.
pub fn index_of(from: i64, size: usize, at: i64) -> Option<usize>
    ensures { MatchOption result (along from size at ≡ false) (λ k. (along from size at ≡ true) × (k < size) × (k ≡ unsigned_abs (at -ℤ from))) }
{
    let steps = at.abs_diff(from) as usize;
    (from <= at && steps < size).then_some(steps)
}

// The column at a coordinate; none where the region does not reach.
pub fn column_of(region: Region, x: i64) -> Option<usize>
    ensures { MatchOption result (along region.left region.width x ≡ false) (λ column. (along region.left region.width x ≡ true) × (column < region.width) × (column ≡ column_of region x)) }
{
    index_of(i64::from(region.left()), region.width() as usize, x)
}

// The row at a coordinate; none where the region does not reach.
pub fn row_of(region: Region, y: i64) -> Option<usize>
    ensures { MatchOption result (along region.top region.height y ≡ false) (λ row. (along region.top region.height y ≡ true) × (row < region.height) × (row ≡ row_of region y)) }
{
    index_of(i64::from(region.top()), region.height() as usize, y)
}
