// The methods of `Region`, with the names of the crate that they come from.
ghost use Rattle.std.specs.Prelude.{◌≡◌, true, false, ◌&&◌, ◌||◌, ℤ, pos, ◌+ℤ◌, ◌≤ℤ◌, Decides, MatchOption, MatchResult};
ghost use Rattle.refusal.specs.declared.Refusal.TheVariants.{NoRegion};
ghost use Rattle.region.specs.Bounds.{is_span, is_filled_or_empty, is_region};
ghost use Rattle.region.specs.Positions.{along, within, has, is_empty, Holds, can_move, is_allowed};

use crate::Region;
use crate::axes::is_within;
use crate::limits::rectangle_allowed;
use crate::span::{Span, is_span};
use refusal::Refusal;

// Whether neither side is 0, or all four numbers are.
fn is_filled_or_empty(left: i32, top: i32, width: u32, height: u32) -> bool
    ensures { result ≡ is_filled_or_empty left top width height }
{
    width > 0 && height > 0 || width == 0 && height == 0 && left == 0 && top == 0
}

// Of four plain numbers, since no region is made yet.
fn is_region(left: i32, top: i32, width: u32, height: u32) -> bool
    ensures { result ≡ is_region left top width height }
{
    is_span(left, width) && is_span(top, height) && is_filled_or_empty(left, top, width, height)
}

// Whether the target is empty, or both its axes lie within the region's.
fn covers(region: Region, target: Region) -> bool
    ensures { result ≡ (is_empty target || (within region.left region.width target.left target.width && within region.top region.height target.top target.height)) }
{
    target.is_empty()
        || is_within(region.left, region.width, target.left, target.width)
            && is_within(region.top, region.height, target.top, target.height)
}

impl Region {
    pub fn new(left: i32, top: i32, width: u32, height: u32) -> Result<Region, Refusal>
        ensures { MatchResult result (λ made. (made.left ≡ left) × (made.top ≡ top) × (made.width ≡ width) × (made.height ≡ height)) (λ refusal. (refusal ≡ NoRegion) × (is_region left top width height ≡ false)) }
    {
        Refusal::NoRegion.unless(is_region(left, top, width, height))?;
        Ok(Region {
            left,
            top,
            width,
            height,
        })
    }

    // The region with no position.
    pub fn empty() -> Region
        ensures { is_empty result ≡ true }
    {
        Region {
            left: 0,
            top: 0,
            width: 0,
            height: 0,
        }
    }

    // From the origin.
    pub fn with_size(width: u32, height: u32) -> Result<Region, Refusal>
        ensures { MatchResult result (λ made. (made.left ≡ pos 0) × (made.top ≡ pos 0) × (made.width ≡ width) × (made.height ≡ height)) (λ refusal. (refusal ≡ NoRegion) × (is_region (pos 0) (pos 0) width height ≡ false)) }
    {
        Region::new(0, 0, width, height)
    }

    // The region with these axes, empty where one is.
    pub(crate) fn of_spans(across: Span, down: Span) -> Region
        ensures { (x y : ℤ) → has result x y ≡ (along across.from across.size x && along down.from down.size y) }
    {
        if across.size == 0 || down.size == 0 {
            return Region::empty();
        }
        Region {
            left: across.from,
            top: down.from,
            width: across.size,
            height: down.size,
        }
    }

    // The axis of its columns.
    pub(crate) fn across(self) -> Span
        ensures { (result.from ≡ self.left) × (result.size ≡ self.width) }
    {
        Span {
            from: self.left,
            size: self.width,
        }
    }

    // The axis of its rows.
    pub(crate) fn down(self) -> Span
        ensures { (result.from ≡ self.top) × (result.size ≡ self.height) }
    {
        Span {
            from: self.top,
            size: self.height,
        }
    }

    pub fn left(self) -> i32
        ensures { result ≡ self.left }
    {
        self.left
    }

    pub fn top(self) -> i32
        ensures { result ≡ self.top }
    {
        self.top
    }

    pub fn width(self) -> u32
        ensures { result ≡ self.width }
    {
        let Region { width, .. } = self;
        width
    }

    pub fn height(self) -> u32
        ensures { result ≡ self.height }
    {
        self.height
    }

    pub fn is_empty(self) -> bool
        ensures flag { result ≡ is_empty self }
        ensures positions { Decides result ((x y : ℤ) → has self x y ≡ false) }
    {
        self.width == 0
    }

    // One past the last column.
    pub fn right(self) -> i32
        ensures { result ≡ self.left +ℤ pos self.width }
    {
        self.across().end()
    }

    // One past the last row.
    pub fn bottom(self) -> i32
        ensures { result ≡ self.top +ℤ pos self.height }
    {
        self.down().end()
    }

    // Whether every position of the target is one of this region's.
    pub fn contains(self, target: Region) -> bool
        ensures { Decides result (Holds self target) }
    {
        covers(self, target)
    }

    // The region moved; the empty one stays as it is.
    pub fn translate(self, x: i32, y: i32) -> Result<Region, Refusal>
        ensures { MatchResult result (λ moved. (can_move self x y ≡ true) × ((p q : ℤ) → has moved (p +ℤ x) (q +ℤ y) ≡ has self p q)) (λ refusal. (refusal ≡ NoRegion) × (can_move self x y ≡ false)) }
    {
        if self.is_empty() {
            return Ok(self);
        }
        let across = self.across().translate(x)?;
        let down = self.down().translate(y)?;
        Ok(Region::of_spans(across, down))
    }

    // Whether a stage works on such a region.
    pub fn is_allowed(self) -> bool
        ensures { result ≡ is_allowed self }
    {
        rectangle_allowed(self.left, self.top, self.width, self.height)
    }
}
