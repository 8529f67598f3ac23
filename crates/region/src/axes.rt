// One axis of a region: where it begins, and how many positions it has.
ghost use Rattle.std.specs.Prelude.{◌≡◌, pos, ◌+ℤ◌};
ghost use Rattle.region.specs.Positions.{within};

// Where one axis ends, one past its last position, also where that is no i32.
pub fn past(from: i32, size: u32) -> i64
    ensures { result ≡ from +ℤ pos size }
{
    i64::from(from) + i64::from(size)
}

// Whether an axis lies within another; asked of any numbers, also of those that no axis has.
pub fn is_within(from: i32, size: u32, at: i32, n: u32) -> bool
    ensures { result ≡ within from size at n }
{
    from <= at && past(at, n) <= past(from, size)
}
