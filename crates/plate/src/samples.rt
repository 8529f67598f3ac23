// The region of a plate's samples, and their numbers.
ghost use Rattle.std.specs.Prelude.{◌≡◌, ◌^◌, ◌<◌, true, false, ◌&&◌, pos, MatchOption, nat_lt, unsigned_abs};
ghost use Rattle.region.specs.Positions.{along};
ghost use Rattle.plate.specs.Format.{sides as region_of, sample_number};

use region::Region;

// From the origin; the empty region where the sides make none.
pub(crate) fn sides(width: u16, height: u16) -> Region
    ensures { result ≡ region_of width height }
{
    match Region::with_size(u32::from(width), u32::from(height)) {
        Ok(region) => region,
        Err(_) => Region::empty(),
    }
}

// Which of the `size` coordinates from 0 on it is; none where it lies elsewhere. By two comparisons: through `index_of` of crate `steps`, and a region, rows of a
// plate take 1.5 times as long.
fn index_of(size: u16, at: i32) -> Option<usize>
    ensures { MatchOption result (along (pos 0) size at ≡ false) (λ k. (along (pos 0) size at ≡ true) × (k < size) × (k ≡ unsigned_abs at)) }
{
    if 0 <= at && at < i32::from(size) {
        Some(at as usize)
    } else {
        None
    }
}

// Which sample stands at a position of a channel; none where there is no such position.
pub(crate) fn number_of(
    channels: u8,
    width: u16,
    height: u16,
    channel: usize,
    x: i32,
    y: i32,
) -> Option<usize>
    ensures { MatchOption result ((nat_lt channel channels && (along (pos 0) width x && along (pos 0) height y)) ≡ false) (λ n. ((nat_lt channel channels && (along (pos 0) width x && along (pos 0) height y)) ≡ true) × (n ≡ sample_number width height channel (unsigned_abs x) (unsigned_abs y)) × (n < 2 ^ 48)) }
{
    let column = index_of(width, x)?;
    let row = index_of(height, y)?;
    if channel >= usize::from(channels) {
        return None;
    }
    Some((channel * usize::from(height) + row) * usize::from(width) + column)
}
