// The limits of sides and places that a stage works on.
ghost use Rattle.std.specs.Prelude.{◌≡◌, ◌&&◌};
ghost use Rattle.region.specs.Bounds.{side_allowed, place_allowed};

// The longest side of a region, a frame or a grid.
pub const LONGEST_SIDE: u32 = 16_384;
// How far left or right, up or down, a region, a frame or a patch may lie.
pub const FARTHEST_PLACE: i32 = 1_048_576;

pub fn side_allowed(side: u32) -> bool
    ensures { result ≡ side_allowed side }
{
    (1..=LONGEST_SIDE).contains(&side)
}

pub fn place_allowed(at: i32) -> bool
    ensures { result ≡ place_allowed at }
{
    (-FARTHEST_PLACE..=FARTHEST_PLACE).contains(&at)
}

// Whether a stage works on a rectangle with these sides at this place.
pub fn rectangle_allowed(left: i32, top: i32, width: u32, height: u32) -> bool
    ensures { result ≡ ((side_allowed width && side_allowed height) && (place_allowed left && place_allowed top)) }
{
    side_allowed(width) && side_allowed(height) && place_allowed(left) && place_allowed(top)
}
