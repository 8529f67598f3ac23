// Which part of a canvas a frame is drawn on.
ghost use Rattle.std.specs.Prelude.{◌≡◌, ℕ, ◌&&◌, ℤ, pos, ◌+ℤ◌, ◌-ℤ◌};
ghost use Rattle.region.specs.Positions.{has};
ghost use Rattle.machine.specs.Machine.{covered};
ghost use Rattle.walk.specs.Rectangles.{in_area};
ghost use Rattle.canvas.specs.Plans.{offset_of, sheet_layer};

use drawing::Layer;
use machine::Header;
use region::Region;
use walk::Area;

// The part of a frame that its picture covers, in the frame's coordinates.
pub(crate) fn covered_part(header: Header, picture: Region) -> Region
    ensures { (x y : ℤ) → has result x y ≡ covered header picture x y }
{
    picture.cut(0, 0, header.width, header.height)
}

// Where on a canvas a part of a frame lies.
pub(crate) fn area_under(region: Region, header: Header, part: Region) -> Area
    ensures { (c r : ℕ) → let x = region.left +ℤ pos c in let y = region.top +ℤ pos r in in_area result c r ≡ (has region x y && has part (x -ℤ header.left) (y -ℤ header.top)) }
{
    let under = region.part_under(part, header.left, header.top);
    let (left, right) = region.columns_of(under);
    let (top, bottom) = region.rows_of(under);
    Area::new(left as usize, right as usize, top as usize, bottom as usize)
}

fn difference(a: i32, b: i32) -> i64
    ensures { result ≡ a -ℤ b }
{
    i64::from(a) - i64::from(b)
}

// Which coordinate of a picture lies in the first column or row: its `from` stands at `place` of a frame with this origin.
fn offset(corner: i32, origin: i32, place: i32, from: i32) -> i64
    ensures { result ≡ offset_of corner origin place from }
{
    difference(corner, origin) + difference(from, place)
}

// A picture whose position (left, top) stands at (x, y) of a frame, as a layer of the canvas.
pub(crate) fn sheet_layer(
    region: Region,
    header: Header,
    x: i32,
    y: i32,
    left: i32,
    top: i32,
) -> Layer
    ensures { result ≡ sheet_layer region header x y left top }
{
    Layer::Placed {
        x: offset(region.left(), header.left, x, left),
        y: offset(region.top(), header.top, y, top),
    }
}
