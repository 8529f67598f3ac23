// The numbers of a grid: what they and the samples have to pass.
ghost use Rattle.std.specs.Prelude.{◌≡◌, ◌≤◌};
ghost use Rattle.std.specs.List.{list_all};
ghost use Rattle.picture.specs.Shapes.{shape_allowed, depth_allowed, full_of};

use region::Region;
use region::limits::LONGEST_SIDE;
use sample::Sample;

// The most channels of a grid.
const MOST_CHANNELS: usize = 11;
// The deepest bit depth of all kinds, up to which f32 counts without a gap.
const DEEPEST: u32 = 24;

// Of plain numbers, since there is no grid yet: whether there are channels, few enough, with sides that are short enough, and a sample for each channel and position.
pub(crate) fn shape_allowed(channels: usize, region: Region, samples: usize) -> bool
    ensures { result ≡ shape_allowed channels region samples }
{
    let width = region.width();
    let height = region.height();
    (1..=MOST_CHANNELS).contains(&channels)
        && width <= LONGEST_SIDE
        && height <= LONGEST_SIDE
        && samples == channels * height as usize * width as usize
}

// Whether a kind has the depth.
pub(crate) fn depth_allowed(deepest: u32, depth: u32) -> bool
    ensures { result ≡ depth_allowed deepest depth }
{
    depth <= deepest && depth <= DEEPEST && (0 < depth || deepest == 0)
}

// Whether f32 counts up to each of the samples without a gap.
pub(crate) fn all_exact<T: Sample>(samples: &[T]) -> bool
    ensures { result ≡ list_all T.Sample.exact samples.now }
{
    samples.iter().all(|sample| sample.is_exact())
}

// The largest sample of a depth.
pub(crate) fn full_of(depth: u32) -> u32
    requires { depth ≤ 24 }
    ensures { result ≡ full_of depth }
{
    (1 << depth) - 1
}
