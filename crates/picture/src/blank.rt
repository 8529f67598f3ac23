// A picture of 0.0 throughout.
ghost use Rattle.std.specs.Prelude.{◌≡◌};
ghost use Rattle.picture.specs.Meaning.{blank};

use crate::Picture;
use region::Region;

#[derive(Clone, Copy)]
pub struct Blank {
    channels: usize,
    region: Region,
}

impl Blank {
    pub fn new(channels: usize, region: Region) -> Blank
        ensures { blank result.channels result.region ≡ blank channels region }
    {
        Blank { channels, region }
    }
}

impl Picture for Blank {
    ghost meaning = { λ b. blank b.channels b.region };

    fn channels(&self) -> usize {
        self.channels
    }

    fn region(&self) -> Region {
        self.region
    }

    fn sample(&self, _channel: usize, _x: i32, _y: i32) -> f32 {
        0.0
    }

    fn fill_far(&self, _channel: usize, _x: i64, _y: i64, into: &mut [f32]) {
        into.fill(0.0);
    }
}
