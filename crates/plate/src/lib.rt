// Plates: frames as bytes, read where they lie, and drawn as pictures.
// Promise: a plate is refused exactly as its definition says, and its numbers, records and samples are those of its bytes.
// The definition is specs/Format.antt, and in prose docs/PLATES.md.
#![tactic(auto)]

ghost use Rattle.std.specs.Prelude.{◌≡◌, ◌≤◌};
ghost use Rattle.plate.specs.Format.{colors_of, extras_of, channels_of, header_of, samples_from};

use arrayvec::ArrayVec;
use byte_fields::float_at;
use machine::{FrameRecord, Header};
use picture::Picture;
use region::Region;

mod checks;
mod parts;
pub mod reader;
mod samples;

pub use reader::Reader;

// The bytes from the plate's first on, and of its header what every sample needs, read once: `start` is the first sample's byte.
// Two sides and no region: a plate is copied and kept, and asked for each of its samples.
#[derive(Clone, Copy)]
pub struct Plate<'a> {
    bytes: &'a [u8],
    channels: u8,
    start: u8,
    width: u16,
    height: u16,
    ghost few: { (colors_of bytes.now ≤ 3) × (extras_of bytes.now ≤ 8) },
    ghost short: { ((header_of bytes.now).width ≤ 16384) × ((header_of bytes.now).height ≤ 16384) },
    ghost channels_told: { channels ≡ channels_of bytes.now },
    ghost start_told: { start ≡ samples_from (extras_of bytes.now) },
    ghost sides_told: { (width ≡ (header_of bytes.now).width) × (height ≡ (header_of bytes.now).height) },
}

impl<'a> Plate<'a> {
    ghost use Rattle.plate.specs.Format.{kinds_of, records_of};
    ghost use Rattle.plate.specs.Fields.{bytes_of};

    pub fn header(&self) -> Header
        ensures { result ≡ header_of (bytes_of self.now) }
    {
        parts::header(self.bytes)
    }

    pub fn colors(&self) -> u32
        ensures { result ≡ colors_of (bytes_of self.now) }
    {
        parts::colors(self.bytes)
    }

    // One for each extra channel.
    pub fn kinds(&self) -> &'a [u8]
        ensures { result.now ≡ kinds_of (bytes_of self.now) }
    {
        parts::kinds(self.bytes)
    }

    // The first for all colours, then one for each extra channel.
    pub fn records(&self) -> ArrayVec<FrameRecord, 9>
        ensures { result.items ≡ records_of (bytes_of self.now) }
    {
        parts::records(self.bytes)
    }
}

impl<'a> Picture for Plate<'a> {
    ghost use Rattle.plate.specs.Fields.{meaning_of};

    ghost meaning = { λ p. meaning_of p };

    fn channels(&self) -> usize {
        usize::from(self.channels)
    }

    fn region(&self) -> Region {
        samples::sides(self.width, self.height)
    }

    fn sample(&self, channel: usize, x: i32, y: i32) -> f32 {
        // By a match, here and for grids: after a `map_or` the proof stays open.
        match samples::number_of(self.channels, self.width, self.height, channel, x, y) {
            Some(number) => float_at(self.bytes, usize::from(self.start) + 4 * number),
            None => 0.0,
        }
    }
}
