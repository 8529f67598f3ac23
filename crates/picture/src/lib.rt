// Pictures: what a stage is handed to draw. Any type may be one that answers its channels, its region and its samples.
// Promise: each make's answers are its meaning, and reading a sample changes nothing.
// The meaning is specs/Meaning.antt, that of grids specs/Shapes.antt and of their fields specs/Fields.antt, and in prose docs/PICTURES.md.
#![tactic(auto)]

ghost use Rattle.std.specs.Prelude.{◌≡◌, ℕ, ◌<◌, length, pos, ◌+ℤ◌, slice_index_or};
ghost use Rattle.std.specs.Float.{nan};
ghost use Rattle.picture.specs.Meaning.{Meaning, value_at};

use region::Region;

pub mod blank;
pub mod grid;
mod rows;
mod shapes;

pub use blank::Blank;
pub use grid::Grid;

pub trait Picture {
    ghost meaning: { Self → Meaning };

    fn channels(&self) -> usize
        ensures { result ≡ (meaning self.now).channels };

    // One region for all channels; it may be empty.
    fn region(&self) -> Region
        ensures { result ≡ (meaning self.now).region };

    // The sample of a channel at a position; 0.0 where there is none.
    fn sample(&self, channel: usize, x: i32, y: i32) -> f32
        ensures { result ≡ value_at (meaning self.now) channel x y };

    // The samples of a row from a position on, as many as the buffer takes.
    fn fill(&self, channel: usize, x: i32, y: i32, into: &mut [f32])
        ensures { (k : ℕ) → k < length into.old → slice_index_or into.new k nan ≡ value_at (meaning self.now) channel (x +ℤ pos k) y }
    {
        self.fill_far(channel, i64::from(x), i64::from(y), into);
    }

    // The same from any position on; 0.0 also where no i32 reaches.
    fn fill_far(&self, channel: usize, x: i64, y: i64, into: &mut [f32])
        ensures { (k : ℕ) → k < length into.old → slice_index_or into.new k nan ≡ value_at (meaning self.now) channel (x +ℤ pos k) y }
    {
        let Ok(row) = i32::try_from(y) else {
            into.fill(0.0);
            return;
        };
        for (k, place) in into.iter_mut().enumerate() {
            *place = match steps::onward(x, k) {
                Some(column) => self.sample(channel, column, row),
                None => 0.0,
            };
        }
    }
}
