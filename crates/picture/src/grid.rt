// A picture over samples that the caller keeps, of any sample kind.
ghost use Rattle.std.specs.Prelude.{◌≡◌, ◌+◌, ◌*◌, ◌≤◌, true, false, ◌&&◌, length, is_some, IfSome, IfOk, MatchOption};
ghost use denote.Memory.{mem};
ghost use Rattle.std.specs.List.{list_all};
ghost use Rattle.std.specs.Result.{result_err};
ghost use Rattle.picture.specs.Shapes.{shape_allowed, depth_allowed, grid_refusal, full_of, has_row, row_start, row_from, grid_of};
ghost use Rattle.picture.specs.Steps.{crosses};
ghost use Rattle.region.specs.Positions.{row_of};

use crate::{Picture, rows, shapes};
use refusal::Refusal;
use region::Region;
use sample::Sample;
use std::alloc::AllocError;

// The samples lie channel by channel and row by row; `full` is the largest of their depth.
pub struct Grid<'a, T> {
    channels: usize,
    region: Region,
    full: u32,
    samples: &'a [T],
    ghost borne_out: { shape_allowed channels region (length samples.now) ≡ true },
}

// By hand, since a derive copies no struct with a ghost field and a type parameter.
impl<'a, T> Copy for Grid<'a, T> {}

impl<'a, T> Clone for Grid<'a, T> {
    ghost is_clone = { λ g h. h ≡ g };

    ghost is_infallible = { λ _. Unit {0} };

    fn clone(&self) -> Result<Grid<'a, T>, AllocError> {
        Ok(*self)
    }
}

impl<'a, T: Sample> Grid<'a, T> {
    ghost use Rattle.picture.specs.Fields.{meaning_of};

    // The depth is one that the kind has, 0 for a kind that has none.
    pub fn new(
        channels: usize,
        region: Region,
        samples: &'a [T],
        depth: u32,
    ) -> Result<Grid<'a, T>, Refusal>
        ensures refusal { result_err result ≡ grid_refusal (shape_allowed channels region (length samples.now)) (depth_allowed T.Sample.DEEPEST depth && list_all T.Sample.exact samples.now) }
        ensures grid { IfOk result (λ g. (g.channels ≡ channels) × (g.region ≡ region) × (g.samples ≡ samples.entry) × (g.full ≡ full_of depth)) }
        ensures means { IfOk result (λ g. meaning_of T.Sample.value g ≡ grid_of T.Sample.value channels region samples.now (full_of depth)) }
    {
        let fits = shapes::shape_allowed(channels, region, samples.len());
        Refusal::GridShape.unless(fits)?;
        let depth_fits = shapes::depth_allowed(T::DEEPEST, depth);
        Refusal::SampleDepth.unless(depth_fits && shapes::all_exact(samples))?;
        Ok(Grid {
            channels,
            region,
            full: shapes::full_of(depth),
            samples,
        })
    }

    // Where a row begins among the samples; none where there is no such row.
    fn row_start(&self, channel: usize, row: usize) -> Option<usize>
        ensures { MatchOption result (has_row self.now.channels self.now.region channel row ≡ false) (λ start. (has_row self.now.channels self.now.region channel row ≡ true) × (start ≡ row_start self.now.region channel row) × (start + self.now.region.width ≤ length self.now.samples.now)) }
    {
        let height = self.region.height() as usize;
        // By an `if`: after `then` the proof stays open.
        if channel < self.channels && row < height {
            Some((channel * height + row) * self.region.width() as usize)
        } else {
            None
        }
    }

    // That very part of the caller's slice; none where the channel or the row is missing.
    pub fn get_row(&self, channel: usize, row: usize) -> Option<&'a [T]>
        ensures found { is_some result ≡ has_row self.now.channels self.now.region channel row }
        ensures contents { IfSome result (λ s. (length s.now ≡ self.now.region.width) × (s.now ≡ row_from self.now.region channel row self.now.samples.now)) }
        ensures place { IfSome result (λ s. (s.ref_ptr.0 ≡ self.now.samples.ref_ptr.0) × (s.ref_ptr.1 ≡ self.now.samples.ref_ptr.1 + row_start self.now.region channel row * (mem T.row).size)) }
    {
        let start = self.row_start(channel, row)?;
        Some(&self.samples[start..start + self.region.width() as usize])
    }

    // The row of a channel at a coordinate; none where the channel is missing or the region does not reach.
    fn row_at(&self, channel: usize, y: i64) -> Option<&'a [T]>
        ensures { MatchOption result (crosses self.now.channels self.now.region channel y ≡ false) (λ s. (crosses self.now.channels self.now.region channel y ≡ true) × (length s.now ≡ self.now.region.width) × (s.now ≡ row_from self.now.region channel (row_of self.now.region y) self.now.samples.now)) }
    {
        self.get_row(channel, steps::row_of(self.region, y)?)
    }
}

impl<'a, T: Sample> Picture for Grid<'a, T> {
    ghost use Rattle.picture.specs.Fields.{meaning_of};

    ghost meaning = { λ g. meaning_of T.Sample.value g };

    fn channels(&self) -> usize {
        self.channels
    }

    fn region(&self) -> Region {
        self.region
    }

    fn sample(&self, channel: usize, x: i32, y: i32) -> f32 {
        match self.row_at(channel, i64::from(y)) {
            Some(row) => rows::read_row(
                row,
                self.full,
                i64::from(self.region.left()),
                i64::from(x),
            ),
            None => 0.0,
        }
    }

    // One look for the row and one for its place serve the whole buffer.
    fn fill_far(&self, channel: usize, x: i64, y: i64, into: &mut [f32]) {
        match self.row_at(channel, y) {
            Some(row) => rows::write_row(row, self.full, i64::from(self.region.left()), x, into),
            None => into.fill(0.0),
        }
    }
}
