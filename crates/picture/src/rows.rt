// Rows of samples, read as f32. A row is its samples and the largest of their depth, as two parameters: each function cuts the samples or goes through them,
// and would take a struct of both apart.
ghost use Rattle.std.specs.Prelude.{◌≡◌, ℕ, ◌+◌, ◌-◌, ◌<◌, map, length, pos, ◌+ℤ◌, if◌then◌else◌, nat_lt, slice_index_or};
ghost use Rattle.std.specs.Float.{nan};
ghost use Rattle.sample.specs.Samples.{zero};
ghost use Rattle.picture.specs.Steps.{row_at};

use sample::Sample;

// What a row that begins at the coordinate `left` holds at `x`; 0.0 where it does not reach.
pub(crate) fn read_row<T: Sample>(row: &[T], full: u32, left: i64, x: i64) -> f32
    ensures { result ≡ row_at (λ s. T.Sample.value s full) left row.now x }
{
    match steps::index_of(left, row.len(), x) {
        Some(column) => row[column].to_f32(full),
        None => 0.0,
    }
}

// Writes each sample of a row into a buffer that is as long.
// The row is read by place, since what a zip with `iter_mut` writes is not known after the loop.
fn convert<T: Sample>(row: &[T], full: u32, into: &mut [f32])
    requires { length row.now ≡ length into.old }
    ensures { into.new ≡ map (λ s. T.Sample.value s full) row.now }
{
    for (column, place) in into.iter_mut().enumerate() {
        *place = row[column].to_f32(full);
    }
}

// Writes the row, and 0.0 past its end.
fn write_whole<T: Sample>(row: &[T], full: u32, into: &mut [f32])
    ensures { (k : ℕ) → k < length into.old → slice_index_or into.new k nan ≡ slice_index_or (map (λ s. T.Sample.value s full) row.now) k zero }
{
    let count = row.len().min(into.len());
    convert(&row[..count], full, &mut into[..count]);
    into[count..].fill(0.0);
}

// Writes 0.0 into the first `lead` places, and then the row from its column `skip` on.
fn write_from<T: Sample>(row: &[T], full: u32, lead: usize, skip: usize, into: &mut [f32])
    ensures { (k : ℕ) → k < length into.old → slice_index_or into.new k nan ≡ (if nat_lt k lead then zero else slice_index_or (map (λ s. T.Sample.value s full) row.now) (skip + (k - lead)) zero) }
{
    let start = lead.min(into.len());
    let from = skip.min(row.len());
    into[..start].fill(0.0);
    write_whole(&row[from..], full, &mut into[start..]);
}

// Writes what a row that begins at the coordinate `left` holds from `x` on; 0.0 where it does not reach.
pub(crate) fn write_row<T: Sample>(row: &[T], full: u32, left: i64, x: i64, into: &mut [f32])
    ensures { (k : ℕ) → k < length into.old → slice_index_or into.new k nan ≡ row_at (λ s. T.Sample.value s full) left row.now (x +ℤ pos k) }
{
    write_from(row, full, steps::gap(x, left), steps::gap(left, x), into);
}
