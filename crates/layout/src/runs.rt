// Runs of a row whose samples lie a stride apart, from the row's first sample on.
ghost use Rattle.std.specs.Prelude.{◌≡◌, ℕ, ◌+◌, ◌*◌, ◌<◌, length, slice_index_or};
ghost use Rattle.std.specs.Float.{nan};
ghost use Rattle.layout.specs.Strides.{IsWritten, reaches};

pub(crate) fn read_run(samples: &[f32], column: usize, stride: usize, into: &mut [f32])
    requires wide { 0 < stride }
    requires room { reaches (length samples.now) stride (column + length into.old) }
    ensures { (k : ℕ) → k < length into.old → slice_index_or into.new k nan ≡ slice_index_or samples.now ((column + k) * stride) nan }
{
    if stride == 1 {
        into.copy_from_slice(&samples[column..column + into.len()]);
        return;
    }
    for (k, sample) in into.iter_mut().enumerate() {
        *sample = samples[(column + k) * stride];
    }
}

pub(crate) fn write_run(samples: &mut [f32], column: usize, stride: usize, from: &[f32])
    requires wide { 0 < stride }
    requires room { reaches (length samples.old) stride (column + length from.now) }
    ensures { IsWritten samples.old samples.new column stride from.now (length from.now) }
{
    if stride == 1 {
        samples[column..column + from.len()].copy_from_slice(from);
        return;
    }
    for (k, sample) in from.iter().enumerate() {
        samples[(column + k) * stride] = *sample;
    }
}
