// Stores: f32 samples in planes of columns and rows.
// Promise: every make reads, writes and tells its sizes as its meaning says, and each contract speaks of every place.
// The meaning is specs/Held.antt, and in prose docs/STORES.md.
#![tactic(auto)]

ghost use Rattle.std.specs.Prelude.{◌≡◌, ℕ, ◌+◌, ◌-◌, ◌<◌, ◌&&◌, length, get_or, IfSome, slice_index_or};
ghost use Rattle.std.specs.Float.{nan};
ghost use Rattle.store.specs.Held.{Held, inside, seen, in_run, run_inside, Changed};

pub mod runs;

use runs::row_has;

// A place is told by three plain numbers: a struct of them would be made by every caller and taken apart at once by every make.
pub trait Store {
    ghost held: { Self → Held };

    fn columns(&self) -> usize
        ensures { result ≡ (held self.now).columns };

    fn rows(&self) -> usize
        ensures { result ≡ (held self.now).rows };

    fn planes(&self) -> usize
        ensures { result ≡ (held self.now).planes };

    // The sample at a place; 0.0 outside.
    fn get(&self, plane: usize, column: usize, row: usize) -> f32
        ensures { result ≡ seen (held self.now) plane column row };

    // Writes one place and says yes; outside says no and writes nothing. A yes or a no, here and at `save`, since there is nothing else to tell.
    fn put(&mut self, plane: usize, column: usize, row: usize, value: f32) -> bool
        ensures said { result ≡ inside (held self.old) plane column row }
        ensures places { Changed (held self.old) (held self.new) (in_run plane column row 1) (λ _ _ _. value) };

    // Reads a run into a buffer; 0.0 outside.
    fn load(&self, plane: usize, column: usize, row: usize, into: &mut [f32])
        ensures { (k : ℕ) → k < length into.old → slice_index_or into.new k nan ≡ seen (held self.now) plane (column + k) row }
    {
        // All columns past the last read alike, so clipping keeps the sum in range and the sample as it is.
        let columns = self.columns();
        for (k, sample) in into.iter_mut().enumerate() {
            *sample = self.get(plane, column.saturating_add(k).min(columns), row);
        }
    }

    // A run as it lies in the store's memory, where it lies there in one piece.
    fn lend(&self, plane: usize, column: usize, row: usize, count: usize) -> Option<&[f32]>
        ensures run { IfSome result (λ run. (length run.now ≡ count) × ((k : ℕ) → k < count → slice_index_or run.now k nan ≡ seen (held self.now) plane (column + k) row)) }
    {
        None
    }

    // Writes a run and says yes; where a place of it is outside, says no and writes nothing.
    fn save(&mut self, plane: usize, column: usize, row: usize, from: &[f32]) -> bool
        ensures said { result ≡ run_inside (held self.old) plane column row (length from.now) }
        ensures places { Changed (held self.old) (held self.new) (λ p c s. result && in_run plane column row (length from.now) p c s) (λ _ c _. get_or from.now (c - column) nan) }
    {
        if plane >= self.planes()
            || row >= self.rows()
            || !row_has(self.columns(), column, from.len())
        {
            return false;
        }
        for (k, sample) in from.iter().enumerate() {
            self.put(plane, column + k, row, *sample);
        }
        true
    }
}
