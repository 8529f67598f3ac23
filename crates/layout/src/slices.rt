// A store over a slice that the caller lends, in any order of places.
ghost use Rattle.std.specs.Prelude.{◌≡◌, ℕ, ◌+◌, ◌<◌, ◌&&◌, length, is_some, IfSome, slice_index_or};
ghost use Rattle.std.specs.Float.{nan};
ghost use Rattle.store.specs.Held.{inside, seen, run_inside};
ghost use Rattle.layout.specs.Layout.{ordered, Found};
ghost use Rattle.layout.specs.Slices.{held_of};

use crate::runs::{read_run, write_run};
use crate::{Digit, Order, planes_of};
use std::marker::PhantomData;
use store::Store;
use store::runs::row_has;

#[derive(Drop)]
pub struct SliceStore<'a, O> {
    samples: &'a mut [f32],
    columns: usize,
    rows: usize,
    order: PhantomData<O>,
}

impl<'a, O: Order> SliceStore<'a, O> {
    pub fn new(samples: &'a mut [f32], columns: usize, rows: usize) -> SliceStore<'a, O>
        ensures held { held_of O.number result ≡ ordered O.number samples.old samples.entry.ghost_name columns rows }
        ensures made { O.means result ≡ O.make samples.old samples.entry.ghost_name columns rows }
    {
        SliceStore {
            samples,
            columns,
            rows,
            order: PhantomData,
        }
    }

    // The number of a place, where it is inside.
    fn number(&self, plane: usize, column: usize, row: usize) -> Option<usize>
        ensures { let h = held_of O.number self.now in Found (inside h plane column row) (O.number h.columns h.rows h.planes plane column row) (length self.now.samples.now) result }
    {
        O::number(
            Digit(plane, self.planes()),
            Digit(column, self.columns),
            Digit(row, self.rows),
        )
    }

    // How far apart the samples of a row lie.
    fn stride(&self) -> usize
        ensures { result ≡ O.stride (held_of O.number self.now).planes }
    {
        O::stride(self.planes())
    }
}

impl<'a, O: Order> Store for SliceStore<'a, O> {
    ghost held = { held_of O.number };

    fn columns(&self) -> usize {
        self.columns
    }

    fn rows(&self) -> usize {
        self.rows
    }

    fn planes(&self) -> usize {
        planes_of(self.samples.len(), self.columns, self.rows)
    }

    fn get(&self, plane: usize, column: usize, row: usize) -> f32 {
        self.number(plane, column, row)
            .map_or(0.0, |place| self.samples[place])
    }

    fn put(&mut self, plane: usize, column: usize, row: usize, value: f32) -> bool {
        let Some(place) = self.number(plane, column, row) else {
            return false;
        };
        self.samples[place] = value;
        true
    }

    fn load(&self, plane: usize, column: usize, row: usize, into: &mut [f32]) {
        match self.number(plane, 0, row) {
            Some(first) if column < self.columns => {
                let count = into.len().min(self.columns - column);
                read_run(
                    &self.samples[first..],
                    column,
                    self.stride(),
                    &mut into[..count],
                );
                into[count..].fill(0.0);
            }
            _ => into.fill(0.0),
        }
    }

    // Lends each run that is inside, in an order that lends.
    fn lend(&self, plane: usize, column: usize, row: usize, count: usize) -> Option<&[f32]>
        ensures run { IfSome result (λ run. (length run.now ≡ count) × ((k : ℕ) → k < count → slice_index_or run.now k nan ≡ seen (held_of O.number self.now) plane (column + k) row)) }
        ensures whole { is_some result ≡ (O.LENDS && run_inside (held_of O.number self.now) plane column row count) }
    {
        if !O::LENDS || !row_has(self.columns, column, count) {
            return None;
        }
        let first = self.number(plane, 0, row)? + column;
        Some(&self.samples[first..first + count])
    }

    fn save(&mut self, plane: usize, column: usize, row: usize, from: &[f32]) -> bool {
        if !row_has(self.columns, column, from.len()) {
            return false;
        }
        let Some(first) = self.number(plane, 0, row) else {
            return false;
        };
        let stride = self.stride();
        write_run(&mut self.samples[first..], column, stride, from);
        true
    }
}
