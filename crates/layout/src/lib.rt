// Stores over a slice of samples that the caller lends, by the order in which the samples of the places lie in it.
// Promise: whole planes are counted as the definition says, and every order of places makes a store of the slice.
// The definitions are specs/Layout.antt and specs/Slices.antt, and in prose docs/STORES.md.
#![tactic(auto)]

ghost use Rattle.std.specs.Prelude.{◌≡◌};
ghost use Rattle.layout.specs.Layout.{planes_of, in_range, number_of, Told};

mod order;
mod runs;
mod slices;

pub use order::Order;
pub use slices::SliceStore;

// The longest side that a store has.
pub const LONGEST: usize = 16_384;

// How many whole planes there are among the samples.
pub fn planes_of(samples: usize, columns: usize, rows: usize) -> usize
    ensures { result ≡ planes_of samples columns rows }
{
    if columns == 0 || rows == 0 || columns > LONGEST || rows > LONGEST {
        return 0;
    }
    samples / (columns * rows)
}

// A digit of a place number, and how many values it takes.
#[derive(Clone, Copy)]
pub struct Digit(pub usize, pub usize);

// The number that three digits write, the slowest first; none where a digit is out of range, or the number passes 64 bits.
// A fold over an array of digits is no plainer: the first needs no check of its own, and a closure would hold the other two.
pub fn number_of(slow: Digit, middle: Digit, fast: Digit) -> Option<usize>
    ensures { Told (in_range slow.0 slow.1 middle.0 middle.1 fast.0 fast.1) (number_of slow.0 middle.0 middle.1 fast.0 fast.1) result }
{
    if slow.0 >= slow.1 || middle.0 >= middle.1 || fast.0 >= fast.1 {
        return None;
    }
    let high = slow.0.checked_mul(middle.1)?.checked_add(middle.0)?;
    high.checked_mul(fast.1)?.checked_add(fast.0)
}
