// Orders: how the samples of a store's places follow one another in a slice.
ghost use Rattle.std.specs.Prelude.{◌≡◌, ℕ, Bool, true, List, Float};
ghost use Rattle.std.specs.Borrow.{GName};
ghost use Rattle.store.specs.Held.{Held};
ghost use Rattle.layout.specs.Layout.{in_range, ordered, Told, Numbers};
ghost use Rattle.layout.specs.Slices.{held_of};
ghost use Rattle.layout.specs.declared.slices.SliceStore.{SliceStore};

use crate::Digit;

pub trait Order {
    // whether runs are lent; what is lent lies in one piece
    const LENDS: bool;

    ghost LENDS: { Bool };

    // The number of a place, by the columns, the rows and the planes.
    ghost number: { ℕ → ℕ → ℕ → ℕ → ℕ → ℕ → ℕ };

    // How far apart the samples of a row lie, by the planes.
    ghost stride: { ℕ → ℕ };

    // What is made, in full, of samples, the name of their memory, columns and rows, and what a store in this order means.
    ghost make: { List Float → GName → ℕ → ℕ → Held };

    ghost means: { SliceStore Self → Held };

    // The number of a place; none where it is outside, or the number passes 64 bits.
    fn number(plane: Digit, column: Digit, row: Digit) -> Option<usize>
        ensures { Told (in_range plane.0 plane.1 column.0 column.1 row.0 row.1) (number column.1 row.1 plane.1 plane.0 column.0 row.0) result };

    fn stride(planes: usize) -> usize
        ensures { result ≡ stride planes };

    // What makes an order of these.
    ghost numbers: { Numbers number stride };

    // Both are the store that has these numbers.
    ghost makes: { (samples : List Float) (name : GName) (columns rows : ℕ) → make samples name columns rows ≡ ordered number samples name columns rows };

    ghost meant: { (s : SliceStore Self) → means s ≡ held_of number s };

    // What is lent lies side by side.
    ghost side_by_side: { LENDS ≡ true → (planes : ℕ) → stride planes ≡ 1 };
}
