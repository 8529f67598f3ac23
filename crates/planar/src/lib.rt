// A store in which plane follows plane, and in each row follows row.
// Its meaning is specs/Make.antt, and in prose docs/STORES.md.
#![tactic(auto)]

ghost use Rattle.std.specs.Prelude.{true, refl};
ghost use Rattle.planar.specs.Make.{planar_number, planar, planar_of};
ghost use Rattle.planar.specs.Numbers.{planar_numbers};

use layout::{Digit, Order, SliceStore, number_of};

// Runs lie in one piece, and are lent.
#[derive(Clone, Copy)]
pub struct PlaneAfterPlane;

impl Order for PlaneAfterPlane {
    const LENDS: bool = true;

    ghost LENDS = { true };

    ghost number = { λ columns rows _. planar_number columns rows };

    ghost stride = { λ _. 1 };

    ghost make = { planar };

    ghost means = { planar_of };

    ghost numbers = { planar_numbers };

    ghost makes = { λ _ _ _ _. refl };

    ghost meant = { λ _. refl };

    ghost side_by_side = { λ _ _. refl };

    fn number(plane: Digit, column: Digit, row: Digit) -> Option<usize> {
        number_of(plane, row, column)
    }

    fn stride(_planes: usize) -> usize {
        1
    }
}

pub type Planar<'a> = SliceStore<'a, PlaneAfterPlane>;
