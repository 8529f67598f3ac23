// A store in which row follows row, and each column has its samples of all planes together.
// Its meaning is specs/Make.antt, and in prose docs/STORES.md.
#![tactic(auto)]

ghost use Rattle.std.specs.Prelude.{false, refl};
ghost use Rattle.interleaved.specs.Make.{interleaved_number, interleaved, interleaved_of};
ghost use Rattle.interleaved.specs.Numbers.{interleaved_numbers, none_lent};

use layout::{Digit, Order, SliceStore, number_of};

// The samples of a run lie as far apart as there are planes, and none is lent.
#[derive(Clone, Copy)]
pub struct PlanesTogether;

impl Order for PlanesTogether {
    const LENDS: bool = false;

    ghost LENDS = { false };

    ghost number = { λ columns _ planes. interleaved_number columns planes };

    ghost stride = { λ planes. planes };

    ghost make = { interleaved };

    ghost means = { interleaved_of };

    ghost numbers = { interleaved_numbers };

    ghost makes = { λ _ _ _ _. refl };

    ghost meant = { λ _. refl };

    ghost side_by_side = { none_lent };

    fn number(plane: Digit, column: Digit, row: Digit) -> Option<usize> {
        number_of(row, column, plane)
    }

    fn stride(planes: usize) -> usize {
        planes
    }
}

pub type Interleaved<'a> = SliceStore<'a, PlanesTogether>;
