// The library of `lay`: from the bytes of its input to the text that it prints.
// Promise: the text is the definition's. For now it decides what the input's length alone decides, and reads no plate.
// The definition is specs/Printout.antt, and in prose docs/LAY.md.
#![tactic(auto)]

ghost use Rattle.std.specs.Prelude.{◌≡◌, length, Some, IfOk, string_bytes};
ghost use Rattle.std.specs.Result.{result_err};
ghost use Rattle.laying.specs.Printout.{refused_by, refused_text, refused_line, printed};

use refusal::{Fault, Refusal};
use std::alloc::{AllocError, Global};
use std::fmt;

// The longest input in bytes.
pub const LONGEST_INPUT: usize = 65_536;
// The bytes of a plate's header.
pub const HEADER_LENGTH: usize = 64;

// A fault, with the plate that met it, counted from 0, and that plate's first byte.
#[derive(Clone, Copy)]
pub struct Refused {
    pub fault: Fault,
    pub plate: usize,
    pub byte: usize,
}

// What is refused of an input before a plate is read. By two `if`: `unless` answers a refusal without plate and byte.
pub fn refused_by(input: &[u8]) -> Result<(), Refused>
    ensures { result_err result ≡ refused_by (length input.now) }
{
    if input.len() > LONGEST_INPUT {
        return Err(Refused {
            fault: Fault::Input(Refusal::InputLength),
            plate: 0,
            byte: LONGEST_INPUT,
        });
    }
    if input.len() < HEADER_LENGTH {
        return Err(Refused {
            fault: Fault::Plate(Refusal::PlateHeader),
            plate: 0,
            byte: 0,
        });
    }
    Ok(())
}

impl fmt::Display for Refused {
    ghost output = { λ r. Some (refused_text r) };

    fn fmt<W: fmt::Write>(&self, f: &mut fmt::Formatter<W>) -> fmt::Result {
        let number = self.fault.refusal().number();
        let layer = self.fault.layer();
        write!(f, "refused {number} {layer} {} {}", self.plate, self.byte)
    }
}

// The line that tells a refusal: what `Display` writes, and the line's end. It is public, for callers that print the line alone.
pub fn refused_line(heap: Global, refused: Refused) -> Result<String, AllocError>
    ensures { IfOk result (λ text. string_bytes text ≡ refused_line refused) }
{
    format!(in heap; "{refused}\n")
}

// All that `lay` prints for an input.
pub fn printout(heap: Global, input: &[u8]) -> Result<String, AllocError>
    ensures { IfOk result (λ text. string_bytes text ≡ printed (refused_by (length input.now))) }
{
    match refused_by(input) {
        Err(refused) => refused_line(heap, refused),
        Ok(()) => Ok(String::new(heap)),
    }
}
