// Reading the plates of an input, one behind the other.
ghost use Rattle.std.specs.Prelude.{◌≡◌, ◌+◌, ◌≤◌, drop, IfOk, MatchResult};
ghost use Rattle.std.specs.Result.{result_err};
ghost use Rattle.plate.specs.Fields.{bytes_of, meaning_of};
ghost use Rattle.plate.specs.Format.{length_of, plate_meaning, plate_refusal, first_alike};

use crate::{Plate, parts};
use byte_fields::rest;
use refusal::Refusal;

// The index of the next plate and its first byte. No more plates are read than bytes, since each has some.
#[derive(Clone, Copy)]
pub struct Reader {
    plate: usize,
    byte: usize,
    ghost fewer: { plate ≤ byte },
}

impl Reader {
    // At the beginning of an input.
    pub fn new() -> Reader
        ensures { (result.plate ≡ 0) × (result.byte ≡ 0) }
    {
        Reader { plate: 0, byte: 0 }
    }

    // The index of the plate that is read next.
    pub fn plate(self) -> usize
        ensures { result ≡ self.plate }
    {
        self.plate
    }

    // Where that plate begins.
    pub fn byte(self) -> usize
        ensures { result ≡ self.byte }
    {
        self.byte
    }

    // The plate that begins where the last one ended.
    pub fn next<'a>(&mut self, input: &'a [u8]) -> Result<Plate<'a>, Refusal>
        ensures refusal { result_err result ≡ plate_refusal (first_alike self.old.plate input.now) input.now self.old.byte }
        ensures plate { IfOk result (λ p. (bytes_of p ≡ drop self.old.byte input.now) × (meaning_of p ≡ plate_meaning (drop self.old.byte input.now))) }
        ensures place { MatchResult result (λ p. (self.new.plate ≡ self.old.plate + 1) × (self.new.byte ≡ self.old.byte + length_of (drop self.old.byte input.now))) (λ _. self.new ≡ self.old) }
    {
        let bytes = rest(input, self.byte);
        let plate = Plate::checked(self.plate, input, bytes)?;
        *self = Reader {
            plate: self.plate + 1,
            byte: self.byte + parts::length(bytes) as usize,
        };
        Ok(plate)
    }
}
