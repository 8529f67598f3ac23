// What is looked at before a plate is read.
ghost use Rattle.std.specs.Prelude.{◌≡◌, nat_lt};
ghost use Rattle.std.specs.List.{list_any};
ghost use Rattle.plate.specs.Format.{header_sound, channels_allowed};

use crate::{Plate, parts};
use byte_fields::{byte_at, word_at};
use machine::records::any_unknown;
use refusal::Refusal;

// The longest plate in bytes.
const LONGEST_PLATE: u64 = 1_073_741_824;

fn any_set(bytes: &[u8]) -> bool
    ensures { result ≡ list_any (nat_lt 0) bytes.now }
{
    bytes.iter().any(|byte| *byte > 0)
}

fn header_sound(bytes: &[u8]) -> bool
    ensures { result ≡ header_sound bytes.now }
{
    bytes.len() >= 64
        && word_at(bytes, 0) == 1
        && word_at(bytes, 60) == 0
        && !any_set(parts::unused_kinds(bytes))
}

// As start looks at them, but that a plate may tell of more extra channels than it has kind bytes.
fn channels_allowed(bytes: &[u8]) -> bool
    ensures { result ≡ channels_allowed bytes.now }
{
    let colors = parts::colors(bytes);
    (colors == 1 || colors == 3) && parts::extras(bytes) <= 8 && !any_unknown(parts::kinds(bytes))
}

impl<'a> Plate<'a> {
    ghost use Rattle.std.specs.Prelude.{◌+◌, ◌∷◌, [], IfOk};
    ghost use Rattle.std.specs.Result.{result_err};
    ghost use Rattle.machine.specs.Checks.{◌unless◌, first_broken, frame_allowed};
    ghost use Rattle.refusal.specs.declared.Refusal.TheVariants as why;
    ghost use Rattle.plate.specs.Format.{header_of, formulas_hold, clamp_broken, extras_of, agrees, content_allowed, plate_checks, first_alike};
    ghost use Rattle.plate.specs.Fields.{bytes_of};

    // A plate whose channels and frame keep within their limits.
    fn within_limits(bytes: &'a [u8]) -> Result<Plate<'a>, Refusal>
        ensures refusal { result_err result ≡ first_broken ((why.ChannelKinds unless channels_allowed bytes.now) ∷ ((why.FrameLimits unless frame_allowed (header_of bytes.now)) ∷ [])) }
        ensures plate { IfOk result (λ p. bytes_of p ≡ bytes.now) }
    {
        Refusal::ChannelKinds.unless(channels_allowed(bytes))?;
        let header = parts::header(bytes);
        Refusal::FrameLimits.unless(header.is_allowed())?;
        let extras = parts::extras(bytes);
        Ok(Plate {
            bytes,
            channels: (parts::colors(bytes) + extras) as u8,
            start: (64 + 4 * (extras + 1)) as u8,
            width: header.width as u16,
            height: header.height as u16,
        })
    }

    // The offsets, the count and the length are those that the channels and the sides ask for.
    fn formulas_hold(&self) -> bool
        ensures { result ≡ formulas_hold (bytes_of self.now) }
    {
        let start = u64::from(word_at(self.bytes, 48));
        let count = u64::from(word_at(self.bytes, 52));
        let length = u64::from(parts::length(self.bytes));
        word_at(self.bytes, 44) == 64
            && start == u64::from(self.start)
            && count == u64::from(self.channels) * u64::from(self.width) * u64::from(self.height)
            && length == start + 4 * count
            && length <= LONGEST_PLATE
    }

    // Whether one of the records' clamp bytes is neither 0 nor 1.
    fn clamp_broken(&self) -> bool
        ensures { result ≡ clamp_broken (bytes_of self.now) (extras_of (bytes_of self.now) + 1) }
    {
        let count = parts::extras(self.bytes) as usize + 1;
        (0..count).any(|k| byte_at(self.bytes, 66 + 4 * k) > 1)
    }

    // The first plate of an input begins at its byte 0, and has none to agree with: by the number that the reader keeps. It is asked once
    // whether it is 0; an `Option` of the first plate's bytes would need a definition beside `first_alike`.
    fn agrees_with_first(&self, plate: usize, input: &[u8]) -> bool
        ensures { result ≡ agrees (first_alike plate input.now) (bytes_of self.now) }
    {
        plate == 0 || self.colors() == parts::colors(input) && self.kinds() == parts::kinds(input)
    }

    fn content_allowed(&self, plate: usize, input: &[u8]) -> bool
        ensures { result ≡ content_allowed (first_alike plate input.now) (bytes_of self.now) }
    {
        !self.clamp_broken() && self.agrees_with_first(plate, input)
    }

    // The plate with this index among those of an input, by the bytes from its first on.
    pub(crate) fn checked(
        number: usize,
        input: &[u8],
        bytes: &'a [u8],
    ) -> Result<Plate<'a>, Refusal>
        ensures refusal { result_err result ≡ first_broken (plate_checks (first_alike number input.now) bytes.now) }
        ensures plate { IfOk result (λ p. bytes_of p ≡ bytes.now) }
    {
        Refusal::PlateHeader.unless(header_sound(bytes))?;
        let plate = Plate::within_limits(bytes)?;
        Refusal::PlateFormula.unless(plate.formulas_hold())?;
        Refusal::PlateCut.unless(parts::length(bytes) as usize <= bytes.len())?;
        Refusal::PlateContent.unless(plate.content_allowed(number, input))?;
        Ok(plate)
    }
}
