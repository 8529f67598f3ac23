// What a stage's own state decides of a call: whether a frame is open, its ticket, the last blended number, and the sizes of the store.
// Promise: each function answers exactly the definition's refusal, and none where no condition is broken.
// The definition is specs/Checks.antt of crate `machine`, and in prose docs/STAGE.md and docs/REFUSALS.md.
#![tactic(auto)]

ghost use Rattle.std.specs.Prelude.{◌≡◌, ℕ, ◌&&◌, List, ◌++◌, nat_le};
ghost use Rattle.std.specs.Result.{result_err};
ghost use Rattle.region.specs.declared.Region.{Region};
ghost use Rattle.blend.specs.declared.modes.Kind.{Kind};
ghost use Rattle.machine.specs.Checks.{first_broken, open_state, draw_state, clear_state, slot_check, ticket_checks, planes_needed};

use machine::{Size, Stamp};
use refusal::Refusal;

// Whether a store of that size has every position of a region with these sides, in all planes of a stage with so many channels.
pub fn fits_store(size: Size, width: u32, height: u32, channels: u32) -> bool
    ensures { result ≡ ((nat_le width size.columns && nat_le height size.rows) && nat_le (planes_needed channels) size.planes) }
{
    width as usize <= size.columns
        && height as usize <= size.rows
        && 5 * channels as usize <= size.planes
}

// Opening a frame: none is open, its number is above the last one, and the store fits.
pub fn open_state(current: Option<u32>, last: u32, number: u32, fits: bool) -> Result<(), Refusal>
    ensures { result_err result ≡ first_broken (open_state current last number fits) }
{
    Refusal::FrameOpen.unless(current.is_none())?;
    Refusal::FrameNumber.unless(last < number)?;
    Refusal::OutsideStore.unless(fits)
}

// A ticket against the stage's mark and the number of the open frame.
pub fn ticket_state(mark: u32, current: Option<u32>, stamp: Stamp) -> Result<(), Refusal>
    ensures { (region : Region) (colors : ℕ) (kinds : List Kind) → result_err result ≡ first_broken (ticket_checks (record { mark = mark; region = region; colors = colors; kinds = kinds }) current stamp) }
{
    let number = current.ok_or(Refusal::NoFrameOpen)?;
    Refusal::WrongTicket.unless(stamp == Stamp { mark, number })
}

// Drawing on the open frame, or from it: its ticket, and the store fits.
pub fn drawing_state(
    mark: u32,
    current: Option<u32>,
    stamp: Stamp,
    fits: bool,
) -> Result<(), Refusal>
    ensures { (region : Region) (colors : ℕ) (kinds : List Kind) → result_err result ≡ first_broken (draw_state (record { mark = mark; region = region; colors = colors; kinds = kinds }) current stamp fits) }
{
    ticket_state(mark, current, stamp).and(Refusal::OutsideStore.unless(fits))
}

// Clearing a slot: there is such a slot, and no frame is open.
pub fn clear_state(slot: u32, current: Option<u32>) -> Result<(), Refusal>
    ensures { result_err result ≡ first_broken (slot_check slot ++ clear_state current) }
{
    Refusal::SlotNumber.unless(slot < 4)?;
    Refusal::FrameOpen.unless(current.is_none())
}
