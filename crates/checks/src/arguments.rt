// What the arguments of open and patch decide.
ghost use Rattle.std.specs.Prelude.{◌≡◌, ℕ, suc, ◌+◌, ◌&&◌, ◌||◌, length, ◌==◌, nat_le, nat_lt};
ghost use Rattle.std.specs.List.{list_any};
ghost use Rattle.std.specs.Result.{result_err};
ghost use Rattle.region.specs.declared.Region.{Region};
ghost use Rattle.region.specs.Bounds.{place_allowed};
ghost use Rattle.region.specs.Positions.{is_empty, is_allowed};
ghost use Rattle.blend.specs.Modes.{any_extra, frame_reads_alpha, patch_reads_alpha};
ghost use Rattle.machine.specs.Calls.{Canvas};
ghost use Rattle.machine.specs.Checks.{frame_mode_of, patch_mode_of, rectangle_inside, first_broken, open_checks, patch_checks};

use blend::{FrameBlendMode, Kind, PatchBlendMode};
use machine::records::{frame_mode, patch_mode};
use machine::{FrameRecord, Header, PatchRecord, Rectangle};
use refusal::Refusal;
use region::Region;
use region::axes::is_within;
use region::limits::place_allowed;

// The channels of a stage: how many colours, and what each extra channel holds.
#[derive(Clone, Copy)]
pub struct Channels<'a> {
    pub colors: usize,
    pub kinds: &'a [Kind],
}

// What a picture is looked at by: its channels and its region.
#[derive(Clone, Copy)]
pub struct Shape {
    pub channels: usize,
    pub region: Region,
}

impl<'a> Channels<'a> {
    // One record for the colours, and one for each extra channel.
    fn has_records(self, records: usize) -> bool
        ensures { result ≡ (records == suc (length self.entry.kinds.now)) }
    {
        records.checked_sub(1) == Some(self.kinds.len())
    }

    fn are_those_of(self, image: Shape) -> bool
        ensures { result ≡ (image.channels == self.entry.colors + length self.entry.kinds.now) }
    {
        image.channels.checked_sub(self.colors) == Some(self.kinds.len())
    }
}

impl Shape {
    // The region is empty, or one that a stage works on.
    fn is_allowed(self) -> bool
        ensures { result ≡ (is_empty self.region || is_allowed self.region) }
    {
        self.region.is_empty() || self.region.is_allowed()
    }
}

fn any_source_missing(records: &[FrameRecord]) -> bool
    ensures { result ≡ list_any (λ r. nat_le 4 r.source) records.now }
{
    records.iter().any(|r| r.source >= 4)
}

fn any_frame_mode_unknown(records: &[FrameRecord]) -> bool
    ensures { result ≡ list_any (λ r. nat_lt 4 r.mode) records.now }
{
    records
        .iter()
        .any(|r| FrameBlendMode::try_from(r.mode).is_err())
}

fn any_patch_mode_unknown(records: &[PatchRecord]) -> bool
    ensures { result ≡ list_any (λ r. nat_lt 7 r.mode) records.now }
{
    records
        .iter()
        .any(|r| PatchBlendMode::try_from(r.mode).is_err())
}

// Whether a frame's record reads an alpha that does not exist.
fn any_frame_alpha_missing(kinds: &[Kind], records: &[FrameRecord]) -> bool
    ensures { result ≡ list_any (λ r. frame_reads_alpha (any_extra kinds.now) (frame_mode_of r.mode) && nat_le (length kinds.now) r.alpha) records.now }
{
    let has_extra = !kinds.is_empty();
    let extras = kinds.len();
    records.iter().any(|r| frame_mode(r.mode).reads_alpha(has_extra) && r.alpha as usize >= extras)
}

// Whether a patch's record reads an alpha that does not exist.
fn any_patch_alpha_missing(kinds: &[Kind], records: &[PatchRecord]) -> bool
    ensures { result ≡ list_any (λ r. patch_reads_alpha (patch_mode_of r.mode) && nat_le (length kinds.now) r.alpha) records.now }
{
    let extras = kinds.len();
    records.iter().any(|r| patch_mode(r.mode).reads_alpha() && r.alpha as usize >= extras)
}

pub fn open_refusal(
    channels: Channels,
    header: Header,
    records: &[FrameRecord],
    image: Shape,
) -> Result<(), Refusal>
    ensures { (mark : ℕ) (tile : Region) (values : Canvas) → result_err result ≡ first_broken (open_checks (record { mark = mark; region = tile; colors = channels.entry.colors; kinds = channels.entry.kinds.now }) header records.now (record { channels = image.channels; region = image.region; values = values })) }
{
    Refusal::FrameLimits.unless(header.is_allowed())?;
    Refusal::SlotNumber.unless(header.target < 4 && !any_source_missing(records))?;
    Refusal::RecordCount.unless(channels.has_records(records.len()))?;
    Refusal::ModeNumber.unless(!any_frame_mode_unknown(records))?;
    Refusal::MissingAlpha.unless(!any_frame_alpha_missing(channels.kinds, records))?;
    Refusal::PictureChannels.unless(channels.are_those_of(image))?;
    Refusal::PictureLimits.unless(image.is_allowed())
}

// The rectangle has both sides, and lies inside the sheet.
fn rectangle_inside(rectangle: Rectangle, sheet: Region) -> bool
    ensures { result ≡ rectangle_inside rectangle sheet }
{
    let across = is_within(sheet.left(), sheet.width(), rectangle.left, rectangle.width);
    let down = is_within(sheet.top(), sheet.height(), rectangle.top, rectangle.height);
    rectangle.width > 0 && rectangle.height > 0 && across && down
}

fn both_allowed(x: i32, y: i32) -> bool
    ensures { result ≡ (place_allowed x && place_allowed y) }
{
    place_allowed(x) && place_allowed(y)
}

pub fn patch_refusal(
    channels: Channels,
    rectangle: Rectangle,
    x: i32,
    y: i32,
    records: &[PatchRecord],
    sheet: Shape,
) -> Result<(), Refusal>
    ensures { (mark : ℕ) (tile : Region) (values : Canvas) → result_err result ≡ first_broken (patch_checks (record { mark = mark; region = tile; colors = channels.entry.colors; kinds = channels.entry.kinds.now }) (record { rectangle = rectangle; x = x; y = y; records = records.now; sheet = record { channels = sheet.channels; region = sheet.region; values = values } })) }
{
    Refusal::RecordCount.unless(channels.has_records(records.len()))?;
    Refusal::ModeNumber.unless(!any_patch_mode_unknown(records))?;
    Refusal::MissingAlpha.unless(!any_patch_alpha_missing(channels.kinds, records))?;
    Refusal::PictureChannels.unless(channels.are_those_of(sheet))?;
    Refusal::PictureLimits.unless(sheet.is_allowed())?;
    Refusal::PatchRectangle.unless(rectangle_inside(rectangle, sheet.region))?;
    Refusal::PatchPlace.unless(both_allowed(x, y))
}
