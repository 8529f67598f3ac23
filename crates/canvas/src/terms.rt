// What a stage keeps of its start and of the open frame, and a patch as a call hands it over.
ghost use Rattle.std.specs.Prelude.{◌<◌, ◌≤◌};

use blend::{BlendingInfo, Kind};
use machine::{Header, PatchRecord, Rectangle};
use region::Region;

// What start took. The first `extras` of the kinds are those of the extra channels.
// An array with a count, since calls copy their terms: an `ArrayVec` is not Copy, and a call that lends its terms out of the stage gets no generated proof.
#[derive(Clone, Copy)]
pub struct Terms {
    pub mark: u32,
    pub region: Region,
    pub colors: u32,
    pub kinds: [Kind; 8],
    pub extras: u32,
    ghost few: { (colors ≤ 3) × (extras ≤ 8) },
}

// The open frame, its samples apart. The first `count` of the infos are its records, `region` is its picture's.
// An array with a count, as in `Terms`.
#[derive(Clone, Copy)]
pub struct OpenFrame {
    pub header: Header,
    pub infos: [BlendingInfo; 9],
    pub count: u32,
    pub region: Region,
    ghost fits: { (count ≤ 9) × (header.target < 4) },
}

// A part of a sheet, the place of the open frame where it goes, and the records that it goes by.
#[derive(Drop)]
pub struct Patch<'a, P> {
    pub rectangle: Rectangle,
    pub x: i32,
    pub y: i32,
    pub records: &'a [PatchRecord],
    pub sheet: &'a P,
}
