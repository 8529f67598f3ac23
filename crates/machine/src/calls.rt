// The arguments of the calls, the sizes of a store, and what a slot shows.
// Modes, alphas, sources and slots are plain numbers here: the calls take whatever they are handed, and refuse it in the order of the checks.
ghost use Rattle.std.specs.Prelude.{◌≡◌};
ghost use Rattle.machine.specs.Checks.{frame_allowed};

use region::limits::rectangle_allowed;

// A frame: its number, its place on the canvas, its sides and the slot that it fills.
#[derive(Clone, Copy)]
pub struct Header {
    pub number: u32,
    pub left: i32,
    pub top: i32,
    pub width: u32,
    pub height: u32,
    pub target: u32,
}

impl Header {
    // Whether a stage takes a frame with these sides at this place.
    pub fn is_allowed(self) -> bool
        ensures { result ≡ frame_allowed self }
    {
        rectangle_allowed(self.left, self.top, self.width, self.height)
    }
}

// How a frame's channels meet the canvas of a source slot.
#[derive(Clone, Copy, Default)]
pub struct FrameRecord {
    pub mode: u8,
    pub alpha: u8,
    pub clamp: bool,
    pub source: u8,
}

// How a patch's channels meet the open frame.
#[derive(Clone, Copy)]
pub struct PatchRecord {
    pub mode: u8,
    pub alpha: u8,
    pub clamp: bool,
}

// A part of a sheet: the rectangle, and where in the frame its left top corner is put.
#[derive(Clone, Copy)]
pub struct Rectangle {
    pub left: i32,
    pub top: i32,
    pub width: u32,
    pub height: u32,
}

// The columns, rows and planes of a store.
#[derive(Clone, Copy)]
pub struct Size {
    pub columns: usize,
    pub rows: usize,
    pub planes: usize,
}

// What a ticket says: the stage's mark and the frame's number.
#[derive(Clone, Copy, PartialEq, Eq)]
pub struct Stamp {
    pub mark: u32,
    pub number: u32,
}

// What a slot shows at a channel and a position.
#[derive(Clone, Copy)]
pub enum Shown {
    Outside,
    Empty,
    Sample(f32),
}
