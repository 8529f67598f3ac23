// A list of calls: frames with patches, two alphas of which one is premultiplied, sources other than the target, refused calls among them.
use machine::{FrameRecord, Header, PatchRecord, Rectangle};
use picture::Grid;
use refusal::Refusal;
use region::Region;
use stage::{Stage, Ticket};
use std::array;
use std::process::Abort;
use store::Store;

// Three colours, an alpha and a premultiplied alpha.
pub(crate) const KINDS: [u8; 2] = [1, 2];

const VALUES: [f32; 7] = [0.5, 0.25, 1.5, -0.75, 0.125, 0.875, 1.0];

// Samples of five channels of three columns and three rows.
pub(crate) fn samples(first: usize) -> [f32; 45] {
    array::from_fn(|k| VALUES[(first % 7 + k) % 7])
}

pub(crate) fn frame(number: u32, place: (i32, i32), target: u32) -> Header {
    Header {
        number,
        left: place.0,
        top: place.1,
        width: 3,
        height: 3,
        target,
    }
}

pub(crate) fn record(mode: u8, alpha: u8, source: u8) -> FrameRecord {
    FrameRecord {
        mode,
        alpha,
        clamp: true,
        source,
    }
}

fn patch_record(mode: u8, alpha: u8) -> PatchRecord {
    PatchRecord {
        mode,
        alpha,
        clamp: false,
    }
}

// The number of a refusal, 0 where there is none.
fn told(answer: Result<(), Refusal>) -> u8 {
    answer.err().map_or(0, |refusal| refusal.number())
}

// A ticket that could not be spent ends the test.
fn lost(rt: &impl Abort, ticket: Ticket) -> u8 {
    let _ticket = ticket;
    rt.abort()
}

pub(crate) fn blended<S: Store>(rt: &impl Abort, stage: &mut Stage<S>, ticket: Ticket) -> u8 {
    match stage.blend(ticket) {
        Ok(()) => 0,
        Err((_, ticket)) => lost(rt, ticket),
    }
}

// Blends a frame, or tells why it is not opened.
pub(crate) fn drawn<S: Store>(
    rt: &impl Abort,
    stage: &mut Stage<S>,
    header: Header,
    records: &[FrameRecord],
    picture: &Grid<f32>,
) -> u8 {
    match stage.open(header, records, picture) {
        Ok(ticket) => blended(rt, stage, ticket),
        Err(refusal) => refusal.number(),
    }
}

// Opens a frame, draws patches onto it, and blends it. A second frame is refused meanwhile, and so is a patch of an unknown mode.
fn patched<S: Store>(
    rt: &impl Abort,
    stage: &mut Stage<S>,
    header: Header,
    records: &[FrameRecord],
    picture: &Grid<f32>,
) -> [u8; 5] {
    let part = Rectangle {
        left: 0,
        top: 1,
        width: 2,
        height: 2,
    };
    let above = [patch_record(4, 0), patch_record(2, 0), patch_record(6, 1)];
    let below = [patch_record(5, 1), patch_record(3, 0), patch_record(7, 1)];
    let unknown = [patch_record(8, 0), patch_record(0, 0), patch_record(0, 0)];
    match stage.open(header, records, picture) {
        Ok(ticket) => {
            let again = match stage.open(header, records, picture) {
                Ok(other) => lost(rt, other),
                Err(refusal) => refusal.number(),
            };
            let first = told(stage.patch(&ticket, part, 1, 0, &above, picture));
            let refused = told(stage.patch(&ticket, part, 0, 0, &unknown, picture));
            let second = told(stage.patch(&ticket, part, -1, 1, &below, picture));
            [again, first, refused, second, blended(rt, stage, ticket)]
        }
        Err(refusal) => [refusal.number(); 5],
    }
}

// Opens a frame and gives it up.
fn abandoned<S: Store>(
    rt: &impl Abort,
    stage: &mut Stage<S>,
    header: Header,
    records: &[FrameRecord],
    picture: &Grid<f32>,
) -> u8 {
    match stage.open(header, records, picture) {
        Ok(ticket) => match stage.abandon(ticket) {
            Ok(()) => 0,
            Err((_, ticket)) => lost(rt, ticket),
        },
        Err(refusal) => refusal.number(),
    }
}

// The numbers of a list of calls, 0 for each that was taken. Every frame is moved by (x, y).
pub(crate) fn played<S: Store>(
    rt: &impl Abort,
    stage: &mut Stage<S>,
    picture: &Grid<f32>,
    by: (i32, i32),
) -> [u8; 14] {
    let place = |x: i32, y: i32| (x.wrapping_add(by.0), y.wrapping_add(by.1));
    let replace = [record(0, 0, 0), record(0, 0, 0), record(0, 0, 0)];
    let over = [record(2, 0, 0), record(2, 0, 0), record(3, 1, 0)];
    let premultiplied = [record(2, 1, 1), record(1, 0, 0), record(2, 1, 1)];
    let first = patched(rt, stage, frame(1, place(-1, 0), 0), &replace, picture);
    let old = drawn(rt, stage, frame(1, place(0, 0), 0), &replace, picture);
    let second = drawn(rt, stage, frame(2, place(0, -2), 1), &over, picture);
    let no_slot = told(stage.clear(4));
    let given_up = abandoned(rt, stage, frame(3, place(1, 1), 1), &over, picture);
    let third = patched(rt, stage, frame(3, place(2, 1), 2), &premultiplied, picture);
    let [a, b, c, d, e] = first;
    let [f, g, h, i, j] = third;
    [a, b, c, d, e, old, second, no_slot, given_up, f, g, h, i, j]
}
