// Crop, shift and exchange, once each.
use crate::alike::shown_alike;
use crate::played::{KINDS, drawn, frame, played, record, samples};
use interleaved::Interleaved;
use picture::Grid;
use planar::Planar;
use refusal::Refusal;
use region::Region;
use stage::Stage;
use std::process::Abort;
use std::test::Fail;
use store::Store;

// The answers to the list of calls: the refusals in it have the numbers 33, 7, 36 and 5.
const ANSWERS: [u8; 14] = [33, 0, 7, 0, 0, 36, 0, 5, 0, 33, 0, 7, 0, 0];

// Two stages of two stores, taken through the list of calls, the second's frames moved by (x, y); how many samples were compared in the region.
fn compared<S: Store + Drop, T: Store + Drop>(
    rt: &impl Abort,
    stores: (S, T),
    regions: (Region, Region),
    by: (i32, i32),
    part: Region,
) -> Result<u32, Refusal> {
    let samples = samples(3);
    let picture = Grid::new(5, Region::with_size(3, 3)?, &samples, 0)?;
    let (store, other_store) = stores;
    let mut one = Stage::new(store);
    let mut other = Stage::new(other_store);
    one.start(9, regions.0, 3, &KINDS)?;
    other.start(9, regions.1, 3, &KINDS)?;
    assert_eq!(rt; played(rt, &mut one, &picture, (0, 0)), ANSWERS);
    assert_eq!(rt; played(rt, &mut other, &picture, by), ANSWERS);
    Ok(shown_alike(rt, &one, &other, part, by))
}

#[test]
fn cropped_tiles_agree(rt: HostRuntime) -> Result<(), Fail> {
    let whole = Region::new(-2, -1, 6, 5)?;
    let part = Region::new(0, 0, 3, 2)?;
    let mut memory = [0.5f32; 750];
    let mut other_memory = [-0.25f32; 151];
    let stores = (
        Planar::new(&mut memory, 6, 5),
        Interleaved::new(&mut other_memory, 3, 2),
    );
    assert_eq!(rt; compared(&rt, stores, (whole, part), (0, 0), part)?, 90);
    Ok(())
}

#[test]
fn moved_tiles_agree(rt: HostRuntime) -> Result<(), Fail> {
    let here = Region::new(-2, -1, 6, 5)?;
    let there = here.translate(7, -3)?;
    let mut memory = [0.5f32; 750];
    let mut other_memory = [-0.25f32; 750];
    let stores = (
        Interleaved::new(&mut memory, 6, 5),
        Planar::new(&mut other_memory, 6, 5),
    );
    assert_eq!(rt; compared(&rt, stores, (here, there), (7, -3), here)?, 450);
    Ok(())
}

// Two frames of slot 2, side by side, and then one onto slot 3.
fn in_turn<S: Store>(
    rt: &impl Abort,
    stage: &mut Stage<S>,
    picture: &Grid<f32>,
    places: [(i32, i32); 2],
) -> [u8; 3] {
    let mixed = [record(2, 0, 2), record(2, 0, 2), record(3, 0, 2)];
    let added = [record(1, 0, 2), record(2, 1, 2), record(4, 0, 0)];
    let one = drawn(rt, stage, frame(4, places[0], 2), &mixed, picture);
    let other = drawn(rt, stage, frame(5, places[1], 2), &mixed, picture);
    let later = drawn(rt, stage, frame(6, (0, 0), 3), &added, picture);
    [one, other, later]
}

// Two stages that trade two frames; how many samples were compared.
fn exchanged<S: Store + Drop, T: Store + Drop>(
    rt: &impl Abort,
    store: S,
    other_store: T,
    region: Region,
) -> Result<u32, Refusal> {
    let samples = samples(5);
    let picture = Grid::new(5, Region::with_size(3, 3)?, &samples, 0)?;
    let mut one = Stage::new(store);
    let mut other = Stage::new(other_store);
    one.start(9, region, 3, &KINDS)?;
    other.start(9, region, 3, &KINDS)?;
    assert_eq!(rt; played(rt, &mut one, &picture, (0, 0)), ANSWERS);
    assert_eq!(rt; played(rt, &mut other, &picture, (0, 0)), ANSWERS);
    assert_eq!(rt;
        in_turn(rt, &mut one, &picture, [(-2, -1), (1, 0)]),
        [0, 0, 0]
    );
    assert_eq!(rt;
        in_turn(rt, &mut other, &picture, [(1, 0), (-2, -1)]),
        [0, 0, 0]
    );
    Ok(shown_alike(rt, &one, &other, region, (0, 0)))
}

#[test]
fn exchanged_frames_agree(rt: HostRuntime) -> Result<(), Fail> {
    let region = Region::new(-2, -1, 6, 5)?;
    let mut memory = [0.5f32; 750];
    let mut other_memory = [-0.25f32; 760];
    let store = Planar::new(&mut memory, 6, 5);
    let other_store = Interleaved::new(&mut other_memory, 6, 5);
    assert_eq!(rt; exchanged(&rt, store, other_store, region)?, 600);
    Ok(())
}
