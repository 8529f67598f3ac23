// Grids of each sample kind, blanks, and what a grid is refused for.
use picture::{Blank, Grid, Picture};
use refusal::Refusal;
use region::Region;
use sample::Sample;
use std::test::Fail;

fn refusal<T: Sample>(
    channels: usize,
    region: Region,
    samples: &[T],
    depth: u32,
) -> Option<Refusal> {
    Grid::new(channels, region, samples, depth).err()
}

#[test]
fn grids_that_are_refused(rt: HostRuntime) -> Result<(), Fail> {
    let dot = Region::with_size(1, 1)?;
    let shape = Some(Refusal::GridShape);
    let depth = Some(Refusal::SampleDepth);
    assert_eq!(rt; refusal(0, dot, &[0.0f32; 0], 0), shape);
    assert_eq!(rt; refusal(12, dot, &[0.0f32; 12], 0), shape);
    assert_eq!(rt; refusal(1, dot, &[0.0f32; 2], 0), shape);
    assert_eq!(rt;
        refusal(1, Region::with_size(16_385, 1)?, &[0.0f32; 1], 9),
        shape
    );
    assert_eq!(rt; refusal(11, dot, &[0.0f32; 11], 1), depth);
    assert_eq!(rt; refusal(11, dot, &[0.0f32; 11], 0), None);
    assert_eq!(rt; refusal(3, Region::empty(), &[0.0f32; 0], 0), None);
    assert_eq!(rt; refusal(1, dot, &[5i16], 0), depth);
    assert_eq!(rt; refusal(1, dot, &[5i16], 16), depth);
    assert_eq!(rt; refusal(1, dot, &[5i16], 15), None);
    assert_eq!(rt; refusal(1, dot, &[16_777_217i32], 24), depth);
    assert_eq!(rt; refusal(1, dot, &[-16_777_216i32], 24), None);
    assert_eq!(rt; refusal(1, dot, &[1i32], 25), depth);
    Ok(())
}

// the sample that a grid shows, if it is one
fn shown<T: Sample>(region: Region, samples: &[T], depth: u32, x: i32, y: i32) -> Option<f32> {
    let grid = Grid::new(1, region, samples, depth).ok()?;
    Some(grid.sample(0, x, y))
}

// whether a grid has a row, and how long it is
fn row_length<T: Sample>(
    region: Region,
    samples: &[T],
    channel: usize,
    row: usize,
) -> Option<usize> {
    let grid = Grid::new(1, region, samples, T::depth_limit()).ok()?;
    Some(grid.get_row(channel, row)?.len())
}

fn fill<T: Sample>(region: Region, samples: &[T], x: i32, into: &mut [f32]) -> bool {
    match Grid::new(1, region, samples, T::depth_limit()) {
        Ok(grid) => {
            grid.fill(0, x, 2, into);
            true
        }
        Err(_) => false,
    }
}

#[test]
fn samples_of_each_kind(rt: HostRuntime) -> Result<(), Fail> {
    let region = Region::new(-1, 2, 2, 1)?;
    assert_eq!(rt; shown(region, &[0.5f32, -2.0], 0, -1, 2), Some(0.5));
    assert_eq!(rt; shown(region, &[0.5f32, -2.0], 0, 0, 2), Some(-2.0));
    assert_eq!(rt; shown(region, &[0.5f32, -2.0], 0, 1, 2), Some(0.0));
    assert_eq!(rt; shown(region, &[0.5f32, -2.0], 0, -1, 3), Some(0.0));
    assert_eq!(rt; shown(region, &[255i32, 51], 8, -1, 2), Some(1.0));
    assert_eq!(rt; shown(region, &[255i32, 51], 8, 0, 2), Some(0.2));
    assert_eq!(rt; shown(region, &[-1i16, 1], 1, -1, 2), Some(-1.0));
    assert_eq!(rt; row_length(region, &[-1i16, 1], 0, 0), Some(2));
    assert_eq!(rt; row_length(region, &[-1i16, 1], 0, 1), None);
    assert_eq!(rt; row_length(region, &[-1i16, 1], 1, 0), None);
    Ok(())
}

#[test]
fn rows_filled_past_both_ends(rt: HostRuntime) -> Result<(), Fail> {
    let region = Region::new(-1, 2, 2, 1)?;
    let mut row = [9.0f32; 4];
    assert!(rt; fill(region, &[0.5f32, 0.25], -2, &mut row));
    assert!(rt; row[0] == 0.0 && row[1] == 0.5 && row[2] == 0.25 && row[3] == 0.0);
    assert!(rt; fill(region, &[0.5f32, 0.25], 0, &mut row));
    assert!(rt; row[0] == 0.25 && row[1] == 0.0);
    Blank::new(1, Region::with_size(4, 4)?).fill(0, 0, 0, &mut row);
    assert!(rt; row[0] == 0.0);
    assert!(rt; Blank::new(2, Region::empty()).sample(1, 0, 0) == 0.0);
    Ok(())
}
