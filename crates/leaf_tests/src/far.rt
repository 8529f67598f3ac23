// Rows of a picture read from positions that no i32 reaches.
use picture::{Grid, Picture};
use region::Region;

fn far(x: i64, y: i64, into: &mut [f32]) -> bool {
    let Ok(region) = Region::with_size(2, 1) else {
        return false;
    };
    match Grid::new(1, region, &[0.5f32, 0.25], 0) {
        Ok(grid) => {
            grid.fill_far(0, x, y, into);
            true
        }
        Err(_) => false,
    }
}

#[test]
fn rows_read_from_far_off(rt: HostRuntime) {
    let mut row = [1.0; 4];
    assert!(rt; far(-1, 0, &mut row));
    assert!(rt; row[0] == 0.0 && row[1] == 0.5 && row[2] == 0.25 && row[3] == 0.0);
    for x in [4_294_967_295, i64::MIN, i64::MAX] {
        row = [1.0; 4];
        assert!(rt; far(x, 0, &mut row));
        assert!(rt; row[0] == 0.0 && row[1] == 0.0 && row[2] == 0.0 && row[3] == 0.0);
    }
    row = [1.0; 4];
    assert!(rt; far(0, 4_294_967_296, &mut row));
    assert!(rt; row[0] == 0.0 && row[3] == 0.0);
}
