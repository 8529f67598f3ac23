// Regions at their limits.
use refusal::Refusal;
use region::Region;
use region::limits::{place_allowed, side_allowed};
use std::test::Fail;

#[test]
fn ends_at_the_greatest_i32(rt: HostRuntime) -> Result<(), Fail> {
    assert!(rt; Region::new(2_147_483_637, 0, 10, 1).is_ok());
    assert_eq!(rt;
        Region::new(2_147_483_638, 0, 10, 1),
        Err(Refusal::NoRegion)
    );
    assert!(rt; Region::new(-2_147_483_648, 0, 4_294_967_295, 1).is_ok());
    assert_eq!(rt; Region::new(0, 2_147_483_647, 1, 1), Err(Refusal::NoRegion));
    assert_eq!(rt; Region::new(5, 0, 0, 3), Err(Refusal::NoRegion));
    assert_eq!(rt; Region::new(1, 0, 0, 0), Err(Refusal::NoRegion));
    assert_eq!(rt; Region::new(0, 0, 0, 0)?, Region::empty());
    assert_eq!(rt; Region::with_size(0, 7), Err(Refusal::NoRegion));
    Ok(())
}

#[test]
fn limits_of_a_stage(rt: HostRuntime) -> Result<(), Fail> {
    assert!(rt; side_allowed(1) && side_allowed(16_384));
    assert!(rt; !side_allowed(0) && !side_allowed(16_385));
    assert!(rt; place_allowed(1_048_576) && place_allowed(-1_048_576));
    assert!(rt; !place_allowed(1_048_577) && !place_allowed(-1_048_577));
    assert!(rt; Region::new(-1_048_576, 1_048_576, 16_384, 16_384)?.is_allowed());
    assert!(rt; !Region::new(0, 0, 16_385, 1)?.is_allowed());
    assert!(rt; !Region::empty().is_allowed());
    Ok(())
}

#[test]
fn regions_that_meet(rt: HostRuntime) -> Result<(), Fail> {
    let tile = Region::with_size(4, 4)?;
    assert_eq!(rt;
        tile.intersection(Region::new(3, 3, 4, 4)?),
        Region::new(3, 3, 1, 1)?
    );
    assert_eq!(rt;
        tile.intersection(Region::new(4, 0, 2, 2)?),
        Region::empty()
    );
    assert_eq!(rt; tile.intersection(Region::empty()), Region::empty());
    assert!(rt; tile.contains(Region::new(1, 1, 3, 3)?) && tile.contains(Region::empty()));
    assert!(rt; !tile.contains(Region::new(1, 1, 4, 3)?));
    Ok(())
}

#[test]
fn regions_that_move(rt: HostRuntime) -> Result<(), Fail> {
    let tile = Region::with_size(4, 4)?;
    assert_eq!(rt; tile.translate(-7, 9)?, Region::new(-7, 9, 4, 4)?);
    assert_eq!(rt; Region::empty().translate(3, 4)?, Region::empty());
    assert!(rt; tile.translate(2_147_483_643, 0).is_ok());
    assert_eq!(rt; tile.translate(2_147_483_644, 0), Err(Refusal::NoRegion));
    assert_eq!(rt;
        Region::new(-2_147_483_648, 0, 1, 1)?.translate(-1, 0),
        Err(Refusal::NoRegion)
    );
    Ok(())
}
