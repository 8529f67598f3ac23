// What `lay` prints of inputs that their length decides.
use laying::printout;
use std::test::Fail;

#[test]
fn inputs_too_short_and_too_long(rt: HostRuntime) -> Result<(), Fail> {
    let heap = rt.alloc();
    let longest = vec![in heap; 0u8; 65_536]?;
    let longer = vec![in heap; 0u8; 65_537]?;
    assert_eq!(rt; printout(heap, &[])?.as_str(), "refused 17 plate 0 0\n");
    assert_eq!(rt;
        printout(heap, &[1; 63])?.as_str(),
        "refused 17 plate 0 0\n"
    );
    assert_eq!(rt; printout(heap, longest.as_slice())?.as_str(), "");
    assert_eq!(rt;
        printout(heap, longer.as_slice())?.as_str(),
        "refused 21 input 0 65536\n"
    );
    Ok(())
}
