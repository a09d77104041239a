use crate::drawn::are_arranged;
use std::test::Fail;

#[test]
fn many_items_stand_in_order(rt: HostRuntime) -> Result<(), Fail> {
    let alloc = rt.alloc();
    let all = matches!(are_arranged(alloc, 5_000, u32::MAX), Ok(true));
    assert!(rt; all);
    Ok(())
}

#[test]
fn items_that_agree_stay_in_turn(rt: HostRuntime) -> Result<(), Fail> {
    let alloc = rt.alloc();
    let some = matches!(are_arranged(alloc, 3_000, 20), Ok(true));
    assert!(rt; some);
    let few = matches!(are_arranged(alloc, 600, 3), Ok(true));
    assert!(rt; few);
    Ok(())
}
