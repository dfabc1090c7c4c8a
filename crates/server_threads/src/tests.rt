//! Parts that begin, and parts that don't.

use crate::roll::Roll;
use std::test::*;

#[test]
fn all_begin(rt: HostRuntime) -> Result<(), Fail> {
    let roll = Roll::new();
    assert!(rt; roll.begin() && roll.begin());
    assert_eq!(rt; roll.await_all(&rt, 2, 1), Ok(()));
    assert!(rt; roll.begin());
    Ok(())
}

#[test]
fn one_does_not_begin(rt: HostRuntime) -> Result<(), Fail> {
    let roll = Roll::new();
    assert!(rt; roll.begin() && roll.begin());
    assert_eq!(rt; roll.await_all(&rt, 3, 5), Err(2));
    assert!(rt; !roll.begin() && !roll.begin());
    Ok(())
}

#[test]
fn the_last_begins_late(rt: HostRuntime) -> Result<(), Fail> {
    let roll = Roll::new();
    assert_eq!(rt; roll.await_all(&rt, 0, 0), Ok(()));
    assert!(rt; !roll.begin());
    Ok(())
}
