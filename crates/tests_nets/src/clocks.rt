use outside::{Clock, MemClock};
use std::sync::Wait;
use std::test::*;
use txt_core::{LAST_MOMENT, NoMemory};

/// The first moments that a clock and its copy show: three of the clock, then one of the copy.
fn moments<C: Clock + Drop, R: Wait + std::rt::Clock>(
    rt: &R,
    clock: &mut C,
) -> Result<[u64; 4], NoMemory> {
    let first = clock.moment();
    clock.pause(rt);
    let second = clock.moment();
    let third = clock.moment();
    Ok([first, second, third, clock.copy()?.moment()])
}

#[test]
fn moments_go_by_the_stride(rt: HostRuntime) -> Result<(), Fail> {
    for (moment, stride, want) in [
        (0, 0, [0, 0, 0, 0]),
        (7, 10, [7, 17, 27, 37]),
        (
            253_402_300_798,
            1,
            [253_402_300_798, LAST_MOMENT, LAST_MOMENT, LAST_MOMENT],
        ),
        (5, u64::MAX, [5, LAST_MOMENT, LAST_MOMENT, LAST_MOMENT]),
    ] {
        assert_eq!(rt; moments(&rt, &mut MemClock::new(moment, stride))?, want);
    }
    Ok(())
}
