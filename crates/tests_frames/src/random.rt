//! Numbers that look random, the same in each run.

/// The next one of a row of numbers that looks random.
pub(crate) fn next(random: u64) -> u64 {
    random
        .wrapping_mul(6_364_136_223_846_793_005)
        .wrapping_add(1_442_695_040_888_963_407)
}

/// A number below `most` from the upper half of another one.
pub(crate) fn pick(random: u64, shift: u32, most: u8) -> u8 {
    if most == 0 || shift >= 64 {
        return 0;
    }
    ((random >> shift) % most as u64) as u8
}
