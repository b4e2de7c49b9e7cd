//! Numbers with types: each gives back the number that it was made of, at both ends of its type
//! too, and two are equal if their numbers are.
use crate::asserted::equal;
use phase_modes::{AccumulatorIndex, LongTaskNumber, PhaserNumber, TaskNumber};
use std::test::Fail;

/// The least number, one between and the greatest of 32 bits.
const SHORT: [u32; 3] = [0, 70_000, 4_294_967_295];

/// The same of 64 bits. The one between is no number of 32 bits.
const LONG: [u64; 3] = [0, 4_294_967_296, 18_446_744_073_709_551_615];

/// The same of 8 bits.
const TINY: [u8; 3] = [0, 7, 255];

#[test]
fn numbers_are_given_back(rt: HostRuntime) -> Result<(), Fail> {
    for number in SHORT {
        equal(&rt, PhaserNumber::of(number).get(), number);
        equal(&rt, TaskNumber::of(number).get(), number);
    }
    for number in LONG {
        equal(&rt, LongTaskNumber::of(number).get(), number);
    }
    for number in TINY {
        equal(&rt, AccumulatorIndex::of(number).get(), number);
    }
    Ok(())
}

#[test]
fn equal_numbers_are_equal(rt: HostRuntime) -> Result<(), Fail> {
    equal(&rt, PhaserNumber::of(3), PhaserNumber::of(3));
    assert_ne!(rt; PhaserNumber::of(3), PhaserNumber::of(4));
    equal(&rt, TaskNumber::of(70_000), TaskNumber::of(70_000));
    assert_ne!(rt; TaskNumber::of(70_000), TaskNumber::of(4_464));
    equal(
        &rt,
        LongTaskNumber::of(4_294_967_296),
        LongTaskNumber::of(4_294_967_296),
    );
    assert_ne!(rt; LongTaskNumber::of(4_294_967_296), LongTaskNumber::of(0));
    equal(&rt, AccumulatorIndex::of(7), AccumulatorIndex::of(7));
    assert_ne!(rt; AccumulatorIndex::of(7), AccumulatorIndex::of(8));
    Ok(())
}
