//! The list of a spawn's phasers, by hand.
use crate::asserted::equal;
use phase_modes::{Mode, Pair, Phased};
use std::process::Abort;
use std::test::Fail;

const FIRST: Pair = Pair {
    phaser: 7,
    mode: Mode::Sig,
};

const SECOND: Pair = Pair {
    phaser: 3,
    mode: Mode::Wait,
};

#[test]
fn none_is_named_at_first(rt: HostRuntime) -> Result<(), Fail> {
    let named = Phased::none();
    equal(&rt, named.len(), 0);
    equal(&rt, named.get(0), None);
    Ok(())
}

/// Two phasers are named, the first before the second.
fn are_two(rt: &impl Abort, named: &Phased) {
    equal(rt, named.len(), 2);
    equal(rt, named.get(0), Some(FIRST));
    equal(rt, named.get(1), Some(SECOND));
    equal(rt, named.get(2), None);
}

#[test]
fn phasers_are_named_in_order(rt: HostRuntime) -> Result<(), Fail> {
    let mut named = Phased::none();
    named.push(FIRST);
    let one = named;
    named.push(SECOND);
    are_two(&rt, &named);
    assert!(rt; named.as_slice() == [FIRST, SECOND].as_slice());
    equal(&rt, one.len(), 1);
    assert!(rt; one != named);
    Ok(())
}

#[test]
fn sixteen_phasers_have_room(rt: HostRuntime) -> Result<(), Fail> {
    let mut named = Phased::none();
    for phaser in 0..16 {
        if named.len() < 16 {
            named.push(Pair {
                phaser,
                mode: Mode::Single,
            });
        }
    }
    equal(&rt, named.len(), 16);
    equal(&rt, named.get(15).map(|pair| pair.phaser), Some(15));
    Ok(())
}
