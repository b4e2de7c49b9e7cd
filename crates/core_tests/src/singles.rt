//! Each public function once, with answers worked out by hand.
use crate::asserted::equal;
use phase_modes::Refusal;
use single_state::{Single, claims_are_unique, reports_are_unique};
use std::test::Fail;

#[test]
fn one_task_runs_the_single(rt: HostRuntime) -> Result<(), Fail> {
    let mut single = Single::new();
    assert!(rt; single.may_pass(0));
    equal(&rt, single.number(0), None);
    equal(&rt, single.reserve(), 0);
    equal(&rt, single.claim(0, 1), Err(Refusal::NotNow));
    equal(&rt, single.propose(0, 7), Ok(()));
    equal(&rt, single.propose(0, 8), Err(Refusal::SingleMismatch));
    equal(&rt, single.number(0), Some(7));
    equal(&rt, single.reserve(), 2);
    assert!(rt; !single.may_pass(0));
    equal(&rt, single.claim(1, 1), Err(Refusal::NotNow));
    equal(&rt, single.done(1), Err(Refusal::NotNow));
    equal(&rt, single.claim(0, 1), Ok(()));
    equal(&rt, single.claim(0, 0), Err(Refusal::NotNow));
    equal(&rt, single.reserve(), 1);
    assert!(rt; !single.may_pass(0));
    assert!(rt; single.may_pass(1));
    equal(&rt, single.done(0), Err(Refusal::NotNow));
    equal(&rt, single.done(1), Ok(()));
    equal(&rt, single.done(1), Err(Refusal::NotNow));
    assert!(rt; single.may_pass(0));
    equal(&rt, single.reserve(), 0);
    equal(&rt, single.number(0), Some(7));
    Ok(())
}

#[test]
fn a_later_phase_has_a_single_of_its_own(rt: HostRuntime) -> Result<(), Fail> {
    let mut single = Single::new();
    equal(&rt, single.propose(0, 7), Ok(()));
    equal(&rt, single.claim(0, 1), Ok(()));
    equal(&rt, single.propose(0, 7), Ok(()));
    equal(&rt, single.done(1), Ok(()));
    equal(&rt, single.propose(1, 9), Ok(()));
    equal(&rt, single.number(0), None);
    equal(&rt, single.number(1), Some(9));
    assert!(rt; single.may_pass(0));
    assert!(rt; !single.may_pass(1));
    equal(&rt, single.claim(1, 2), Ok(()));
    equal(&rt, single.done(2), Ok(()));
    claims_are_unique();
    reports_are_unique();
    Ok(())
}
