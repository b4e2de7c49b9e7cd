//! A phaser whose accumulators and bound are known only as it is made, and what is asked of its tasks.
ghost use Rattle.std.specs.Prelude.{◌≡◌, IfOk};

use super::*;
use crate::asserted::equal;
use phase_modes::Reg;

/// What such a phaser has room for.
const SMALL: Example = Example {
    history: 16,
    regs: 4,
    ..PLAIN
};

/// A phaser that nobody has made yet, without accumulators and unbounded; `NotNow` if the limits
/// are none.
fn blank(alloc: Global) -> Result<PhaserState, Refusal> {
    let limits = SMALL.limits();
    if !limits.fits() {
        return Err(Refusal::NotNow);
    }
    PhaserState::blank(alloc, limits)
}

/// What is known of a phaser that nobody has made yet.
fn is_blank(rt: &impl Abort, state: &PhaserState) {
    equal(rt, state.history().ops().len(), 0);
    equal(rt, state.history().bound(), None);
    equal(rt, state.registration(0), None);
}

/// Task 0 makes the phaser, with two accumulators and a bound.
fn made_with_two(rt: &impl Abort, state: &mut PhaserState) {
    let ops = first_ops(2);
    assert_eq!(rt; ops.len(), 2);
    equal(
        rt,
        state.make_with(0, Mode::SigWait, ops, Bound::of(3)),
        Ok(()),
    );
    equal(rt, state.history().ops().len(), 2);
    equal(rt, state.history().bound(), Bound::of(3));
}

/// Task 0 sends to the second accumulator, which is the last, and signals.
fn sends_and_signals(rt: &impl Abort, state: &mut PhaserState) {
    equal(rt, state.send(0, 1, -7), Ok(()));
    equal(rt, state.send(0, 2, 1), Err(Refusal::NoAccumulator));
    equal(rt, state.signal(0, None), Ok(Signalling::Signalled));
    let ahead = Reg {
        mode: Mode::SigWait,
        phase: 0,
        ahead: true,
    };
    equal(rt, state.registration(0), Some(ahead));
}

/// Task 0 passes, and sees the value of the phase that it passed.
fn passes_and_looks(rt: &impl Abort, state: &mut PhaserState) {
    equal(rt, state.pass(0), Ok(Passing::Passed(0)));
    equal(rt, state.look(0, 1), Ok(Look::Value(-7)));
}

#[test]
fn operators_come_with_the_making(rt: HostRuntime) -> Result<(), Fail> {
    let mut state = blank(rt.alloc())?;
    is_blank(&rt, &state);
    made_with_two(&rt, &mut state);
    sends_and_signals(&rt, &mut state);
    passes_and_looks(&rt, &mut state);
    Ok(())
}

/// Task 0 makes the phaser for singles, without accumulators.
fn made_for_singles(rt: &impl Abort, state: &mut PhaserState) {
    let ops = Ops::none();
    assert_eq!(rt; ops.len(), 0);
    equal(rt, state.make_with(0, Mode::Single, ops, None), Ok(()));
}

/// Whether task 0 may claim the single, and whether it may report it.
fn may(rt: &impl Abort, state: &PhaserState, claim: bool, report: bool) {
    equal(rt, state.may_claim(0), claim);
    equal(rt, state.may_report(0), report);
}

/// Nothing is proposed, then nothing is claimed, and then the single runs.
fn runs_a_single(rt: &impl Abort, state: &mut PhaserState) {
    may(rt, state, false, false);
    equal(rt, state.signal(0, Some(5)), Ok(Signalling::Signalled));
    may(rt, state, true, false);
    equal(rt, state.pass(0), Ok(Passing::Claimed(5)));
    may(rt, state, false, true);
}

#[test]
fn single_is_claimed_and_reported(rt: HostRuntime) -> Result<(), Fail> {
    let mut state = blank(rt.alloc())?;
    made_for_singles(&rt, &mut state);
    runs_a_single(&rt, &mut state);
    Ok(())
}
