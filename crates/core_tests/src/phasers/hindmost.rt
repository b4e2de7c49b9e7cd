//! Tasks that stand far apart: the hindmost decides what is closed and what may still be read, until
//! it comes on or is dropped.
use super::*;
use crate::asserted::{equal, equal_at, holds_at};

/// A call with its reply, or what the calls before it leave.
#[derive(Clone, Copy)]
enum Line {
    Replied(Call, Reply),
    /// The phases from 0 on are closed up to this one, which is still open.
    FirstOpen(u32),
    /// Each of these phases is closed.
    Closed(u32, u32),
    /// In phases 0, 1 and 2 the first accumulator has these folds.
    Folds([Option<Look>; 3]),
    /// The phaser says what the plain functions say of its history.
    AsPlain,
}

/// The phases from 0 on are closed up to the one that is still open.
fn is_first_open(rt: &impl Abort, state: &PhaserState, open: u32) {
    for phase in 0..=open {
        equal_at(rt, phase, state.closed(phase), phase < open);
    }
}

fn has_folds(rt: &impl Abort, state: &PhaserState, folds: [Option<Look>; 3]) {
    let [first, second, third] = folds;
    equal(rt, state.fold_at(0, 0), first);
    equal(rt, state.fold_at(0, 1), second);
    equal(rt, state.fold_at(0, 2), third);
}

fn goes_by(rt: &impl Abort, state: &mut PhaserState, line: Line) {
    match line {
        Line::Replied(call, reply) => equal_at(rt, call, state.apply(call), reply),
        Line::FirstOpen(open) => is_first_open(rt, state, open),
        Line::Closed(one, other) => {
            holds_at(rt, one, state.closed(one));
            holds_at(rt, other, state.closed(other));
        }
        Line::Folds(folds) => has_folds(rt, state, folds),
        Line::AsPlain => agrees_with_plain(rt, state),
    }
}

/// A phaser with so many operators and this bound goes by the lines, and says at the end what the
/// plain functions say.
fn goes_by_all(
    rt: &impl Abort,
    alloc: Global,
    operators: usize,
    bound: Option<Bound>,
    lines: &[Line],
) -> Result<(), Fail> {
    let mut state = fresh(alloc, Limits::default(), first_ops(operators), bound)?;
    for line in lines {
        goes_by(rt, &mut state, *line);
    }
    agrees_with_plain(rt, &state);
    Ok(())
}

#[test]
fn slow_signaller_catches_up(rt: HostRuntime) -> Result<(), Fail> {
    const LINES: [Line; 21] = [
        Line::Replied(Call::Make(0, Mode::SigWait), Reply::Done),
        Line::Replied(Call::Register(0, 1, Mode::Sig), Reply::Done),
        Line::Replied(Call::Register(0, 2, Mode::Sig), Reply::Done),
        Line::Replied(Call::Signal(1, None), Reply::Done),
        Line::Replied(Call::Pass(1), Reply::Phase(0)),
        Line::Replied(Call::Signal(1, None), Reply::Done),
        Line::Replied(Call::Pass(1), Reply::Phase(1)),
        Line::Replied(Call::Signal(1, None), Reply::Done),
        Line::Replied(Call::Signal(0, None), Reply::Done),
        Line::Replied(Call::Pass(0), Reply::NotYet),
        Line::AsPlain,
        // Task 2 has signalled nothing, task 0 one phase, task 1 three.
        Line::FirstOpen(0),
        Line::Replied(Call::Signal(2, None), Reply::Done),
        Line::FirstOpen(1),
        Line::Replied(Call::Pass(0), Reply::Phase(0)),
        Line::Replied(Call::Pass(2), Reply::Phase(0)),
        Line::Replied(Call::Signal(2, None), Reply::Done),
        // Now task 0 alone is behind, at phase 1.
        Line::FirstOpen(1),
        Line::Replied(Call::Signal(0, None), Reply::Done),
        Line::FirstOpen(2),
        Line::Replied(Call::Pass(0), Reply::Phase(1)),
    ];
    goes_by_all(&rt, rt.alloc(), 0, None, LINES.as_slice())
}

#[test]
fn last_signaller_is_dropped(rt: HostRuntime) -> Result<(), Fail> {
    const LINES: [Line; 16] = [
        Line::Replied(Call::Make(0, Mode::SigWait), Reply::Done),
        Line::Replied(Call::Register(0, 1, Mode::Sig), Reply::Done),
        Line::Replied(Call::Register(0, 2, Mode::Wait), Reply::Done),
        Line::Replied(Call::Signal(0, None), Reply::Done),
        Line::Replied(Call::Pass(0), Reply::NotYet),
        Line::Replied(Call::Drop(1), Reply::Done),
        Line::Replied(Call::Pass(0), Reply::Phase(0)),
        Line::Replied(Call::Signal(0, None), Reply::Done),
        Line::Replied(Call::Pass(0), Reply::Phase(1)),
        Line::AsPlain,
        // Task 0 has signalled two phases, and is the only signaller that is left.
        Line::FirstOpen(2),
        Line::Replied(Call::Drop(0), Reply::Done),
        // Each phase is closed, if nobody can signal.
        Line::Closed(2, u32::MAX),
        Line::Replied(Call::Pass(2), Reply::Phase(0)),
        Line::Replied(Call::Pass(2), Reply::Phase(1)),
        Line::Replied(Call::Pass(2), Reply::Phase(2)),
    ];
    goes_by_all(&rt, rt.alloc(), 0, None, LINES.as_slice())
}

#[test]
fn slow_waiter_is_dropped(rt: HostRuntime) -> Result<(), Fail> {
    const LINES: [Line; 15] = [
        Line::Replied(Call::Make(0, Mode::SigWait), Reply::Done),
        Line::Replied(Call::Register(0, 1, Mode::Wait), Reply::Done),
        Line::Replied(Call::Send(0, 0, 5), Reply::Done),
        Line::Replied(Call::Signal(0, None), Reply::Done),
        Line::Replied(Call::Pass(0), Reply::Phase(0)),
        Line::Replied(Call::Send(0, 0, 6), Reply::Done),
        Line::Replied(Call::Signal(0, None), Reply::Done),
        Line::Replied(Call::Pass(0), Reply::Phase(1)),
        Line::Replied(Call::Send(0, 0, 7), Reply::Done),
        Line::Replied(Call::Signal(0, None), Reply::Done),
        Line::Replied(Call::Pass(0), Reply::Phase(2)),
        Line::AsPlain,
        // Task 1 still stands at phase 0, so each phase may be read.
        Line::Folds([
            Some(Look::Value(5)),
            Some(Look::Value(6)),
            Some(Look::Value(7)),
        ]),
        Line::Replied(Call::Drop(1), Reply::Done),
        // Task 0 has passed three phases, and may read the last of them alone.
        Line::Folds([None, None, Some(Look::Value(7))]),
    ];
    goes_by_all(&rt, rt.alloc(), 1, None, LINES.as_slice())
}

#[test]
fn last_waiter_is_dropped(rt: HostRuntime) -> Result<(), Fail> {
    const LINES: [Line; 22] = [
        Line::Replied(Call::Make(0, Mode::SigWait), Reply::Done),
        Line::Replied(Call::Register(0, 1, Mode::Sig), Reply::Done),
        Line::Replied(Call::Register(0, 2, Mode::Wait), Reply::Done),
        Line::Replied(Call::Drop(0), Reply::Done),
        Line::Replied(Call::Signal(1, None), Reply::Done),
        Line::Replied(Call::Pass(1), Reply::Phase(0)),
        Line::Replied(Call::Signal(1, None), Reply::Done),
        Line::Replied(Call::Pass(1), Reply::Phase(1)),
        Line::Replied(Call::Signal(1, None), Reply::NotYet),
        Line::Replied(Call::Pass(2), Reply::Phase(0)),
        Line::Replied(Call::Signal(1, None), Reply::Done),
        Line::Replied(Call::Pass(1), Reply::Phase(2)),
        Line::Replied(Call::Signal(1, None), Reply::NotYet),
        Line::Replied(Call::Drop(2), Reply::Done),
        Line::AsPlain,
        // Nobody waits any more, so nothing holds the signaller.
        Line::Replied(Call::Signal(1, None), Reply::Done),
        Line::Replied(Call::Pass(1), Reply::Phase(3)),
        Line::Replied(Call::Signal(1, None), Reply::Done),
        Line::Replied(Call::Pass(1), Reply::Phase(4)),
        Line::Replied(Call::Signal(1, None), Reply::Done),
        Line::Replied(Call::Pass(1), Reply::Phase(5)),
        Line::FirstOpen(6),
    ];
    goes_by_all(&rt, rt.alloc(), 0, Bound::of(2), LINES.as_slice())
}
