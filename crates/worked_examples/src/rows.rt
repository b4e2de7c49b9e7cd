//! The examples: a constant each.
use crate::example::{Example, PLAIN};
use phase_model::{Call, Look, Reply};
use phase_modes::{Mode, Refusal};

/// One task alone: it signals, and passes.
pub const ONE_TASK_TURN: Example = Example {
    rows: &[
        (Call::Make(0, Mode::SigWait), Reply::Done),
        (Call::Signal(0, None), Reply::Done),
        (Call::Pass(0), Reply::Phase(0)),
    ],
    ..PLAIN
};

/// A reader that stays behind still sees each phase's value, while the signaller has run ahead.
pub const LATE_READER: Example = Example {
    operators: 1,
    rows: &[
        (Call::Make(0, Mode::SigWait), Reply::Done),
        (Call::Register(0, 1, Mode::Sig), Reply::Done),
        (Call::Register(0, 2, Mode::Wait), Reply::Done),
        (Call::Drop(0), Reply::Done),
        (Call::Send(1, 0, 1), Reply::Done),
        (Call::Signal(1, None), Reply::Done),
        (Call::Pass(1), Reply::Phase(0)),
        (Call::Send(1, 0, 2), Reply::Done),
        (Call::Signal(1, None), Reply::Done),
        (Call::Pass(1), Reply::Phase(1)),
        (Call::Send(1, 0, 3), Reply::Done),
        (Call::Signal(1, None), Reply::Done),
        (Call::Pass(1), Reply::Phase(2)),
        (Call::Pass(2), Reply::Phase(0)),
        (Call::Look(2, 0), Reply::Saw(Look::Value(1))),
        (Call::Pass(2), Reply::Phase(1)),
        (Call::Look(2, 0), Reply::Saw(Look::Value(2))),
        (Call::Pass(2), Reply::Phase(2)),
        (Call::Look(2, 0), Reply::Saw(Look::Value(3))),
    ],
    ..PLAIN
};

/// Two tasks: the first waits until the second has signalled too.
pub const TWO_TASKS_TURN: Example = Example {
    rows: &[
        (Call::Make(0, Mode::SigWait), Reply::Done),
        (Call::Register(0, 1, Mode::SigWait), Reply::Done),
        (Call::Signal(0, None), Reply::Done),
        (Call::Pass(0), Reply::NotYet),
        (Call::Signal(1, None), Reply::Done),
        (Call::Pass(0), Reply::Phase(0)),
        (Call::Pass(1), Reply::Phase(0)),
    ],
    ..PLAIN
};

/// A waiter can register no signaller, and without a signaller every phase is closed.
pub const WAITER_ALONE: Example = Example {
    rows: &[
        (Call::Make(0, Mode::Wait), Reply::Done),
        (
            Call::Register(0, 1, Mode::Sig),
            Reply::Refused(Refusal::MoreThanParent),
        ),
        (Call::Pass(0), Reply::Phase(0)),
        (Call::Pass(0), Reply::Phase(1)),
    ],
    ..PLAIN
};

/// A child registered between its parent's signal and pass has signalled what its parent has.
pub const SPLIT_PHASE_CHILD: Example = Example {
    rows: &[
        (Call::Make(0, Mode::SigWait), Reply::Done),
        (Call::Signal(0, None), Reply::Done),
        (Call::Register(0, 1, Mode::Sig), Reply::Done),
        (Call::Pass(0), Reply::Phase(0)),
        (
            Call::Signal(1, None),
            Reply::Refused(Refusal::AlreadySignalled),
        ),
        (Call::Pass(1), Reply::Phase(0)),
        (Call::Signal(0, None), Reply::Done),
        (Call::Pass(0), Reply::NotYet),
        (Call::Signal(1, None), Reply::Done),
        (Call::Pass(0), Reply::Phase(1)),
    ],
    ..PLAIN
};

/// A task that only signals runs ahead; a task that only waits follows it, phase by phase.
pub const SIGNALLER_RUNS_AHEAD: Example = Example {
    rows: &[
        (Call::Make(0, Mode::SigWait), Reply::Done),
        (Call::Register(0, 1, Mode::Sig), Reply::Done),
        (Call::Register(0, 2, Mode::Wait), Reply::Done),
        (Call::Drop(0), Reply::Done),
        (Call::Signal(1, None), Reply::Done),
        (Call::Pass(1), Reply::Phase(0)),
        (Call::Signal(1, None), Reply::Done),
        (Call::Pass(1), Reply::Phase(1)),
        (Call::Signal(1, None), Reply::Done),
        (Call::Pass(1), Reply::Phase(2)),
        (Call::Pass(2), Reply::Phase(0)),
        (Call::Pass(2), Reply::Phase(1)),
        (Call::Pass(2), Reply::Phase(2)),
        (Call::Pass(2), Reply::NotYet),
    ],
    ..PLAIN
};

/// A value counts even if its sender is dropped before it signals.
pub const VALUE_OF_DROPPED_SENDER: Example = Example {
    operators: 1,
    rows: &[
        (Call::Make(0, Mode::SigWait), Reply::Done),
        (Call::Register(0, 1, Mode::Sig), Reply::Done),
        (Call::Register(0, 2, Mode::Wait), Reply::Done),
        (Call::Drop(0), Reply::Done),
        (Call::Send(1, 0, 5), Reply::Done),
        (Call::Pass(2), Reply::NotYet),
        (Call::Drop(1), Reply::Done),
        (Call::Pass(2), Reply::Phase(0)),
        (Call::Look(2, 0), Reply::Saw(Look::Value(5))),
    ],
    ..PLAIN
};

/// The sum of no value is 0, and there is no least and no greatest of none.
pub const EMPTY_FOLDS: Example = Example {
    operators: 3,
    rows: &[
        (Call::Make(0, Mode::SigWait), Reply::Done),
        (Call::Look(0, 0), Reply::Refused(Refusal::NoPhaseYet)),
        (Call::Signal(0, None), Reply::Done),
        (Call::Pass(0), Reply::Phase(0)),
        (Call::Look(0, 0), Reply::Saw(Look::Value(0))),
        (Call::Look(0, 1), Reply::Saw(Look::Nothing)),
        (Call::Look(0, 2), Reply::Saw(Look::Nothing)),
        (Call::Look(0, 3), Reply::Refused(Refusal::NoAccumulator)),
        (Call::Send(0, 3, 1), Reply::Refused(Refusal::NoAccumulator)),
    ],
    ..PLAIN
};

/// A sum is wider than its values.
pub const EXTREME_VALUES: Example = Example {
    operators: 3,
    rows: &[
        (Call::Make(0, Mode::SigWait), Reply::Done),
        (Call::Send(0, 0, -2147483648), Reply::Done),
        (Call::Send(0, 0, -2147483648), Reply::Done),
        (Call::Send(0, 1, -2147483648), Reply::Done),
        (Call::Signal(0, None), Reply::Done),
        (Call::Pass(0), Reply::Phase(0)),
        (Call::Look(0, 0), Reply::Saw(Look::Value(-4294967296))),
        (Call::Look(0, 1), Reply::Saw(Look::Value(-2147483648))),
        (Call::Look(0, 2), Reply::Saw(Look::Nothing)),
    ],
    ..PLAIN
};

/// A value that is sent after the signal counts for the next phase, and equal values count each.
pub const VALUE_AFTER_SIGNAL: Example = Example {
    operators: 1,
    rows: &[
        (Call::Make(0, Mode::SigWait), Reply::Done),
        (Call::Register(0, 1, Mode::Sig), Reply::Done),
        (Call::Send(0, 0, 3), Reply::Done),
        (Call::Send(0, 0, 3), Reply::Done),
        (Call::Signal(1, None), Reply::Done),
        (Call::Send(1, 0, 3), Reply::Done),
        (Call::Signal(0, None), Reply::Done),
        (Call::Pass(0), Reply::Phase(0)),
        (Call::Look(0, 0), Reply::Saw(Look::Value(6))),
        (Call::Pass(1), Reply::Phase(0)),
        (Call::Signal(1, None), Reply::Done),
        (Call::Signal(0, None), Reply::Done),
        (Call::Pass(0), Reply::Phase(1)),
        (Call::Look(0, 0), Reply::Saw(Look::Value(3))),
    ],
    ..PLAIN
};

/// One proposer claims the single; all others wait until it is reported done.
pub const SINGLE_STATEMENT: Example = Example {
    rows: &[
        (Call::Make(0, Mode::Single), Reply::Done),
        (Call::Register(0, 1, Mode::Single), Reply::Done),
        (Call::Register(0, 2, Mode::Single), Reply::Done),
        (Call::Signal(0, Some(7)), Reply::Done),
        (Call::Signal(1, Some(7)), Reply::Done),
        (
            Call::Signal(2, Some(8)),
            Reply::Refused(Refusal::SingleMismatch),
        ),
        (Call::Pass(0), Reply::NotYet),
        (Call::Signal(2, Some(7)), Reply::Done),
        (Call::Drop(0), Reply::Refused(Refusal::NotNow)),
        (Call::Pass(0), Reply::Claim(7)),
        (Call::Pass(1), Reply::NotYet),
        (Call::SingleDone(1), Reply::Refused(Refusal::NotNow)),
        (Call::SingleDone(0), Reply::Done),
        (Call::Pass(1), Reply::Phase(0)),
        (Call::Pass(0), Reply::Phase(0)),
        (Call::Pass(2), Reply::Phase(0)),
    ],
    ..PLAIN
};

/// Where an event has no room, a drop still has.
pub const HISTORY_FULL: Example = Example {
    history: 4,
    rows: &[
        (Call::Make(0, Mode::SigWait), Reply::Done),
        (Call::Signal(0, None), Reply::Done),
        (Call::Pass(0), Reply::Phase(0)),
        (Call::Signal(0, None), Reply::Refused(Refusal::HistoryFull)),
        (Call::Drop(0), Reply::Done),
    ],
    ..PLAIN
};

/// Each call is refused with the first refusal whose condition is not met.
pub const REFUSALS_IN_ORDER: Example = Example {
    operators: 1,
    rows: &[
        (Call::Make(0, Mode::SigWait), Reply::Done),
        (Call::Register(0, 1, Mode::Wait), Reply::Done),
        (Call::Signal(1, None), Reply::Refused(Refusal::NoSignal)),
        (
            Call::Register(0, 1, Mode::Sig),
            Reply::Refused(Refusal::RegisteredTwice),
        ),
        (
            Call::Signal(9, None),
            Reply::Refused(Refusal::NotRegistered),
        ),
        (Call::Signal(0, Some(5)), Reply::Refused(Refusal::NoSingle)),
        (Call::Pass(0), Reply::Refused(Refusal::NotSignalled)),
        (Call::Register(0, 2, Mode::Sig), Reply::Done),
        (Call::Look(2, 0), Reply::Refused(Refusal::NoWait)),
        (Call::Drop(1), Reply::Done),
        (
            Call::Register(0, 1, Mode::Wait),
            Reply::Refused(Refusal::RegisteredTwice),
        ),
        (Call::Make(3, Mode::Sig), Reply::Refused(Refusal::NotNow)),
    ],
    ..PLAIN
};

/// The task number is looked at before the number of registrations.
pub const REGISTRATIONS_FULL: Example = Example {
    regs: 1,
    rows: &[
        (Call::Make(0, Mode::SigWait), Reply::Done),
        (
            Call::Register(0, 256, Mode::Sig),
            Reply::Refused(Refusal::TasksFull),
        ),
        (
            Call::Register(0, 1, Mode::Sig),
            Reply::Refused(Refusal::RegsFull),
        ),
    ],
    ..PLAIN
};

/// A proposal needs room for its claim and its report; a plain signal has room if it hasn't.
pub const NO_ROOM_FOR_A_SINGLE: Example = Example {
    history: 4,
    rows: &[
        (Call::Make(0, Mode::Single), Reply::Done),
        (
            Call::Signal(0, Some(7)),
            Reply::Refused(Refusal::HistoryFull),
        ),
        (Call::Signal(0, None), Reply::Done),
    ],
    ..PLAIN
};

/// If a proposal has room, its claim and its report never fail for room.
pub const ROOM_FOR_A_SINGLE: Example = Example {
    history: 5,
    rows: &[
        (Call::Make(0, Mode::Single), Reply::Done),
        (Call::Signal(0, Some(7)), Reply::Done),
        (Call::Pass(0), Reply::Claim(7)),
        (Call::SingleDone(0), Reply::Done),
        (Call::Pass(0), Reply::Refused(Refusal::HistoryFull)),
        (Call::Drop(0), Reply::Done),
    ],
    ..PLAIN
};

/// A plain waiter holds still while the single of its phase is open. It asks a second time while it
/// waits, which a table refuses: this one is for a phaser alone.
pub const PLAIN_WAITER_HOLDS_STILL: Example = Example {
    rows: &[
        (Call::Make(0, Mode::Single), Reply::Done),
        (Call::Register(0, 1, Mode::SigWait), Reply::Done),
        (Call::Signal(0, Some(7)), Reply::Done),
        (Call::Signal(1, None), Reply::Done),
        (Call::Pass(1), Reply::NotYet),
        (Call::Pass(0), Reply::Claim(7)),
        (Call::Pass(1), Reply::NotYet),
        (Call::SingleDone(0), Reply::Done),
        (Call::Pass(1), Reply::Phase(0)),
        (Call::Pass(0), Reply::Phase(0)),
    ],
    ..PLAIN
};

/// A bound of 1: a signaller is held until the slowest waiter has passed.
pub const BOUNDED_SIGNALLER: Example = Example {
    bound: Some(1),
    rows: &[
        (Call::Make(0, Mode::SigWait), Reply::Done),
        (Call::Register(0, 1, Mode::Sig), Reply::Done),
        (Call::Register(0, 2, Mode::Wait), Reply::Done),
        (Call::Drop(0), Reply::Done),
        (Call::Signal(1, None), Reply::Done),
        (Call::Pass(1), Reply::Phase(0)),
        (Call::Signal(1, None), Reply::NotYet),
        (Call::Pass(2), Reply::Phase(0)),
        (Call::Signal(1, None), Reply::Done),
    ],
    ..PLAIN
};

/// A signal is refused before it has to wait, and a drop of the slowest waiter wakes it.
pub const BOUND_AND_REFUSALS: Example = Example {
    bound: Some(1),
    rows: &[
        (Call::Make(0, Mode::SigWait), Reply::Done),
        (Call::Register(0, 1, Mode::Wait), Reply::Done),
        (Call::Signal(0, None), Reply::Done),
        (Call::Pass(0), Reply::Phase(0)),
        (Call::Signal(0, None), Reply::NotYet),
        (Call::Signal(0, Some(5)), Reply::Refused(Refusal::NoSingle)),
        (Call::Drop(1), Reply::Done),
        (Call::Signal(0, None), Reply::Done),
    ],
    ..PLAIN
};

/// The calls of [`BOUND_AND_REFUSALS`], if a signaller that is parked asks again: a table gives
/// its item back, and the drop lets it go on. A phaser alone knows nothing of items, and answers
/// `NotYet` once more: this one is for a table.
pub const ASKED_AGAIN_WHILE_PARKED: Example = Example {
    bound: Some(1),
    rows: &[
        (Call::Make(0, Mode::SigWait), Reply::Done),
        (Call::Register(0, 1, Mode::Wait), Reply::Done),
        (Call::Signal(0, None), Reply::Done),
        (Call::Pass(0), Reply::Phase(0)),
        (Call::Signal(0, None), Reply::NotYet),
        (Call::Signal(0, None), Reply::Refused(Refusal::NotNow)),
        (Call::Signal(0, Some(5)), Reply::Refused(Refusal::NoSingle)),
        (Call::Drop(1), Reply::Done),
        (Call::Signal(0, None), Reply::Done),
    ],
    ..PLAIN
};

/// Those whose calls a table answers too, with `Parked` for `not yet`.
pub const ON_A_TABLE: [&Example; 19] = [
    &ONE_TASK_TURN,
    &LATE_READER,
    &TWO_TASKS_TURN,
    &WAITER_ALONE,
    &SPLIT_PHASE_CHILD,
    &SIGNALLER_RUNS_AHEAD,
    &VALUE_OF_DROPPED_SENDER,
    &EMPTY_FOLDS,
    &EXTREME_VALUES,
    &VALUE_AFTER_SIGNAL,
    &SINGLE_STATEMENT,
    &HISTORY_FULL,
    &REFUSALS_IN_ORDER,
    &REGISTRATIONS_FULL,
    &NO_ROOM_FOR_A_SINGLE,
    &ROOM_FOR_A_SINGLE,
    &BOUNDED_SIGNALLER,
    &BOUND_AND_REFUSALS,
    &ASKED_AGAIN_WHILE_PARKED,
];
