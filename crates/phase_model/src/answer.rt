//! How a signal and a pass end.

/// How a `signal` ended.
#[derive(Clone, Copy, Debug, PartialEq, Eq)]
pub enum Signalling {
    /// The task has signalled its phase.
    Signalled,
    /// The task is too far ahead of a waiter: it asks again after another's call.
    NotYet,
}

/// How a `pass` ended. Phases are counted by 32 bits if nothing else is said.
#[derive(Clone, Copy, Debug, PartialEq, Eq)]
pub enum Passing<P = u32> {
    /// The turn of this phase is ended.
    Passed(P),
    /// The task claimed the single of its phase: it runs the statement of this number, and reports
    /// it done before it asks to pass again.
    Claimed(u32),
    /// The phase isn't closed, or its single isn't done: the task asks again after another's call.
    NotYet,
}

/// How a `pass` ended on a phaser that lives long: phases are counted by 64 bits.
pub type LongPassing = Passing<u64>;
