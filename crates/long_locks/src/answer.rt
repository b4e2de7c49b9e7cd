//! What a call answers, and what those were answered whom it freed.
use phase_modes::Refusal;
use phaser_core::{LongTask, Out, Phase};

/// How a task's call ended.
#[derive(Clone, Copy, Debug, PartialEq, Eq)]
pub enum Ended {
    /// The phase is signalled.
    Signalled,
    /// The turn of this phase is ended.
    Passed(Phase),
    /// The task claimed the single of this number: it runs the statement, and reports it done
    /// before it asks to pass again.
    Claimed(u32),
    /// The call was refused.
    Refused(Refusal),
}

/// A task whose parked call has ended.
#[derive(Clone, Copy, Debug, PartialEq, Eq)]
pub struct Freed {
    pub task: LongTask,
    pub ended: Ended,
}

/// Those whom a call freed, in the order in which their calls ended. It has room for 256.
pub type FreedList = Out<Freed>;

/// What a call answers that may have to wait.
#[derive(Clone, Copy, Debug, PartialEq, Eq)]
pub enum AskAnswer {
    /// The call has ended.
    Ended(Ended),
    /// The task is parked: it is among those whom a later call frees.
    Parked,
}
