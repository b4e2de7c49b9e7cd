//! What a task is given to do, and what comes back to it of what it did.
use phase_model::{Bound, Look, Ops};
use phase_modes::{Mode, Phased};

/// An act of a task. `B` is the body of a child. Phasers are named by their numbers, accumulators
/// by their index.
#[derive(Drop)]
pub enum Act<B: Drop> {
    /// Spawns a child with this body, registered on these phasers.
    Async(B, Phased),
    /// Spawns a child with this body, registered on all phasers of the task,
    /// in the task's own modes.
    AsyncAll(B),
    /// Opens a finish inside the innermost one.
    OpenFinish,
    /// Shuts the innermost finish, once all tasks spawned in it have ended.
    ShutFinish,
    /// Makes a phaser with these operators and this bound, if it is bounded, on which the task is
    /// registered in this mode.
    New(Mode, Ops, Option<Bound>),
    /// Signals on each phaser on which the task can signal.
    Signal,
    /// Ends the turn on each phaser, which the task has signalled before.
    Wait,
    /// Signals if the task hasn't yet, then ends the turn on each phaser.
    Next,
    /// The same on the one phaser of the task, and proposes the single statement of this number.
    NextSingle(u32),
    /// Sends a value to an accumulator of a phaser.
    Send(u32, u8, i32),
    /// Looks at an accumulator of a phaser, as the last turn left it.
    Look(u32, u8),
    /// Ends the task.
    End,
}

/// What a task hears before its next act: that it starts, or the outcome of its last act.
#[derive(Clone, Copy, Debug, PartialEq, Eq)]
pub enum Answer {
    /// It makes its first act.
    Started,
    /// The act was made, and has no answer of its own.
    Done,
    /// The phaser of this number was made.
    Made(u32),
    /// The child of this number was spawned.
    Spawned(u32),
    /// What was seen.
    Saw(Look),
}
