//! What a task is about.

/// The condition of a task that was spawned, or of the root.
#[derive(Clone, Copy, Debug, PartialEq, Eq)]
pub enum Condition {
    /// In the middle of no act.
    Idle,
    /// It has signals still to make.
    Signalling,
    /// It has made the signals of its turn, and has passes still to make.
    Turning,
    /// It has a child still to register, or to spawn.
    Spawning,
    /// It leaves the phasers of a finish, and shuts it.
    Shutting,
    /// It leaves its phasers, shuts its finishes, and ends.
    Ending,
    Ended,
}
