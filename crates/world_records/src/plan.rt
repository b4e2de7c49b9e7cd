//! What a task is about: from which the events follow that it still has to make, without a list of them.
use phase_modes::Phased;

/// What a task is about. The numbers of the phasers that it has still to come to stand beside it,
/// in the task's record.
#[derive(Clone, Copy)]
pub enum Plan {
    /// Nothing: it may begin an act.
    Idle,
    /// To signal on the phasers that are left, with this number; in a turn, then to pass on all of
    /// its own.
    Signalling(Option<u32>, bool),
    /// To pass on the phasers that are left.
    Turning,
    /// To register this child for each pair from this place on, and then to spawn it.
    Spawning(u32, Phased, u32),
    /// To leave the phasers that are left, and then to shut its innermost finish.
    Shutting,
    /// To drop this child from the phasers that are left, then to leave its own, to shut its open
    /// finishes, and to end.
    Ending(u32),
}
