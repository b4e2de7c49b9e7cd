//! The events of a finish.
ghost use Rattle.std.specs.Prelude.{◌≡◌};

/// One event of a finish. The number is the owner's in `Opened`, else that of the spawned task.
#[derive(Clone, Copy, Debug, PartialEq, Eq)]
pub enum FinishEvent {
    /// The owner opened it.
    Opened(u32),
    /// The task was spawned in it.
    Spawned(u32),
    /// The task ended.
    Ended(u32),
    /// It was shut: its owner waits for nobody any more.
    Shut,
}

impl FinishEvent {
    ghost use Rattle.finish_core.specs.Finish.{spawned_by, ends, shuts};

    /// The task that it spawns.
    pub(crate) fn spawned(self) -> Option<u32>
        ensures { result ≡ spawned_by self }
    {
        match self {
            FinishEvent::Spawned(task) => Some(task),
            _ => None,
        }
    }

    /// Whether it is the end of the task.
    pub(crate) fn ends(self, task: u32) -> bool
        ensures { result ≡ ends task self }
    {
        match self {
            FinishEvent::Ended(t) => t == task,
            _ => false,
        }
    }

    /// Whether it shuts the finish.
    pub(crate) fn shuts(self) -> bool
        ensures { result ≡ shuts self }
    {
        matches!(self, FinishEvent::Shut)
    }
}
