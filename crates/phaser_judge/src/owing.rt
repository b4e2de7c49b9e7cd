//! Who keeps a phase open.
ghost use Rattle.std.specs.Prelude.{◌≡◌, []};

use phaser_core::Phase;
use std::alloc::Global;

/// The phase of a task that had to wait, and the tasks that owe it: they are registered, can signal, and
/// haven't signalled it. No task is named if the phase is closed and its single isn't done, or if it is a
/// signal that the bound holds back.
#[derive(Drop)]
pub struct Owing {
    pub phase: Phase,
    /// The runtime's numbers, in the order of the registrations; at most 256.
    pub tasks: Vec<u64>,
}

impl Owing {
    /// No task. It takes no memory.
    pub fn none(alloc: Global) -> Owing
        ensures { result.tasks.items ≡ [] }
    {
        Owing {
            phase: 0,
            tasks: Vec::new(alloc),
        }
    }
}
