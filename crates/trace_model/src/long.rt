//! An event that takes much room, and is kept apart.
ghost use Rattle.std.specs.Prelude.{◌≡◌};
ghost use Rattle.trace_model.specs.Views.{long_event};

use crate::event::{TracedEvent, TracedStep};
use phase_model::Terms;
use phase_modes::{Mode, Phased};
use world_model::{Begun, Tried};

/// An event that takes much room, and is kept apart. Beside a phaser's number the first number is
/// the acting task's.
#[derive(Clone, Copy, Debug, PartialEq, Eq)]
pub enum LargeEvent {
    /// The phaser of the first number was made: by this task, which was registered in this mode,
    /// with these terms.
    Make(u32, u32, Mode, Terms),
    /// An entry of a task's log: it began to spawn this child, registered on these phasers.
    Async(u32, u32, Phased),
    /// An entry: the act was refused by the refusal of this number, and the task ended.
    Refuse(u32, Tried, u8),
}

impl LargeEvent {
    /// The event.
    pub fn event(&self) -> TracedEvent
        ensures { result ≡ long_event self.now }
    {
        match *self {
            LargeEvent::Make(phaser, task, mode, terms) => {
                TracedEvent::Phaser(phaser, TracedStep::Make(task, mode, terms))
            }
            LargeEvent::Async(task, child, pairs) => {
                TracedEvent::Begin(task, Begun::Async(child, pairs))
            }
            LargeEvent::Refuse(task, act, number) => TracedEvent::Refuse(task, act, number),
        }
    }
}
