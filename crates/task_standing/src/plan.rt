//! What a task is about, and the event that comes next of it.
ghost use Rattle.std.specs.Prelude.{◌≡◌};
ghost use Rattle.task_standing.specs.Noted.{plan_of};

use phase_modes::{Pair, Phased};
use world_model::Begun;

/// What a task is about. If nothing is left to make of it the task may begin an act, whatever
/// plan it has.
#[derive(Clone, Copy, Debug, PartialEq, Eq)]
pub enum Plan {
    /// Nothing.
    Idle,
    /// To signal wherever a signal is owed, with this number; in a turn, then to pass everywhere.
    Signalling(Option<u32>, bool),
    /// To pass the phasers that it holds, from this place on.
    Turning(u32),
    /// To register the unborn child of this number for the pairs from this place on, and then to
    /// spawn it.
    Spawning(u32, Phased, u32),
    /// To leave the phasers of its innermost finish, and then to shut that.
    Shutting,
    /// To leave all phasers, to shut its open finishes, the innermost first, and to end.
    Ending,
}

impl Plan {
    /// The plan by which an act goes on that is begun.
    pub fn of(begun: &Begun) -> Plan
        ensures { result ≡ plan_of begun.now }
    {
        match begun {
            Begun::Async(child, pairs) => Plan::Spawning(*child, *pairs, 0),
            Begun::Signal => Plan::Signalling(None, false),
            Begun::Wait => Plan::Turning(0),
            Begun::Next => Plan::Signalling(None, true),
            Begun::NextSingle(number) => Plan::Signalling(Some(*number), true),
            Begun::Shut => Plan::Shutting,
            Begun::End => Plan::Ending,
        }
    }
}

/// The event that comes next of a task.
#[derive(Clone, Copy, Debug, PartialEq, Eq)]
pub enum Due {
    /// None: the task may begin an act.
    Step,
    /// A signal on the phaser of this number, with this number if it proposes a single.
    Signal(u32, Option<u32>),
    /// A pass of the phaser of this number; if the task may, the claim of a single and its
    /// report come before it.
    Pass(u32),
    /// The registration of the child of this number.
    Register(u32, Pair),
    /// The birth of the child of the first number, in the finish of the second.
    Spawn(u32, u32),
    /// The child of the second number, which was never born, leaves the phaser of the first.
    DropChild(u32, u32),
    /// The task leaves the phaser of this number.
    Leave(u32),
    /// The shut of the finish of this number.
    Shut(u32),
    /// The task's end, in the finish of this number.
    End(u32),
    /// The shut of finish 0, by the root: the end of the run.
    Close,
}
