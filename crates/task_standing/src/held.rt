//! A phaser that a task holds, as the task itself knows it.
ghost use Rattle.std.specs.Prelude.{◌≡◌};
ghost use Rattle.task_standing.specs.Standing.{owes, handed, marked};

use phase_modes::Mode;

/// A phaser that a task holds: the finish in which it was made, the task's mode on it, and whether
/// the task has signalled there since its last turn.
#[derive(Clone, Copy, Debug, PartialEq, Eq)]
pub struct Held {
    pub phaser: u32,
    pub finish: u32,
    pub mode: Mode,
    pub ahead: bool,
}

impl Held {
    /// Whether the task can signal there, and hasn't since its last turn.
    pub fn owes(self) -> bool
        ensures { result ≡ owes self }
    {
        self.mode.can_signal() && !self.ahead
    }

    /// What a child in this mode knows of the phaser, if the task hands it on.
    pub fn handed(self, mode: Mode) -> Held
        ensures { result ≡ handed mode self }
    {
        Held {
            mode,
            ahead: self.ahead && mode.can_signal(),
            ..self
        }
    }

    /// The same, with the mark if it is of this phaser.
    pub(crate) fn marked(self, phaser: u32, ahead: bool) -> Held
        ensures { result ≡ marked phaser ahead self }
    {
        if self.phaser == phaser {
            Held { ahead, ..self }
        } else {
            self
        }
    }
}
