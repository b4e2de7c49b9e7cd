//! What luck decides in a run, and the line that says it.
ghost use Rattle.std.specs.Prelude.{◌≡◌};
ghost use Rattle.run_laws.specs.Luck.{luck_of};

use finish_core::FinishEvent;
use std::fmt;
use world_model::{Begun, Step, TaskLine, WorldEvent};

/// What luck decides by an event. The first number is that of the task which makes it.
#[derive(Clone, Copy, Debug, PartialEq, Eq)]
pub enum Luck {
    /// The task was refused an act, or gave one up, by the refusal of this number.
    Refused(u32, u8),
    /// The task drew the number of a phaser that it made.
    Phaser(u32, u32),
    /// The task drew the number of a child that it spawns.
    Child(u32, u32),
    /// The task drew the number of a finish that it opened.
    Finish(u32, u32),
    /// The task registered this child on this phaser, and there is room only if others have left.
    Registered(u32, u32, u32),
}

/// The first event of a run by which luck decides something.
#[derive(Clone, Copy, Debug, PartialEq, Eq)]
pub struct LuckAt {
    /// Where the event stands in the run's trace, counted from 1.
    pub place: u64,
    pub luck: Luck,
}

/// What luck may decide by the event: of a refusal that it comes, of a draw its number, of a
/// registration whether there is room.
pub(crate) fn luck_in(event: &WorldEvent) -> Option<Luck>
    ensures { result ≡ luck_of event.now }
{
    match event {
        WorldEvent::Refuse(task, _, number) | WorldEvent::Fail(task, number) => {
            Some(Luck::Refused(*task, *number))
        }
        WorldEvent::Phaser(phaser, Step::Make(task, _, _)) => Some(Luck::Phaser(*task, *phaser)),
        WorldEvent::Phaser(phaser, Step::Reg(parent, child, _)) => {
            Some(Luck::Registered(*parent, *child, *phaser))
        }
        WorldEvent::Begin(task, Begun::Async(child, _)) => Some(Luck::Child(*task, *child)),
        WorldEvent::Finish(finish, FinishEvent::Opened(task)) => {
            Some(Luck::Finish(*task, *finish))
        }
        _ => None,
    }
}

impl fmt::Display for Luck {
    ghost use Rattle.std.specs.Prelude.{Some};
    ghost use Rattle.run_laws.specs.Luck.{luck_text};

    ghost output = { λ l. Some (luck_text l) };

    /// `task 3 refused 14 RegsFull`, or `task 2 draws phaser 1`; without a newline.
    fn fmt<W: fmt::Write>(&self, f: &mut fmt::Formatter<W>) -> fmt::Result {
        match *self {
            Luck::Refused(task, number) => {
                let line = TaskLine {
                    task,
                    refused: Some(number),
                };
                write!(f, "{line}")
            }
            Luck::Phaser(task, phaser) => write!(f, "task {task} draws phaser {phaser}"),
            Luck::Child(task, child) => write!(f, "task {task} draws task {child}"),
            Luck::Finish(task, finish) => write!(f, "task {task} draws finish {finish}"),
            Luck::Registered(parent, child, phaser) => {
                write!(f, "task {parent} registers task {child} on phaser {phaser}")
            }
        }
    }
}

impl fmt::Display for LuckAt {
    ghost use Rattle.std.specs.Prelude.{Some};
    ghost use Rattle.run_laws.specs.Luck.{luck_at_text};

    ghost output = { λ l. Some (luck_at_text l) };

    /// `luck at 12: task 3 refused 14 RegsFull`; without a newline.
    fn fmt<W: fmt::Write>(&self, f: &mut fmt::Formatter<W>) -> fmt::Result {
        write!(f, "luck at {}: {}", self.place, self.luck)
    }
}
