//! Those whom a call frees, as C is told of them.
ghost use Rattle.std.specs.Prelude.{◌≡◌, ◌≤◌, [], length};
ghost use Rattle.phaser_c.specs.Freed.{ended_answer, ended_number, given_freed, freed_told};

use crate::answer::ExportAnswer;
use long_locks::{Ended, Freed, FreedList};

/// A task that was freed: `paldwosk_freed`.
#[repr(C)]
#[derive(Clone, Copy, Debug, Drop)]
pub struct GivenFreed {
    pub task: u64,
    pub number: u64,
    pub answer: u32,
}

impl ExportAnswer {
    /// What is answered if a call ended so.
    pub(crate) fn of_ended(ended: Ended) -> ExportAnswer
        ensures { result ≡ ended_answer ended }
    {
        match ended {
            Ended::Signalled | Ended::Passed(_) => ExportAnswer::Done,
            Ended::Claimed(_) => ExportAnswer::Claimed,
            Ended::Refused(refusal) => ExportAnswer::Refused(refusal),
        }
    }
}

/// The phase that was passed, or the number of the single that was claimed; else 0.
fn number_of(ended: Ended) -> u64
    ensures { result ≡ ended_number ended }
{
    match ended {
        Ended::Passed(phase) => phase,
        Ended::Claimed(number) => u64::from(number),
        Ended::Signalled | Ended::Refused(_) => 0,
    }
}

impl GivenFreed {
    /// The task that was freed.
    fn of(freed: Freed) -> GivenFreed
        ensures { result ≡ given_freed freed }
    {
        GivenFreed {
            task: freed.task,
            number: number_of(freed.ended),
            answer: ExportAnswer::of_ended(freed.ended).number(),
        }
    }
}

/// Tells of all who were freed, in the first places of the room, and how many they are.
pub(crate) fn tell_freed(freed: &mut FreedList, room: &mut [GivenFreed], count: &mut usize)
    requires { length freed.old ≤ length room.old }
    ensures empty { freed.new ≡ [] }
    ensures told { room.new ≡ freed_told freed.old room.old }
    ensures count { count.new ≡ length freed.old }
{
    let mut told = 0;
    while let Some(next) = freed.take() {
        room[told] = GivenFreed::of(next);
        told += 1;
    }
    *count = told;
}
