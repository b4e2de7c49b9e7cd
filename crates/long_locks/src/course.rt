//! How far one call of a task comes.
ghost use Rattle.std.specs.Prelude.{◌≡◌, List};
ghost use Rattle.long_locks.specs.Courses.{course, story_after, pass_course, signal_course, signalled_course, has_moved, answer_of};

use crate::answer::{AskAnswer, Ended};
use phase_model::{LongPassing, Passing, Signalling};
use phase_modes::Refusal;
use phaser_core::{LongPhaser, LongTask, ParkedCall};

/// What a task does once the call for which it is parked is made.
#[derive(Clone, Copy, Debug, PartialEq, Eq)]
pub enum Then {
    /// It goes on: its call has ended.
    Return,
    /// It has signalled, and asks to pass.
    Pass,
}

/// How far a task's call has come.
#[derive(Clone, Copy, Debug, PartialEq, Eq)]
pub enum Course {
    /// It has ended.
    Over(Ended),
    /// The task has signalled, and is yet to pass.
    HasSignalled,
    /// It has to wait.
    Waits,
}

/// How far a pass comes that is answered so.
pub fn of_pass(answer: Result<LongPassing, Refusal>) -> Course
    ensures { result ≡ pass_course answer }
{
    match answer {
        Ok(Passing::Passed(phase)) => Course::Over(Ended::Passed(phase)),
        Ok(Passing::Claimed(number)) => Course::Over(Ended::Claimed(number)),
        Ok(Passing::NotYet) => Course::Waits,
        Err(refusal) => Course::Over(Ended::Refused(refusal)),
    }
}

fn of_signalled(then: Then) -> Course
    ensures { result ≡ signalled_course then }
{
    match then {
        Then::Return => Course::Over(Ended::Signalled),
        Then::Pass => Course::HasSignalled,
    }
}

/// How far a signal comes that is answered so.
pub fn of_signal(then: Then, answer: Result<Signalling, Refusal>) -> Course
    ensures { result ≡ signal_course then answer }
{
    match answer {
        Ok(Signalling::Signalled) => of_signalled(then),
        Ok(Signalling::NotYet) => Course::Waits,
        Err(refusal) => Course::Over(Ended::Refused(refusal)),
    }
}

/// Makes the call of the task on the phaser.
pub fn step(state: &mut LongPhaser, task: LongTask, call: ParkedCall, then: Then) -> Course
    ensures course { result ≡ course state.old.story task call then }
    ensures history { state.new.story ≡ story_after state.old.story task call }
    ensures next { state.new.next ≡ state.old.next }
{
    match call {
        ParkedCall::Pass => of_pass(state.pass(task)),
        ParkedCall::Signal(number) => of_signal(then, state.signal(task, number)),
    }
}

/// Whether an event was added, so that others may need no longer wait.
pub fn has_moved(course: Course) -> bool
    ensures { result ≡ has_moved course }
{
    match course {
        Course::Over(Ended::Refused(_)) | Course::Waits => false,
        Course::Over(_) | Course::HasSignalled => true,
    }
}

/// What the task is answered whose call came so far; it is parked if the call isn't over.
pub fn answer_of(course: Course) -> AskAnswer
    ensures { result ≡ answer_of course }
{
    match course {
        Course::Over(ended) => AskAnswer::Ended(ended),
        Course::HasSignalled | Course::Waits => AskAnswer::Parked,
    }
}
