//! A task that stands level with others, as the library keeps it for C, and its calls.
ghost use Rattle.std.specs.Prelude.{◌≡◌, None};
ghost use Rattle.phaser_c.specs.LevelCalls.{may_come, may_look, IsCalledBy, HasCome, HasLooked, HasLeft, HasSent, HasSeen, IsSeenBy, HasGiven, IsGivenBy, stands, waits};

use crate::answer::ExportAnswer;
use crate::waiting_tasks::answer_done;
use crate::waiting_values::give_seen;
use level_phaser::{LevelPhaser, Member, Stage};
use phase_modes::Refusal;

/// A task, or none. It takes 256 bytes, so that no two tasks lie in one line of memory.
#[derive(Drop)]
pub(crate) struct LevelTask {
    pub(crate) member: Option<Member<LevelPhaser>>,
    apart: [u64; 23],
}

/// Whether the task stands.
pub(crate) fn stands(member: &Member<LevelPhaser>) -> bool
    ensures { result ≡ stands member.now.stage }
{
    member.stage == Stage::Stands
}

/// Whether the task waits.
fn waits(member: &Member<LevelPhaser>) -> bool
    ensures { result ≡ waits member.now.stage }
{
    member.stage == Stage::Waits
}

/// Whether the task stands, and not in the last phase that there is a number for.
fn may_come(member: &Member<LevelPhaser>) -> bool
    ensures { result ≡ may_come member.now }
{
    member.stage == Stage::Stands && member.phase < u64::MAX
}

/// The same of a task that waits.
fn may_look(member: &Member<LevelPhaser>) -> bool
    ensures { result ≡ may_look member.now }
{
    member.stage == Stage::Waits && member.phase < u64::MAX
}

/// The task comes.
fn come(member: &mut Member<LevelPhaser>) -> ExportAnswer
    ensures { HasCome member.old member.new result }
{
    if !may_come(member) {
        return ExportAnswer::Refused(Refusal::NotNow);
    }
    if member.come() {
        return ExportAnswer::Done;
    }
    if member.stage == Stage::Stuck {
        return ExportAnswer::Refused(Refusal::HistoryFull);
    }
    ExportAnswer::NotYet
}

/// Whether the task that has come may go on.
fn look(member: &mut Member<LevelPhaser>) -> ExportAnswer
    ensures { HasLooked member.old member.new result }
{
    if !may_look(member) {
        return ExportAnswer::Refused(Refusal::NotNow);
    }
    if member.look() {
        return ExportAnswer::Done;
    }
    if member.stage == Stage::Closed {
        return ExportAnswer::Closed;
    }
    ExportAnswer::NotYet
}

/// The task leaves.
fn leave(member: &mut Member<LevelPhaser>) -> ExportAnswer
    ensures { HasLeft member.old member.new result }
{
    if !may_come(member) {
        return ExportAnswer::Refused(Refusal::NotNow);
    }
    if !member.leave() {
        return ExportAnswer::NotYet;
    }
    if member.stage == Stage::Stuck {
        return ExportAnswer::Refused(Refusal::HistoryFull);
    }
    ExportAnswer::Done
}

/// The task sends a value.
fn send(member: &mut Member<LevelPhaser>, accumulator: u8, value: i32) -> ExportAnswer
    ensures { HasSent accumulator value member.old member.new result }
{
    if !stands(member) {
        return ExportAnswer::Refused(Refusal::NotNow);
    }
    match member.send(accumulator, value) {
        Some(outcome) => answer_done(outcome),
        None => ExportAnswer::NotYet,
    }
}

/// The task looks at an accumulator.
fn look_at(member: &mut Member<LevelPhaser>, accumulator: u8, value: &mut i64) -> ExportAnswer
    ensures { HasSeen (stands member.old.stage) accumulator value.old value.new member.old member.new result }
{
    if !stands(member) {
        return ExportAnswer::Refused(Refusal::NotNow);
    }
    match member.look_at(accumulator) {
        Some(outcome) => give_seen(outcome, value),
        None => ExportAnswer::NotYet,
    }
}

/// The value that the task keeps, which it keeps no more.
fn give_kept(
    member: &mut Member<LevelPhaser>,
    accumulator: &mut u8,
    value: &mut i32,
) -> ExportAnswer
    ensures { HasGiven (waits member.old.stage) accumulator.old accumulator.new value.old value.new member.old member.new result }
{
    if waits(member) {
        return ExportAnswer::Refused(Refusal::NotNow);
    }
    let Some(sent) = member.take_kept() else {
        return ExportAnswer::Nothing;
    };
    *accumulator = sent.accumulator;
    *value = sent.value;
    ExportAnswer::Done
}

impl LevelTask {
    /// No task.
    pub(crate) fn none() -> LevelTask
        ensures { result.member ≡ None }
    {
        LevelTask {
            member: None,
            apart: [0; 23],
        }
    }

    /// The task comes.
    pub(crate) fn come(&mut self) -> ExportAnswer
        ensures { IsCalledBy HasCome self.old.member self.new.member result }
    {
        match &mut self.member {
            Some(member) => come(member),
            None => ExportAnswer::Closed,
        }
    }

    /// Whether the task that has come may go on.
    pub(crate) fn look(&mut self) -> ExportAnswer
        ensures { IsCalledBy HasLooked self.old.member self.new.member result }
    {
        match &mut self.member {
            Some(member) => look(member),
            None => ExportAnswer::Closed,
        }
    }

    /// The task leaves.
    pub(crate) fn leave(&mut self) -> ExportAnswer
        ensures { IsCalledBy HasLeft self.old.member self.new.member result }
    {
        match &mut self.member {
            Some(member) => leave(member),
            None => ExportAnswer::Closed,
        }
    }

    /// The task sends a value.
    pub(crate) fn send(&mut self, accumulator: u8, value: i32) -> ExportAnswer
        ensures { IsCalledBy (HasSent accumulator value) self.old.member self.new.member result }
    {
        match &mut self.member {
            Some(member) => send(member, accumulator, value),
            None => ExportAnswer::Closed,
        }
    }

    /// The task looks at an accumulator.
    pub(crate) fn look_at(&mut self, accumulator: u8, value: &mut i64) -> ExportAnswer
        ensures { IsSeenBy accumulator self.old.member self.new.member value.old value.new result }
    {
        match &mut self.member {
            Some(member) => look_at(member, accumulator, value),
            None => ExportAnswer::Closed,
        }
    }

    /// The value that the task keeps is given.
    pub(crate) fn give_kept(&mut self, accumulator: &mut u8, value: &mut i32) -> ExportAnswer
        ensures { IsGivenBy self.old.member self.new.member accumulator.old accumulator.new value.old value.new result }
    {
        match &mut self.member {
            Some(member) => give_kept(member, accumulator, value),
            None => ExportAnswer::Closed,
        }
    }
}
