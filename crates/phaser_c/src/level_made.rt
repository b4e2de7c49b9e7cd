//! Tasks that stand level are made for handles, and freed.
ghost use Rattle.std.specs.Prelude.{◌≡◌, ◌⊎◌, None, Some, IfOk, IfErr, MatchResult, is_some};
ghost use Rattle.phase_modes.specs.declared.refusal.Refusal.TheVariants.{Memory};
ghost use Rattle.phaser_c.specs.Answers.{number_of_answer};
ghost use Rattle.phaser_c.specs.WaitingGiven.{long_story_given};
ghost use Rattle.phaser_c.specs.LevelCalls.{member_of, IsFirst, IsGiven, IsFirstFor, HasJoinedFor, IsJoinedFor};
ghost use Rattle.phaser_c.specs.declared.answer.ExportAnswer.{ExportAnswer as Answered};
ghost use Rattle.phaser_c.specs.declared.answer.ExportAnswer.TheVariants.{Done, Refused as refused};

use crate::answer::ExportAnswer;
use crate::given::{bound_of, ops_of};
use crate::level_handle::LevelHandle;
use crate::level_task::{LevelTask, stands};
use level_phaser::{LevelPhaser, Member};
use phase_modes::Refusal;
use std::alloc::Global;

/// The first task of a phaser of the operators of these numbers, and with this bound.
fn first_of(
    alloc: Global,
    operators: &[u32],
    bound: u32,
) -> Result<Member<LevelPhaser>, ExportAnswer>
    ensures made { IfOk result (λ m. IsGiven (long_story_given operators.now bound) × IsFirst m) }
    ensures refused { IfErr result (λ a. MatchResult (long_story_given operators.now bound)
        (λ _. a ≡ refused Memory) (λ why. a ≡ why)) }
{
    let Some(ops) = ops_of(operators) else {
        return Err(ExportAnswer::BadOperators);
    };
    let Some(Some(bound)) = bound_of(bound) else {
        return Err(ExportAnswer::BadBound);
    };
    let Ok(phaser) = LevelPhaser::new(alloc, ops, bound) else {
        return Err(ExportAnswer::Refused(Refusal::Memory));
    };
    match Member::new(alloc, phaser) {
        Ok(member) => Ok(member),
        Err(_) => Err(ExportAnswer::Refused(Refusal::Memory)),
    }
}

/// Whether the handle holds a task.
pub(crate) fn holds_one(alloc: Global, task: &mut LevelHandle) -> bool
    ensures one { result ≡ is_some (member_of task.old.state) }
    ensures kept { task.new.state ≡ task.old.state }
{
    let Some(held) = task.take(alloc) else {
        return false;
    };
    let is_one = held.member.is_some();
    task.put(alloc, held);
    is_one
}

/// Puts a task into a handle, in this box.
pub(crate) fn put_in(
    alloc: Global,
    task: &mut LevelHandle,
    mut place: Box<LevelTask>,
    member: Member<LevelPhaser>,
)
    ensures { member_of task.new.state ≡ Some member }
{
    place.member = Some(member);
    task.put(alloc, place);
}

/// Puts a task into a handle, unless memory is refused.
fn put_first(alloc: Global, task: &mut LevelHandle, member: Member<LevelPhaser>) -> ExportAnswer
    ensures { ((result ≡ Done) × (member_of task.new.state ≡ Some member))
        ⊎ ((result ≡ refused Memory) × (task.new.state ≡ task.old.state)) }
{
    let Ok(place) = Box::new(alloc, LevelTask::none()) else {
        return ExportAnswer::Refused(Refusal::Memory);
    };
    put_in(alloc, task, place, member);
    ExportAnswer::Done
}

/// Makes a phaser's first task for a handle that holds none.
fn make_new(alloc: Global, task: &mut LevelHandle, operators: &[u32], bound: u32) -> ExportAnswer
    ensures { IsFirstFor (member_of task.old.state) (member_of task.new.state)
        (long_story_given operators.now bound) result }
{
    if holds_one(alloc, task) {
        return ExportAnswer::Open;
    }
    match first_of(alloc, operators, bound) {
        Ok(member) => put_first(alloc, task, member),
        Err(answer) => answer,
    }
}

/// A new task joins by this one, for a handle that holds none. Its memory is taken first: a task that
/// has joined and has no handle would keep the others waiting.
fn join_by(alloc: Global, member: &mut Member<LevelPhaser>, other: &mut LevelHandle) -> ExportAnswer
    ensures { HasJoinedFor member.old member.new (member_of other.old.state) (member_of other.new.state) result }
{
    if holds_one(alloc, other) {
        return ExportAnswer::Open;
    }
    if !stands(member) {
        return ExportAnswer::Refused(Refusal::NotNow);
    }
    let Ok(place) = Box::new(alloc, LevelTask::none()) else {
        return ExportAnswer::Refused(Refusal::Memory);
    };
    let Some(child) = member.join() else {
        return ExportAnswer::NotYet;
    };
    put_in(alloc, other, place, child);
    ExportAnswer::Done
}

/// The same by what a box holds.
fn join_held(alloc: Global, held: &mut LevelTask, other: &mut LevelHandle) -> ExportAnswer
    ensures { IsJoinedFor held.old.member held.new.member (member_of other.old.state)
        (member_of other.new.state) result }
{
    match &mut held.member {
        Some(member) => join_by(alloc, member, other),
        None => ExportAnswer::Closed,
    }
}

/// The same by what a handle holds.
fn join(alloc: Global, task: &mut LevelHandle, other: &mut LevelHandle) -> ExportAnswer
    ensures { IsJoinedFor (member_of task.old.state) (member_of task.new.state)
        (member_of other.old.state) (member_of other.new.state) result }
{
    let Some(mut held) = task.take(alloc) else {
        return ExportAnswer::Closed;
    };
    let answer = join_held(alloc, held.as_mut(), other);
    task.put(alloc, held);
    answer
}

/// `LevelPhaser::new` and `Member::new`, for a handle that holds no task.
#[unsafe(no_mangle)]
pub extern "C" fn phaser_c_level_new(
    alloc: Global,
    task: &mut LevelHandle,
    operators: &[u32],
    bound: u32,
) -> u32
    ensures { (a : Answered) × (result ≡ number_of_answer a)
        × IsFirstFor (member_of task.old.state) (member_of task.new.state)
        (long_story_given operators.now bound) a }
{
    make_new(alloc, task, operators, bound).number()
}

/// `Member::join`. The new task is for the other handle.
#[unsafe(no_mangle)]
pub extern "C" fn phaser_c_level_join(
    alloc: Global,
    task: &mut LevelHandle,
    other: &mut LevelHandle,
) -> u32
    ensures { (a : Answered) × (result ≡ number_of_answer a)
        × IsJoinedFor (member_of task.old.state) (member_of task.new.state)
        (member_of other.old.state) (member_of other.new.state) a }
{
    join(alloc, task, other).number()
}

/// Frees what the handle holds, if it holds a task. The handle holds none from then on.
#[unsafe(no_mangle)]
pub extern "C" fn phaser_c_level_free(alloc: Global, task: &mut LevelHandle)
    ensures { task.new.state ≡ None }
{
    drop(task.take(alloc));
}
