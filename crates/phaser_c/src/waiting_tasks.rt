//! The tasks of a phaser for threads that wait: who comes, who has run a single, and who leaves.
ghost use Rattle.std.specs.Prelude.{◌≡◌, true, MatchOption};
ghost use Rattle.phase_model.specs.declared.call.Call.TheVariants.{Make as make, Register as register, SingleDone as single_done, Drop as drop_task};
ghost use Rattle.phase_model.specs.Replies.{reply, done_result};
ghost use Rattle.phaser_c.specs.Answers.{number_of_answer};
ghost use Rattle.phaser_c.specs.Given.{mode_of};
ghost use Rattle.phaser_c.specs.Waiting.{is_wide, told_at, answer_done, answer_of_done, answer_given, task_given, numbering, number_given_at, IsMade, IsLeft, IsGoneOnAt, IsNumbering, IsHeldAfter};
ghost use Rattle.phaser_c.specs.declared.answer.ExportAnswer.TheVariants.{BadMode};

use crate::answer::ExportAnswer;
use crate::freed::GivenFreed;
use crate::given::mode_of;
use crate::waiting_handle::WaitingHandle;
use phase_modes::{Mode, Refusal};
use phaser_core::LongTask;
use std::alloc::Global;

/// What is answered if a call was done or refused.
pub(crate) fn answer_done(outcome: Result<(), Refusal>) -> ExportAnswer
    ensures { result ≡ answer_done outcome }
{
    match outcome {
        Ok(()) => ExportAnswer::Done,
        Err(refusal) => ExportAnswer::Refused(refusal),
    }
}

fn answer_of_done(told: Result<Result<(), Refusal>, ExportAnswer>) -> ExportAnswer
    ensures { result ≡ answer_of_done told }
{
    match told {
        Ok(outcome) => answer_done(outcome),
        Err(why) => why,
    }
}

/// The task reports its single done. Those whom it frees are told in the room, which has to have 256
/// places.
fn single_done(
    alloc: Global,
    phaser: &mut WaitingHandle,
    task: LongTask,
    freed: &mut [GivenFreed],
    count: &mut usize,
) -> Result<Result<(), Refusal>, ExportAnswer>
    ensures answer { result ≡ told_at (is_wide freed.old) phaser.old.state
        (λ c. done_result (reply c.state.story (single_done task))) }
    ensures made { IsGoneOnAt (IsMade (single_done task)) phaser.old.state phaser.new.state
        freed.old freed.new count.old count.new (is_wide freed.old) }
{
    if freed.len() < 256 {
        return Err(ExportAnswer::Short);
    }
    let Some(mut waiting) = phaser.take(alloc) else {
        return Err(ExportAnswer::Closed);
    };
    let outcome = waiting.single_done(task, freed, count);
    phaser.put(alloc, waiting);
    Ok(outcome)
}

/// The task leaves. Those whom it frees are told in the room, which has to have 256 places.
fn leave(
    alloc: Global,
    phaser: &mut WaitingHandle,
    task: LongTask,
    freed: &mut [GivenFreed],
    count: &mut usize,
) -> Result<Result<(), Refusal>, ExportAnswer>
    ensures answer { result ≡ told_at (is_wide freed.old) phaser.old.state
        (λ c. done_result (reply c.state.story (drop_task task))) }
    ensures made { IsGoneOnAt (IsLeft task) phaser.old.state phaser.new.state
        freed.old freed.new count.old count.new (is_wide freed.old) }
{
    if freed.len() < 256 {
        return Err(ExportAnswer::Short);
    }
    let Some(mut waiting) = phaser.take(alloc) else {
        return Err(ExportAnswer::Closed);
    };
    let outcome = waiting.leave(task, freed, count);
    phaser.put(alloc, waiting);
    Ok(outcome)
}

/// The number that a task was given.
fn give_task(outcome: Result<LongTask, Refusal>, task: &mut u64) -> ExportAnswer
    ensures answer { result ≡ answer_given outcome }
    ensures task { task.new ≡ task_given task.old outcome }
{
    match outcome {
        Ok(given) => {
            *task = given;
            ExportAnswer::Done
        }
        Err(refusal) => ExportAnswer::Refused(refusal),
    }
}

/// A task makes the phaser, and is given its number.
fn make(alloc: Global, phaser: &mut WaitingHandle, mode: Mode, task: &mut u64) -> ExportAnswer
    ensures answer { result ≡ answer_of_done (told_at true phaser.old.state (numbering (λ t. make t mode))) }
    ensures task { task.new ≡ number_given_at task.old (λ t. make t mode) phaser.old.state }
    ensures made { IsHeldAfter (IsNumbering (λ t. make t mode)) phaser.old.state phaser.new.state }
{
    let Some(mut waiting) = phaser.take(alloc) else {
        return ExportAnswer::Closed;
    };
    let outcome = waiting.cell.make(mode);
    phaser.put(alloc, waiting);
    give_task(outcome, task)
}

/// The parent registers a child, which is given its number.
fn register(
    alloc: Global,
    phaser: &mut WaitingHandle,
    parent: LongTask,
    mode: Mode,
    task: &mut u64,
) -> ExportAnswer
    ensures answer { result ≡ answer_of_done
        (told_at true phaser.old.state (numbering (λ t. register parent t mode))) }
    ensures task { task.new ≡ number_given_at task.old (λ t. register parent t mode) phaser.old.state }
    ensures made { IsHeldAfter (IsNumbering (λ t. register parent t mode)) phaser.old.state phaser.new.state }
{
    let Some(mut waiting) = phaser.take(alloc) else {
        return ExportAnswer::Closed;
    };
    let outcome = waiting.cell.register(parent, mode);
    phaser.put(alloc, waiting);
    give_task(outcome, task)
}

/// `LongCell::make`. The number is that of the task that makes the phaser.
#[unsafe(no_mangle)]
pub extern "C" fn phaser_c_waiting_make(
    alloc: Global,
    phaser: &mut WaitingHandle,
    mode: u32,
    task: &mut u64,
) -> u32
    ensures answer { MatchOption (mode_of mode) (result ≡ number_of_answer BadMode)
        (λ m. result ≡ number_of_answer (answer_of_done (told_at true phaser.old.state (numbering (λ t. make t m))))) }
    ensures task { MatchOption (mode_of mode) (task.new ≡ task.old)
        (λ m. task.new ≡ number_given_at task.old (λ t. make t m) phaser.old.state) }
    ensures made { MatchOption (mode_of mode) (phaser.new ≡ phaser.old)
        (λ m. IsHeldAfter (IsNumbering (λ t. make t m)) phaser.old.state phaser.new.state) }
{
    match mode_of(mode) {
        None => ExportAnswer::BadMode.number(),
        Some(mode) => make(alloc, phaser, mode, task).number(),
    }
}

/// `LongCell::register`. The number is that of the child.
#[unsafe(no_mangle)]
pub extern "C" fn phaser_c_waiting_register(
    alloc: Global,
    phaser: &mut WaitingHandle,
    parent: u64,
    mode: u32,
    task: &mut u64,
) -> u32
    ensures answer { MatchOption (mode_of mode) (result ≡ number_of_answer BadMode)
        (λ m. result ≡ number_of_answer (answer_of_done
        (told_at true phaser.old.state (numbering (λ t. register parent t m))))) }
    ensures task { MatchOption (mode_of mode) (task.new ≡ task.old)
        (λ m. task.new ≡ number_given_at task.old (λ t. register parent t m) phaser.old.state) }
    ensures made { MatchOption (mode_of mode) (phaser.new ≡ phaser.old)
        (λ m. IsHeldAfter (IsNumbering (λ t. register parent t m)) phaser.old.state phaser.new.state) }
{
    match mode_of(mode) {
        None => ExportAnswer::BadMode.number(),
        Some(mode) => register(alloc, phaser, parent, mode, task).number(),
    }
}

/// `LongCell::single_done_telling`.
#[unsafe(no_mangle)]
pub extern "C" fn phaser_c_waiting_single_done(
    alloc: Global,
    phaser: &mut WaitingHandle,
    task: u64,
    freed: &mut [GivenFreed],
    count: &mut usize,
) -> u32
    ensures answer { result ≡ number_of_answer (answer_of_done (told_at (is_wide freed.old) phaser.old.state
        (λ c. done_result (reply c.state.story (single_done task))))) }
    ensures made { IsGoneOnAt (IsMade (single_done task)) phaser.old.state phaser.new.state
        freed.old freed.new count.old count.new (is_wide freed.old) }
{
    answer_of_done(single_done(alloc, phaser, task, freed, count)).number()
}

/// `LongCell::leave_telling`. A task that is parked and leaves is freed with `NotRegistered`.
#[unsafe(no_mangle)]
pub extern "C" fn phaser_c_waiting_leave(
    alloc: Global,
    phaser: &mut WaitingHandle,
    task: u64,
    freed: &mut [GivenFreed],
    count: &mut usize,
) -> u32
    ensures answer { result ≡ number_of_answer (answer_of_done (told_at (is_wide freed.old) phaser.old.state
        (λ c. done_result (reply c.state.story (drop_task task))))) }
    ensures made { IsGoneOnAt (IsLeft task) phaser.old.state phaser.new.state
        freed.old freed.new count.old count.new (is_wide freed.old) }
{
    answer_of_done(leave(alloc, phaser, task, freed, count)).number()
}
