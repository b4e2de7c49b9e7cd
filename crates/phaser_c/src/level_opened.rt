//! A phaser goes over to tasks that stand level, each with a handle of its own, and comes back.
ghost use Rattle.std.specs.Prelude.{◌≡◌, None, is_some};
ghost use Rattle.phaser_c.specs.Answers.{number_of_answer};
ghost use Rattle.phaser_c.specs.LevelCalls.{member_of};
ghost use Rattle.phaser_c.specs.LevelOpened.{IsOpenedFor, HasTakenFor, IsTakenFor, IsClosedFor};
ghost use Rattle.phaser_c.specs.declared.answer.ExportAnswer.{ExportAnswer as Answered};

use crate::answer::ExportAnswer;
use crate::keeper_handle::KeeperHandle;
use crate::level_handle::LevelHandle;
use crate::level_keeper::LevelKeeper;
use crate::level_made::{holds_one, put_in};
use crate::level_opening::open;
use crate::level_task::LevelTask;
use crate::waiting_handle::WaitingHandle;
use phase_modes::Refusal;
use std::alloc::Global;

/// Whether the handle holds a keeper.
fn holds_keeper(alloc: Global, level: &mut KeeperHandle) -> bool
    ensures one { result ≡ is_some level.old.state }
    ensures kept { level.new.state ≡ level.old.state }
{
    let Some(held) = level.take(alloc) else {
        return false;
    };
    level.put(alloc, held);
    true
}

/// Whether the handle holds a phaser.
fn holds_phaser(alloc: Global, phaser: &mut WaitingHandle) -> bool
    ensures one { result ≡ is_some phaser.old.state }
    ensures kept { phaser.new.state ≡ phaser.old.state }
{
    let Some(waiting) = phaser.take(alloc) else {
        return false;
    };
    phaser.put(alloc, waiting);
    true
}

/// Opens a table for these tasks.
fn open_for(
    alloc: Global,
    level: &mut KeeperHandle,
    phaser: &mut WaitingHandle,
    tasks: &[u64],
) -> ExportAnswer
    ensures { IsOpenedFor tasks.now level.old.state level.new.state phaser.old.state phaser.new.state result }
{
    if holds_keeper(alloc, level) {
        return ExportAnswer::Open;
    }
    let Some(waiting) = phaser.take(alloc) else {
        return ExportAnswer::Closed;
    };
    match open(alloc, waiting, tasks) {
        Ok(held) => {
            level.put(alloc, held);
            ExportAnswer::Done
        }
        Err(unopened) => {
            phaser.put(alloc, unopened.waiting);
            unopened.answer
        }
    }
}

/// The next task, for a handle that holds none. Its memory is taken first.
fn take_held(alloc: Global, held: &mut LevelKeeper, task: &mut LevelHandle) -> ExportAnswer
    ensures { HasTakenFor held.old held.new (member_of task.old.state) (member_of task.new.state) result }
{
    if holds_one(alloc, task) {
        return ExportAnswer::Open;
    }
    let Ok(place) = Box::new(alloc, LevelTask::none()) else {
        return ExportAnswer::Refused(Refusal::Memory);
    };
    let Some(member) = held.take() else {
        return ExportAnswer::Refused(Refusal::NotNow);
    };
    put_in(alloc, task, place, member);
    ExportAnswer::Done
}

/// The same by what a handle holds.
fn take(alloc: Global, level: &mut KeeperHandle, task: &mut LevelHandle) -> ExportAnswer
    ensures { IsTakenFor level.old.state level.new.state (member_of task.old.state) (member_of task.new.state) result }
{
    let Some(mut held) = level.take(alloc) else {
        return ExportAnswer::Closed;
    };
    let answer = take_held(alloc, held.as_mut(), task);
    level.put(alloc, held);
    answer
}

/// Closes the table, for a handle that holds no phaser.
fn close_for(alloc: Global, level: &mut KeeperHandle, phaser: &mut WaitingHandle) -> ExportAnswer
    ensures { IsClosedFor level.old.state level.new.state phaser.old.state phaser.new.state result }
{
    if holds_phaser(alloc, phaser) {
        return ExportAnswer::Open;
    }
    let Some(mut held) = level.take(alloc) else {
        return ExportAnswer::Closed;
    };
    if !held.close(alloc) {
        level.put(alloc, held);
        return ExportAnswer::NotYet;
    }
    let LevelKeeper { keeper: _, waiting } = Box::into_inner(held);
    phaser.put(alloc, waiting);
    ExportAnswer::Done
}

/// From a phaser for threads that wait to one for tasks that stand level.
#[unsafe(no_mangle)]
pub extern "C" fn phaser_c_level_open(
    alloc: Global,
    level: &mut KeeperHandle,
    phaser: &mut WaitingHandle,
    tasks: &[u64],
) -> u32
    ensures { (a : Answered) × (result ≡ number_of_answer a)
        × IsOpenedFor tasks.now level.old.state level.new.state phaser.old.state phaser.new.state a }
{
    open_for(alloc, level, phaser, tasks).number()
}

/// The next of those tasks, for a handle that holds none.
#[unsafe(no_mangle)]
pub extern "C" fn phaser_c_level_take(
    alloc: Global,
    level: &mut KeeperHandle,
    task: &mut LevelHandle,
) -> u32
    ensures { (a : Answered) × (result ≡ number_of_answer a)
        × IsTakenFor level.old.state level.new.state (member_of task.old.state) (member_of task.new.state) a }
{
    take(alloc, level, task).number()
}

/// And back.
#[unsafe(no_mangle)]
pub extern "C" fn phaser_c_level_close(
    alloc: Global,
    level: &mut KeeperHandle,
    phaser: &mut WaitingHandle,
) -> u32
    ensures { (a : Answered) × (result ≡ number_of_answer a)
        × IsClosedFor level.old.state level.new.state phaser.old.state phaser.new.state a }
{
    close_for(alloc, level, phaser).number()
}

/// Frees what the handle holds, if it holds a keeper. The handle holds none from then on.
#[unsafe(no_mangle)]
pub extern "C" fn phaser_c_level_drop(alloc: Global, level: &mut KeeperHandle)
    ensures { level.new.state ≡ None }
{
    drop(level.take(alloc));
}
