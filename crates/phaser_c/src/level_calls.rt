//! The calls of a task that stands level with others. No call waits: what can't be made now is
//! answered `NotYet`, and is asked again.
ghost use Rattle.std.specs.Prelude.{◌≡◌};
ghost use Rattle.phaser_c.specs.Answers.{number_of_answer};
ghost use Rattle.phaser_c.specs.LevelCalls.{member_of, IsCalledBy, HasCome, HasLooked, HasLeft, HasSent, IsSeenBy, IsGivenBy};
ghost use Rattle.phaser_c.specs.declared.answer.ExportAnswer.{ExportAnswer as Answered};

use crate::answer::ExportAnswer;
use crate::level_handle::LevelHandle;
use std::alloc::Global;

/// `Member::come`.
#[unsafe(no_mangle)]
pub extern "C" fn phaser_c_level_come(alloc: Global, task: &mut LevelHandle) -> u32
    ensures { (a : Answered) × (result ≡ number_of_answer a)
        × IsCalledBy HasCome (member_of task.old.state) (member_of task.new.state) a }
{
    let Some(mut held) = task.take(alloc) else {
        return ExportAnswer::Closed.number();
    };
    let answer = held.come();
    task.put(alloc, held);
    answer.number()
}

/// `Member::look`.
#[unsafe(no_mangle)]
pub extern "C" fn phaser_c_level_look(alloc: Global, task: &mut LevelHandle) -> u32
    ensures { (a : Answered) × (result ≡ number_of_answer a)
        × IsCalledBy HasLooked (member_of task.old.state) (member_of task.new.state) a }
{
    let Some(mut held) = task.take(alloc) else {
        return ExportAnswer::Closed.number();
    };
    let answer = held.look();
    task.put(alloc, held);
    answer.number()
}

/// `Member::leave`. The handle has to be freed all the same.
#[unsafe(no_mangle)]
pub extern "C" fn phaser_c_level_leave(alloc: Global, task: &mut LevelHandle) -> u32
    ensures { (a : Answered) × (result ≡ number_of_answer a)
        × IsCalledBy HasLeft (member_of task.old.state) (member_of task.new.state) a }
{
    let Some(mut held) = task.take(alloc) else {
        return ExportAnswer::Closed.number();
    };
    let answer = held.leave();
    task.put(alloc, held);
    answer.number()
}

/// `Member::send`.
#[unsafe(no_mangle)]
pub extern "C" fn phaser_c_level_send(
    alloc: Global,
    task: &mut LevelHandle,
    accumulator: u8,
    value: i32,
) -> u32
    ensures { (a : Answered) × (result ≡ number_of_answer a)
        × IsCalledBy (HasSent accumulator value) (member_of task.old.state) (member_of task.new.state) a }
{
    let Some(mut held) = task.take(alloc) else {
        return ExportAnswer::Closed.number();
    };
    let answer = held.send(accumulator, value);
    task.put(alloc, held);
    answer.number()
}

/// `Member::look_at`.
#[unsafe(no_mangle)]
pub extern "C" fn phaser_c_level_look_at(
    alloc: Global,
    task: &mut LevelHandle,
    accumulator: u8,
    value: &mut i64,
) -> u32
    ensures { (a : Answered) × (result ≡ number_of_answer a)
        × IsSeenBy accumulator (member_of task.old.state) (member_of task.new.state) value.old value.new a }
{
    let Some(mut held) = task.take(alloc) else {
        return ExportAnswer::Closed.number();
    };
    let answer = held.look_at(accumulator, value);
    task.put(alloc, held);
    answer.number()
}

/// `Member::take_kept`.
#[unsafe(no_mangle)]
pub extern "C" fn phaser_c_level_kept(
    alloc: Global,
    task: &mut LevelHandle,
    accumulator: &mut u8,
    value: &mut i32,
) -> u32
    ensures { (a : Answered) × (result ≡ number_of_answer a)
        × IsGivenBy (member_of task.old.state) (member_of task.new.state) accumulator.old accumulator.new
        value.old value.new a }
{
    let Some(mut held) = task.take(alloc) else {
        return ExportAnswer::Closed.number();
    };
    let answer = held.give_kept(accumulator, value);
    task.put(alloc, held);
    answer.number()
}
