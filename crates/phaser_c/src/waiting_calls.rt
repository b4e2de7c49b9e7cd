//! The calls of threads that may have to wait. A task that is answered `NotYet` is parked: its answer
//! comes with the call of another task, among those whom that call frees.
ghost use Rattle.std.specs.Prelude.{◌≡◌, None, Some};
ghost use Rattle.long_locks.specs.Calls.{to_signal, to_go_on};
ghost use Rattle.long_locks.specs.Turns.{to_pass};
ghost use Rattle.phaser_c.specs.Answers.{number_of_answer};
ghost use Rattle.phaser_c.specs.Waiting.{waiter, asked, is_wide, told_at, answer_of_cell, answer_of_told, number_told, IsAsked, IsGoneOnAt};

use crate::answer::ExportAnswer;
use crate::asking::Asking;
use crate::freed::GivenFreed;
use crate::waiting_handle::WaitingHandle;
use long_locks::Ended;
use phaser_core::LongTask;
use std::alloc::Global;

/// What is answered if a task was answered so by the cell.
fn answer_of_cell(answer: long_locks::AskAnswer) -> ExportAnswer
    ensures { result ≡ answer_of_cell answer }
{
    match answer {
        long_locks::AskAnswer::Ended(ended) => ExportAnswer::of_ended(ended),
        long_locks::AskAnswer::Parked => ExportAnswer::NotYet,
    }
}

fn answer_of_told(told: Result<long_locks::AskAnswer, ExportAnswer>) -> ExportAnswer
    ensures { result ≡ answer_of_told told }
{
    match told {
        Ok(answer) => answer_of_cell(answer),
        Err(why) => why,
    }
}

/// The phase or the single's number that the answer gives.
fn give_number(told: Result<long_locks::AskAnswer, ExportAnswer>, number: &mut u64)
    ensures { number.new ≡ number_told number.old told }
{
    match told {
        Ok(long_locks::AskAnswer::Ended(Ended::Passed(phase))) => *number = phase,
        Ok(long_locks::AskAnswer::Ended(Ended::Claimed(claimed))) => *number = u64::from(claimed),
        Ok(_) | Err(_) => {}
    }
}

/// The task makes its call on the phaser that the handle holds. Those whom it frees are told in the
/// room, which has to have 256 places.
fn ask(
    alloc: Global,
    phaser: &mut WaitingHandle,
    task: LongTask,
    asking: Asking,
    freed: &mut [GivenFreed],
    count: &mut usize,
) -> Result<long_locks::AskAnswer, ExportAnswer>
    ensures answer { result ≡ told_at (is_wide freed.old) phaser.old.state (λ c. asked c (waiter task asking)) }
    ensures made { IsGoneOnAt (IsAsked (waiter task asking)) phaser.old.state phaser.new.state
        freed.old freed.new count.old count.new (is_wide freed.old) }
{
    if freed.len() < 256 {
        return Err(ExportAnswer::Short);
    }
    let Some(mut waiting) = phaser.take(alloc) else {
        return Err(ExportAnswer::Closed);
    };
    let answer = waiting.ask(task, asking, freed, count);
    phaser.put(alloc, waiting);
    Ok(answer)
}

/// A signal, without a single.
#[unsafe(no_mangle)]
pub extern "C" fn phaser_c_waiting_signal(
    alloc: Global,
    phaser: &mut WaitingHandle,
    task: u64,
    freed: &mut [GivenFreed],
    count: &mut usize,
) -> u32
    ensures answer { result ≡ number_of_answer (answer_of_told
        (told_at (is_wide freed.old) phaser.old.state (λ c. asked c (to_signal task None)))) }
    ensures made { IsGoneOnAt (IsAsked (to_signal task None)) phaser.old.state phaser.new.state
        freed.old freed.new count.old count.new (is_wide freed.old) }
{
    let told = ask(alloc, phaser, task, Asking::Signal(None), freed, count);
    answer_of_told(told).number()
}

/// A signal, which proposes the single of this number.
#[unsafe(no_mangle)]
pub extern "C" fn phaser_c_waiting_signal_single(
    alloc: Global,
    phaser: &mut WaitingHandle,
    task: u64,
    proposed: u32,
    freed: &mut [GivenFreed],
    count: &mut usize,
) -> u32
    ensures answer { result ≡ number_of_answer (answer_of_told
        (told_at (is_wide freed.old) phaser.old.state (λ c. asked c (to_signal task (Some proposed))))) }
    ensures made { IsGoneOnAt (IsAsked (to_signal task (Some proposed))) phaser.old.state phaser.new.state
        freed.old freed.new count.old count.new (is_wide freed.old) }
{
    let told = ask(
        alloc,
        phaser,
        task,
        Asking::Signal(Some(proposed)),
        freed,
        count,
    );
    answer_of_told(told).number()
}

/// A pass. The number is the phase whose turn was ended, or that of the single that
/// was claimed.
#[unsafe(no_mangle)]
pub extern "C" fn phaser_c_waiting_pass(
    alloc: Global,
    phaser: &mut WaitingHandle,
    task: u64,
    number: &mut u64,
    freed: &mut [GivenFreed],
    count: &mut usize,
) -> u32
    ensures answer { result ≡ number_of_answer (answer_of_told
        (told_at (is_wide freed.old) phaser.old.state (λ c. asked c (to_pass task)))) }
    ensures number { number.new ≡ number_told number.old
        (told_at (is_wide freed.old) phaser.old.state (λ c. asked c (to_pass task))) }
    ensures made { IsGoneOnAt (IsAsked (to_pass task)) phaser.old.state phaser.new.state
        freed.old freed.new count.old count.new (is_wide freed.old) }
{
    let told = ask(alloc, phaser, task, Asking::Pass, freed, count);
    give_number(told, number);
    answer_of_told(told).number()
}

/// A signal and then a pass, without a single. The number is that of `phaser_c_waiting_pass`.
#[unsafe(no_mangle)]
pub extern "C" fn phaser_c_waiting_next(
    alloc: Global,
    phaser: &mut WaitingHandle,
    task: u64,
    number: &mut u64,
    freed: &mut [GivenFreed],
    count: &mut usize,
) -> u32
    ensures answer { result ≡ number_of_answer (answer_of_told
        (told_at (is_wide freed.old) phaser.old.state (λ c. asked c (to_go_on task None)))) }
    ensures number { number.new ≡ number_told number.old
        (told_at (is_wide freed.old) phaser.old.state (λ c. asked c (to_go_on task None))) }
    ensures made { IsGoneOnAt (IsAsked (to_go_on task None)) phaser.old.state phaser.new.state
        freed.old freed.new count.old count.new (is_wide freed.old) }
{
    let told = ask(alloc, phaser, task, Asking::Next(None), freed, count);
    give_number(told, number);
    answer_of_told(told).number()
}

/// A signal and then a pass, which proposes the single of this number.
#[unsafe(no_mangle)]
pub extern "C" fn phaser_c_waiting_next_single(
    alloc: Global,
    phaser: &mut WaitingHandle,
    task: u64,
    proposed: u32,
    number: &mut u64,
    freed: &mut [GivenFreed],
    count: &mut usize,
) -> u32
    ensures answer { result ≡ number_of_answer (answer_of_told
        (told_at (is_wide freed.old) phaser.old.state (λ c. asked c (to_go_on task (Some proposed))))) }
    ensures number { number.new ≡ number_told number.old
        (told_at (is_wide freed.old) phaser.old.state (λ c. asked c (to_go_on task (Some proposed)))) }
    ensures made { IsGoneOnAt (IsAsked (to_go_on task (Some proposed))) phaser.old.state phaser.new.state
        freed.old freed.new count.old count.new (is_wide freed.old) }
{
    let told = ask(
        alloc,
        phaser,
        task,
        Asking::Next(Some(proposed)),
        freed,
        count,
    );
    give_number(told, number);
    answer_of_told(told).number()
}
