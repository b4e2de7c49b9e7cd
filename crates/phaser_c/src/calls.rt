//! The calls on a phaser.
ghost use Rattle.std.specs.Prelude.{◌≡◌, ◌≤◌, None, Some, IfSome, MatchOption};
ghost use Rattle.phase_model.specs.declared.call.Call.TheVariants.{Make as make, Register as register, Signal as signal, Pass as pass, SingleDone as single_done, Send as send, Look as look, Drop as drop_task};
ghost use Rattle.phase_model.specs.Outcomes.{pass_reply};
ghost use Rattle.phaser_c.specs.Answers.{number_of_answer, number_given, value_given, number_for};
ghost use Rattle.phaser_c.specs.Calls.{story, answered, gone_on};
ghost use Rattle.phaser_c.specs.Given.{mode_of};
ghost use Rattle.phaser_c.specs.declared.answer.ExportAnswer.TheVariants.{BadMode};

use crate::answer::ExportAnswer;
use crate::given::mode_of;
use crate::handle::Handle;
use phase_model::{Call, Look, Reply};
use phase_modes::Refusal;
use phaser_core::Passing;
use std::alloc::Global;

/// Makes the call on the phaser that the handle holds; none if it holds none.
fn call(alloc: Global, phaser: &mut Handle, call: Call) -> Option<Reply>
    ensures answer { result ≡ answered (story phaser.old.state) call }
    ensures history { story phaser.new.state ≡ gone_on (story phaser.old.state) call }
    ensures compared { IfSome phaser.new.state (λ p. p.compared ≤ 18) }
{
    let mut state = phaser.take(alloc)?;
    let reply = state.apply(call);
    phaser.put(alloc, state);
    Some(reply)
}

/// The number that answers a call.
fn number_for(reply: Option<Reply>) -> u32
    ensures { result ≡ number_for reply }
{
    match reply {
        None => ExportAnswer::Closed.number(),
        Some(reply) => ExportAnswer::of(reply).number(),
    }
}

/// `PhaserState::make`.
#[unsafe(no_mangle)]
pub extern "C" fn phaser_c_make(alloc: Global, phaser: &mut Handle, task: u32, mode: u32) -> u32
    ensures answer { MatchOption (mode_of mode) (result ≡ number_of_answer BadMode)
        (λ m. result ≡ number_for (answered (story phaser.old.state) (make task m))) }
    ensures history { MatchOption (mode_of mode) (phaser.new ≡ phaser.old)
        (λ m. story phaser.new.state ≡ gone_on (story phaser.old.state) (make task m)) }
    ensures compared { MatchOption (mode_of mode) (phaser.new ≡ phaser.old)
        (λ m. IfSome phaser.new.state (λ p. p.compared ≤ 18)) }
{
    match mode_of(mode) {
        None => ExportAnswer::BadMode.number(),
        Some(mode) => number_for(call(alloc, phaser, Call::Make(task, mode))),
    }
}

/// `PhaserState::register`.
#[unsafe(no_mangle)]
pub extern "C" fn phaser_c_register(
    alloc: Global,
    phaser: &mut Handle,
    parent: u32,
    child: u32,
    mode: u32,
) -> u32
    ensures answer { MatchOption (mode_of mode) (result ≡ number_of_answer BadMode)
        (λ m. result ≡ number_for (answered (story phaser.old.state) (register parent child m))) }
    ensures history { MatchOption (mode_of mode) (phaser.new ≡ phaser.old)
        (λ m. story phaser.new.state ≡ gone_on (story phaser.old.state) (register parent child m)) }
    ensures compared { MatchOption (mode_of mode) (phaser.new ≡ phaser.old)
        (λ m. IfSome phaser.new.state (λ p. p.compared ≤ 18)) }
{
    match mode_of(mode) {
        None => ExportAnswer::BadMode.number(),
        Some(mode) => number_for(call(alloc, phaser, Call::Register(parent, child, mode))),
    }
}

/// Signals on the phaser that the handle holds, and gives the number that answers.
// Signals and passes are most of what a program calls: `apply` would look once more which call it
// is.
fn signal(alloc: Global, phaser: &mut Handle, task: u32, proposed: Option<u32>) -> u32
    ensures answer { result ≡ number_for (answered (story phaser.old.state) (signal task proposed)) }
    ensures history { story phaser.new.state ≡ gone_on (story phaser.old.state) (signal task proposed) }
    ensures compared { IfSome phaser.new.state (λ p. p.compared ≤ 9) }
{
    let Some(mut state) = phaser.take(alloc) else {
        return ExportAnswer::Closed.number();
    };
    let outcome = state.signal(task, proposed);
    phaser.put(alloc, state);
    ExportAnswer::of_signal(outcome).number()
}

/// `PhaserState::signal`, without a single.
#[unsafe(no_mangle)]
pub extern "C" fn phaser_c_signal(alloc: Global, phaser: &mut Handle, task: u32) -> u32
    ensures answer { result ≡ number_for (answered (story phaser.old.state) (signal task None)) }
    ensures history { story phaser.new.state ≡ gone_on (story phaser.old.state) (signal task None) }
    ensures compared { IfSome phaser.new.state (λ p. p.compared ≤ 9) }
{
    signal(alloc, phaser, task, None)
}

/// `PhaserState::signal`, which proposes the single of this number.
#[unsafe(no_mangle)]
pub extern "C" fn phaser_c_signal_single(
    alloc: Global,
    phaser: &mut Handle,
    task: u32,
    number: u32,
) -> u32
    ensures answer { result ≡ number_for (answered (story phaser.old.state) (signal task (Some number))) }
    ensures history { story phaser.new.state ≡ gone_on (story phaser.old.state) (signal task (Some number)) }
    ensures compared { IfSome phaser.new.state (λ p. p.compared ≤ 9) }
{
    signal(alloc, phaser, task, Some(number))
}

/// The phase or the single's number that a pass gives.
fn give_number(outcome: Result<Passing, Refusal>, number: &mut u32)
    ensures { number.new ≡ number_given number.old (Some (pass_reply outcome)) }
{
    if let Ok(Passing::Passed(given) | Passing::Claimed(given)) = outcome {
        *number = given;
    }
}

/// `PhaserState::pass`. The number is the phase whose turn was ended, or that of the single that
/// was claimed.
#[unsafe(no_mangle)]
pub extern "C" fn phaser_c_pass(
    alloc: Global,
    phaser: &mut Handle,
    task: u32,
    number: &mut u32,
) -> u32
    ensures answer { result ≡ number_for (answered (story phaser.old.state) (pass task)) }
    ensures number { number.new ≡ number_given number.old (answered (story phaser.old.state) (pass task)) }
    ensures history { story phaser.new.state ≡ gone_on (story phaser.old.state) (pass task) }
    ensures compared { IfSome phaser.new.state (λ p. p.compared ≤ 9) }
{
    let Some(mut state) = phaser.take(alloc) else {
        return ExportAnswer::Closed.number();
    };
    let outcome = state.pass(task);
    phaser.put(alloc, state);
    give_number(outcome, number);
    ExportAnswer::of_pass(outcome).number()
}

/// `PhaserState::single_done`.
#[unsafe(no_mangle)]
pub extern "C" fn phaser_c_single_done(alloc: Global, phaser: &mut Handle, task: u32) -> u32
    ensures answer { result ≡ number_for (answered (story phaser.old.state) (single_done task)) }
    ensures history { story phaser.new.state ≡ gone_on (story phaser.old.state) (single_done task) }
    ensures compared { IfSome phaser.new.state (λ p. p.compared ≤ 18) }
{
    number_for(call(alloc, phaser, Call::SingleDone(task)))
}

/// `PhaserState::send`.
#[unsafe(no_mangle)]
pub extern "C" fn phaser_c_send(
    alloc: Global,
    phaser: &mut Handle,
    task: u32,
    accumulator: u8,
    value: i32,
) -> u32
    ensures answer { result ≡ number_for (answered (story phaser.old.state) (send task accumulator value)) }
    ensures history { story phaser.new.state
        ≡ gone_on (story phaser.old.state) (send task accumulator value) }
    ensures compared { IfSome phaser.new.state (λ p. p.compared ≤ 18) }
{
    number_for(call(alloc, phaser, Call::Send(task, accumulator, value)))
}

/// The value that a reply gives.
fn give_value(reply: Option<Reply>, value: &mut i64)
    ensures { value.new ≡ value_given value.old reply }
{
    if let Some(Reply::Saw(Look::Value(given))) = reply {
        *value = given;
    }
}

/// `PhaserState::look`.
#[unsafe(no_mangle)]
pub extern "C" fn phaser_c_look(
    alloc: Global,
    phaser: &mut Handle,
    task: u32,
    accumulator: u8,
    value: &mut i64,
) -> u32
    ensures answer { result ≡ number_for (answered (story phaser.old.state) (look task accumulator)) }
    ensures value { value.new ≡ value_given value.old (answered (story phaser.old.state) (look task accumulator)) }
    ensures history { story phaser.new.state ≡ gone_on (story phaser.old.state) (look task accumulator) }
    ensures compared { IfSome phaser.new.state (λ p. p.compared ≤ 18) }
{
    let reply = call(alloc, phaser, Call::Look(task, accumulator));
    give_value(reply, value);
    number_for(reply)
}

/// `PhaserState::drop_task`.
#[unsafe(no_mangle)]
pub extern "C" fn phaser_c_drop(alloc: Global, phaser: &mut Handle, task: u32) -> u32
    ensures answer { result ≡ number_for (answered (story phaser.old.state) (drop_task task)) }
    ensures history { story phaser.new.state ≡ gone_on (story phaser.old.state) (drop_task task) }
    ensures compared { IfSome phaser.new.state (λ p. p.compared ≤ 18) }
{
    number_for(call(alloc, phaser, Call::Drop(task)))
}
