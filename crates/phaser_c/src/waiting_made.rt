//! A phaser for threads that wait is made for a handle, and freed.
ghost use Rattle.std.specs.Prelude.{◌≡◌, None, MatchResult, IfOk, IfErr};
ghost use Rattle.phaser_c.specs.Answers.{number_of_answer};
ghost use Rattle.phaser_c.specs.WaitingGiven.{long_story_given, IsNew, IsMadeFrom};
ghost use Rattle.phaser_c.specs.declared.answer.ExportAnswer.{ExportAnswer as Answered};
ghost use Rattle.phaser_c.specs.declared.answer.ExportAnswer.TheVariants.{Refused as refused};
ghost use Rattle.phase_modes.specs.declared.refusal.Refusal.TheVariants.{Memory};

use crate::answer::ExportAnswer;
use crate::given::{bound_of, ops_of};
use crate::waiting::Waiting;
use crate::waiting_handle::WaitingHandle;
use phase_modes::Refusal;
use std::alloc::Global;

/// The phaser of the operators of these numbers, and with this bound.
fn waiting_of(alloc: Global, operators: &[u32], bound: u32) -> Result<Waiting, ExportAnswer>
    ensures made { IfOk result (λ w. IsNew (long_story_given operators.now bound) w) }
    ensures refused { IfErr result (λ a. MatchResult (long_story_given operators.now bound)
        (λ _. a ≡ refused Memory) (λ why. a ≡ why)) }
{
    let Some(ops) = ops_of(operators) else {
        return Err(ExportAnswer::BadOperators);
    };
    let Some(Some(bound)) = bound_of(bound) else {
        return Err(ExportAnswer::BadBound);
    };
    match Waiting::new(alloc, ops, bound) {
        Ok(waiting) => Ok(waiting),
        Err(refusal) => Err(ExportAnswer::Refused(refusal)),
    }
}

/// The same in a block of its own.
fn boxed(alloc: Global, operators: &[u32], bound: u32) -> Result<Box<Waiting>, ExportAnswer>
    ensures made { IfOk result (λ b. IsNew (long_story_given operators.now bound) b.value) }
    ensures refused { IfErr result (λ a. MatchResult (long_story_given operators.now bound)
        (λ _. a ≡ refused Memory) (λ why. a ≡ why)) }
{
    let waiting = waiting_of(alloc, operators, bound)?;
    match Box::new(alloc, waiting) {
        Ok(boxed) => Ok(boxed),
        Err(_) => Err(ExportAnswer::Refused(Refusal::Memory)),
    }
}

/// Makes a phaser for a handle that holds none.
fn make_new(
    alloc: Global,
    phaser: &mut WaitingHandle,
    operators: &[u32],
    bound: u32,
) -> ExportAnswer
    ensures { IsMadeFrom phaser.old.state phaser.new.state (long_story_given operators.now bound) result }
{
    if let Some(state) = phaser.take(alloc) {
        phaser.put(alloc, state);
        return ExportAnswer::Open;
    }
    match boxed(alloc, operators, bound) {
        Ok(state) => {
            phaser.put(alloc, state);
            ExportAnswer::Done
        }
        Err(answer) => answer,
    }
}

/// `LongCell::new`, for a handle that holds no phaser.
#[unsafe(no_mangle)]
pub extern "C" fn phaser_c_waiting_new(
    alloc: Global,
    phaser: &mut WaitingHandle,
    operators: &[u32],
    bound: u32,
) -> u32
    ensures { (a : Answered) × (result ≡ number_of_answer a)
        × IsMadeFrom phaser.old.state phaser.new.state (long_story_given operators.now bound) a }
{
    make_new(alloc, phaser, operators, bound).number()
}

/// Frees the phaser that the handle holds, if it holds one. The handle holds none from then on.
#[unsafe(no_mangle)]
pub extern "C" fn phaser_c_waiting_free(alloc: Global, phaser: &mut WaitingHandle)
    ensures { phaser.new.state ≡ None }
{
    drop(phaser.take(alloc));
}
