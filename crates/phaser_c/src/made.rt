//! A phaser is made for a handle, and freed.
ghost use Rattle.std.specs.Prelude.{◌≡◌, None, Some, Ok, MatchResult, IfOk, IfErr};
ghost use Rattle.phase_modes.specs.Limits.{limits_fit};
ghost use Rattle.phaser_c.specs.Answers.{number_of_answer};
ghost use Rattle.phaser_c.specs.Calls.{story, MadeFrom};
ghost use Rattle.phaser_c.specs.Given.{bound_of, limits_of, story_given};
ghost use Rattle.phaser_c.specs.declared.answer.ExportAnswer.{ExportAnswer as Answered};
ghost use Rattle.phaser_c.specs.declared.answer.ExportAnswer.TheVariants.{Refused as refused};
ghost use Rattle.phase_modes.specs.declared.refusal.Refusal.TheVariants.{Memory};

use crate::answer::ExportAnswer;
use crate::given::{GivenLimits, bound_of, ops_of};
use crate::handle::Handle;
use phase_modes::{Limits, Refusal};
use phaser_core::PhaserState;
use std::alloc::Global;

/// The phaser of these limits, of the operators of these numbers, and with this bound, where 0 is
/// none.
fn state_of(
    alloc: Global,
    limits: Limits,
    operators: &[u32],
    bound: u32,
) -> Result<PhaserState, ExportAnswer>
    ensures made { IfOk result (λ p. story_given limits operators.now bound ≡ Ok p.story) }
    ensures refused { IfErr result (λ a. MatchResult (story_given limits operators.now bound)
        (λ _. a ≡ refused Memory) (λ why. a ≡ why)) }
{
    if !limits.fits() {
        return Err(ExportAnswer::BadLimits);
    }
    let Some(ops) = ops_of(operators) else {
        return Err(ExportAnswer::BadOperators);
    };
    let Some(bound) = bound_of(bound) else {
        return Err(ExportAnswer::BadBound);
    };
    match PhaserState::new(alloc, limits, ops, bound) {
        Ok(state) => Ok(state),
        Err(refusal) => Err(ExportAnswer::Refused(refusal)),
    }
}

/// The same in a block of its own.
fn boxed(
    alloc: Global,
    limits: Limits,
    operators: &[u32],
    bound: u32,
) -> Result<Box<PhaserState>, ExportAnswer>
    ensures made { IfOk result (λ b. story_given limits operators.now bound ≡ Ok b.value.story) }
    ensures refused { IfErr result (λ a. MatchResult (story_given limits operators.now bound)
        (λ _. a ≡ refused Memory) (λ why. a ≡ why)) }
{
    let state = state_of(alloc, limits, operators, bound)?;
    match Box::new(alloc, state) {
        Ok(boxed) => Ok(boxed),
        Err(_) => Err(ExportAnswer::Refused(Refusal::Memory)),
    }
}

/// Makes a phaser for a handle that holds none.
fn make_new(
    alloc: Global,
    phaser: &mut Handle,
    limits: Limits,
    operators: &[u32],
    bound: u32,
) -> ExportAnswer
    ensures { MadeFrom (story phaser.old.state) (story phaser.new.state)
        (story_given limits operators.now bound) result }
{
    if let Some(state) = phaser.take(alloc) {
        phaser.put(alloc, state);
        return ExportAnswer::Open;
    }
    match boxed(alloc, limits, operators, bound) {
        Ok(state) => {
            phaser.put(alloc, state);
            ExportAnswer::Done
        }
        Err(answer) => answer,
    }
}

/// `PhaserState::new`, for a handle that holds no phaser.
#[unsafe(no_mangle)]
pub extern "C" fn phaser_c_new(
    alloc: Global,
    phaser: &mut Handle,
    limits: &GivenLimits,
    operators: &[u32],
    bound: u32,
) -> u32
    ensures { (a : Answered) × (result ≡ number_of_answer a)
        × MadeFrom (story phaser.old.state) (story phaser.new.state)
        (story_given (limits_of limits.now) operators.now bound) a }
{
    make_new(alloc, phaser, limits.limits(), operators, bound).number()
}

/// Frees the phaser that the handle holds, if it holds one. The handle holds none from then on.
#[unsafe(no_mangle)]
pub extern "C" fn phaser_c_free(alloc: Global, phaser: &mut Handle)
    ensures { phaser.new.state ≡ None }
{
    drop(phaser.take(alloc));
}
