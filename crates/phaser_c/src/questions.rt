//! What is asked of a phaser that stays as it is.
ghost use Rattle.std.specs.Prelude.{◌≡◌, length};
ghost use Rattle.phase_model.specs.Phases.{is_closed};
ghost use Rattle.phase_model.specs.Rules.{is_full};
ghost use Rattle.phase_model.specs.declared.op.Look.{Look as Seen};
ghost use Rattle.phaser_c.specs.Answers.{number_of_read, bit_for, number_of_fold, value_of_fold};
ghost use Rattle.phaser_c.specs.Asked.{asked, IsFold};
ghost use Rattle.std.specs.declared.option.Option.{Option as Maybe};

use crate::answer::ExportAnswer;
use crate::handle::Handle;
use phase_model::Look;
use std::alloc::Global;

/// `PhaserState::closed`, as 0 or 1.
#[unsafe(no_mangle)]
pub extern "C" fn phaser_c_is_closed(
    alloc: Global,
    phaser: &mut Handle,
    phase: u32,
    closed: &mut u32,
) -> u32
    ensures kept { phaser.new.state ≡ phaser.old.state }
    ensures answer { result ≡ number_of_read phaser.old.state }
    ensures closed { closed.new ≡ asked phaser.old.state closed.old (λ p. bit_for (is_closed phase p.story.past)) }
{
    let Some(state) = phaser.take(alloc) else {
        return ExportAnswer::Closed.number();
    };
    *closed = u32::from(state.closed(phase));
    phaser.put(alloc, state);
    ExportAnswer::Done.number()
}

/// `PhaserState::is_full`, as 0 or 1.
#[unsafe(no_mangle)]
pub extern "C" fn phaser_c_is_full(alloc: Global, phaser: &mut Handle, full: &mut u32) -> u32
    ensures kept { phaser.new.state ≡ phaser.old.state }
    ensures answer { result ≡ number_of_read phaser.old.state }
    ensures full { full.new ≡ asked phaser.old.state full.old (λ p. bit_for (is_full p.story.limits p.story.past)) }
{
    let Some(state) = phaser.take(alloc) else {
        return ExportAnswer::Closed.number();
    };
    *full = u32::from(state.is_full());
    phaser.put(alloc, state);
    ExportAnswer::Done.number()
}

/// `PhaserState::compared`.
#[unsafe(no_mangle)]
pub extern "C" fn phaser_c_compared(alloc: Global, phaser: &mut Handle, count: &mut u32) -> u32
    ensures kept { phaser.new.state ≡ phaser.old.state }
    ensures answer { result ≡ number_of_read phaser.old.state }
    ensures count { count.new ≡ asked phaser.old.state count.old (λ p. p.compared) }
{
    let Some(state) = phaser.take(alloc) else {
        return ExportAnswer::Closed.number();
    };
    *count = state.compared();
    phaser.put(alloc, state);
    ExportAnswer::Done.number()
}

/// How many events the history has.
#[unsafe(no_mangle)]
pub extern "C" fn phaser_c_event_count(alloc: Global, phaser: &mut Handle, count: &mut u32) -> u32
    ensures kept { phaser.new.state ≡ phaser.old.state }
    ensures answer { result ≡ number_of_read phaser.old.state }
    ensures count { count.new ≡ asked phaser.old.state count.old (λ p. length p.story.past) }
{
    let Some(state) = phaser.take(alloc) else {
        return ExportAnswer::Closed.number();
    };
    *count = state.history().len();
    phaser.put(alloc, state);
    ExportAnswer::Done.number()
}

/// The number that answers what is kept of a fold, and its value, if it has one.
fn give_fold(fold: Option<Look>, value: &mut i64) -> u32
    ensures answer { result ≡ number_of_fold fold }
    ensures value { value.new ≡ value_of_fold value.old fold }
{
    match fold {
        Some(Look::Value(given)) => {
            *value = given;
            ExportAnswer::Done.number()
        }
        Some(Look::Nothing) => ExportAnswer::Nothing.number(),
        None => ExportAnswer::NotKept.number(),
    }
}

/// `PhaserState::fold_at`.
#[unsafe(no_mangle)]
pub extern "C" fn phaser_c_fold_at(
    alloc: Global,
    phaser: &mut Handle,
    accumulator: u8,
    phase: u32,
    value: &mut i64,
) -> u32
    ensures kept { phaser.new.state ≡ phaser.old.state }
    ensures fold { IsFold phaser.old.state accumulator phase value.old value.new result }
{
    let Some(state) = phaser.take(alloc) else {
        return ExportAnswer::Closed.number();
    };
    let fold = state.fold_at(accumulator, phase);
    phaser.put(alloc, state);
    give_fold(fold, value)
}
