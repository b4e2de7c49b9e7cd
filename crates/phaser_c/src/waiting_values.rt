//! Values that threads send to a phaser for threads that wait, and see there.
ghost use Rattle.std.specs.Prelude.{◌≡◌, true};
ghost use Rattle.phase_model.specs.declared.call.Call.TheVariants.{Send as send, Look as look};
ghost use Rattle.phase_model.specs.Replies.{reply, done_result};
ghost use Rattle.phase_model.specs.Answers.{look_result};
ghost use Rattle.phaser_c.specs.Answers.{number_of_answer};
ghost use Rattle.phaser_c.specs.Waiting.{told_at, answer_of_done, answer_seen, answer_of_seen, value_seen, value_seen_at, IsCalled, IsHeldAfter};

use crate::answer::ExportAnswer;
use crate::waiting_handle::WaitingHandle;
use crate::waiting_tasks::answer_done;
use phase_model::{LongLook, Look};
use phase_modes::Refusal;
use std::alloc::Global;

/// The least and the greatest number of 64 bits.
const LEAST: i128 = -9_223_372_036_854_775_808;

const GREATEST: i128 = 9_223_372_036_854_775_807;

/// What is answered if a look returned this, and the value that it gives.
pub(crate) fn give_seen(outcome: Result<LongLook, Refusal>, value: &mut i64) -> ExportAnswer
    ensures answer { result ≡ answer_seen outcome }
    ensures value { value.new ≡ value_seen value.old outcome }
{
    match outcome {
        Ok(Look::Value(seen)) if LEAST <= seen && seen <= GREATEST => {
            *value = seen as i64;
            ExportAnswer::Done
        }
        Ok(Look::Value(_)) => ExportAnswer::TooGreat,
        Ok(Look::Nothing) => ExportAnswer::Nothing,
        Err(refusal) => ExportAnswer::Refused(refusal),
    }
}

/// `LongCell::send`.
#[unsafe(no_mangle)]
pub extern "C" fn phaser_c_waiting_send(
    alloc: Global,
    phaser: &mut WaitingHandle,
    task: u64,
    accumulator: u8,
    value: i32,
) -> u32
    ensures answer { result ≡ number_of_answer (answer_of_done (told_at true phaser.old.state
        (λ c. done_result (reply c.state.story (send task accumulator value))))) }
    ensures made { IsHeldAfter (IsCalled (send task accumulator value)) phaser.old.state phaser.new.state }
{
    let Some(mut waiting) = phaser.take(alloc) else {
        return ExportAnswer::Closed.number();
    };
    let outcome = waiting.cell.send(task, accumulator, value);
    phaser.put(alloc, waiting);
    answer_done(outcome).number()
}

/// `LongCell::look`.
#[unsafe(no_mangle)]
pub extern "C" fn phaser_c_waiting_look(
    alloc: Global,
    phaser: &mut WaitingHandle,
    task: u64,
    accumulator: u8,
    value: &mut i64,
) -> u32
    ensures answer { result ≡ number_of_answer (answer_of_seen (told_at true phaser.old.state
        (λ c. look_result (reply c.state.story (look task accumulator))))) }
    ensures value { value.new ≡ value_seen_at value.old phaser.old.state
        (λ c. look_result (reply c.state.story (look task accumulator))) }
    ensures made { IsHeldAfter (IsCalled (look task accumulator)) phaser.old.state phaser.new.state }
{
    let Some(mut waiting) = phaser.take(alloc) else {
        return ExportAnswer::Closed.number();
    };
    let outcome = waiting.cell.look(task, accumulator);
    phaser.put(alloc, waiting);
    give_seen(outcome, value).number()
}
