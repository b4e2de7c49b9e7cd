//! What a call would be answered, for whoever has to know before it is made. Nothing is changed
//! here.
ghost use Rattle.std.specs.Prelude.{◌≡◌, ◌≤◌, IfOk, IfErr};
ghost use Rattle.phase_model.specs.Replies.{reply, returned};
ghost use Rattle.phase_model.specs.Tasks.{is_registered};
ghost use Rattle.phase_model.specs.declared.call.Call.TheVariants.{Register as register};
ghost use Rattle.phase_model.specs.Outcomes.{look_reply};
ghost use Rattle.phase_model.specs.Short.{IsShortLook};
ghost use Rattle.phaser_engine.specs.Outcomes.{unmade_reply, turn_reply, IsShortTurn};

use crate::state::Engine;
use crate::turn::{Signal, Turn, Unmade};
use crate::view::{View, view_of};
use phase_model::{Call, LongLook, Reply, short_look};
use phase_modes::Refusal;
use reg_table::Comparisons;

impl Engine {
    /// What would be replied to the call now, on a phaser whose phases and sums have room in a
    /// reply. Of a child that would be registered whoever calls knows whether its number ever was.
    pub fn reply_to(&self, call: Call, is_known: bool) -> Reply
        requires known { (parent child : _) → (mode : _) → call ≡ register parent child mode
            → is_known ≡ is_registered child self.now.story.past }
        requires short { self.now.story.limits.history ≤ 65536 }
        ensures { result ≡ returned self.now.story.past (reply self.now.story call) }
    {
        let mut comparisons = Comparisons::none();
        let view = view_of!(self);
        match call {
            Call::Make(task, mode) => done_or_refused(view.may_make(task as u64, mode)),
            Call::Register(parent, child, mode) => done_or_refused(view.may_register(
                parent as u64,
                child as u64,
                mode,
                is_known,
                &mut comparisons,
            )),
            Call::Signal(task, number) => signal_answer(view.may_signal(
                task as u64,
                number,
                &mut comparisons,
            )),
            Call::Pass(task) => turn_reply(view.may_pass(task as u64, &mut comparisons)),
            Call::SingleDone(task) => done_or_refused(view.may_report(
                task as u64,
                &mut comparisons,
            )),
            Call::Send(task, accumulator, value) => done_or_refused(view.may_send(
                task as u64,
                accumulator,
                value,
                &mut comparisons,
            )),
            Call::Look(task, accumulator) => seen_reply(view.may_look(
                &self.cells,
                task as u64,
                accumulator,
                &mut comparisons,
            )),
            Call::Drop(task) => done_or_refused(view.may_drop(task as u64, &mut comparisons)),
        }
    }
}

/// The reply of a call that may be made, whatever is to be written then, or that is refused.
fn done_or_refused<T: Copy>(outcome: Result<T, Refusal>) -> Reply
    ensures done { IfOk outcome (λ _. result ≡ Reply.Done) }
    ensures refused { IfErr outcome (λ r. result ≡ Reply.Refused r) }
{
    match outcome {
        Ok(_) => Reply::Done,
        Err(refusal) => Reply::Refused(refusal),
    }
}

/// The reply of a signal that may be made, or why it may not.
fn signal_answer(outcome: Result<Signal, Unmade>) -> Reply
    ensures done { IfOk outcome (λ _. result ≡ Reply.Done) }
    ensures unmade { IfErr outcome (λ why. result ≡ unmade_reply why) }
{
    match outcome {
        Ok(_) => Reply::Done,
        Err(Unmade::Refused(refusal)) => Reply::Refused(refusal),
        Err(Unmade::Held) => Reply::NotYet,
    }
}

/// The reply of a look that sees this.
fn seen_reply(outcome: Result<LongLook, Refusal>) -> Reply
    requires { IfOk outcome (λ x. IsShortLook x) }
    ensures { result ≡ look_reply outcome }
{
    match outcome {
        Ok(seen) => Reply::Saw(short_look(seen)),
        Err(refusal) => Reply::Refused(refusal),
    }
}

/// The reply of a pass that goes on like this.
fn turn_reply(outcome: Result<Turn, Refusal>) -> Reply
    requires { IfOk outcome (λ turn. IsShortTurn turn) }
    ensures { result ≡ turn_reply outcome }
{
    match outcome {
        Ok(Turn::Passes(_, phase)) => Reply::Phase(phase as u32),
        Ok(Turn::Claims(_, number)) => Reply::Claim(number),
        Ok(Turn::Waits) => Reply::NotYet,
        Err(refusal) => Reply::Refused(refusal),
    }
}
