//! What a phaser says of an event: the call that would make it is made, and its answer compared.
ghost use Rattle.std.specs.Prelude.{◌≡◌, ◌≢◌, ◌+◌, Ok, Err, IfOk, IfErr};
ghost use Rattle.phase_model.specs.declared.history.Event.TheVariants as event;
ghost use Rattle.phase_model.specs.Replies.{reply, after};
ghost use Rattle.phase_model.specs.Rules.{same_look};
ghost use Rattle.phaser_judge.specs.Reasons as reasons;
ghost use Rattle.phaser_judge.specs.Reasons.{said};
ghost use Rattle.phaser_judge.specs.inner.Steps.{left, IsOfTask};
ghost use Rattle.told_history.specs.Wide.{event_of};

use crate::refused::Refused;
use phase_model::{LongLook, LongPassing, Look, Passing, Signalling};
use phase_modes::{Mode, Refusal};
use phaser_core::{LongPhaser, LongTask};
use told_history::LongEvent;

fn by_rule(answer: Result<(), Refusal>) -> Result<(), Refused>
    ensures { result ≡ reasons.by_rule answer }
{
    match answer {
        Ok(()) => Ok(()),
        Err(refusal) => Err(Refused::Rule(refusal)),
    }
}

fn by_signal(answer: Result<Signalling, Refusal>) -> Result<(), Refused>
    ensures { result ≡ reasons.by_signal answer }
{
    match answer {
        Ok(Signalling::Signalled) => Ok(()),
        Ok(Signalling::NotYet) => Err(Refused::HadToWait),
        Err(refusal) => Err(Refused::Rule(refusal)),
    }
}

fn by_pass(answer: Result<LongPassing, Refusal>) -> Result<(), Refused>
    ensures { result ≡ reasons.by_pass answer }
{
    match answer {
        Ok(Passing::Passed(_)) => Ok(()),
        Ok(Passing::Claimed(_)) => Err(Refused::ClaimsInstead),
        Ok(Passing::NotYet) => Err(Refused::HadToWait),
        Err(refusal) => Err(Refused::Rule(refusal)),
    }
}

fn by_claim(answer: Result<LongPassing, Refusal>) -> Result<(), Refused>
    ensures { result ≡ reasons.by_claim answer }
{
    match answer {
        Ok(Passing::Passed(_)) => Err(Refused::PassesInstead),
        Ok(Passing::Claimed(_)) => Ok(()),
        Ok(Passing::NotYet) => Err(Refused::HadToWait),
        Err(refusal) => Err(Refused::Rule(refusal)),
    }
}

fn is_same(told: LongLook, seen: LongLook) -> bool
    ensures { result ≡ same_look told seen }
{
    match (told, seen) {
        (Look::Value(told), Look::Value(seen)) => told == seen,
        (Look::Nothing, Look::Nothing) => true,
        _ => false,
    }
}

fn by_look(told: LongLook, answer: Result<LongLook, Refusal>) -> Result<(), Refused>
    ensures { result ≡ reasons.by_look told answer }
{
    match answer {
        Ok(seen) => {
            if is_same(told, seen) {
                Ok(())
            } else {
                Err(Refused::SawOther(seen))
            }
        }
        Err(refusal) => Err(Refused::Rule(refusal)),
    }
}

/// A registration; the child's number is the next one.
pub(crate) fn register(
    phaser: &mut LongPhaser,
    parent: LongTask,
    mode: Mode,
) -> Result<LongTask, Refusal>
    ensures said { IfOk result (λ _. said phaser.old.story (event.Reg parent phaser.old.next mode) ≡ Ok tt) }
    ensures refused { IfErr result (λ r. said phaser.old.story (event.Reg parent phaser.old.next mode) ≡ Err (Refused.Rule r)) }
    ensures number { IfOk result (λ t. t ≡ phaser.old.next) }
    ensures story { phaser.new.story ≡ left phaser.old.story (event.Reg parent phaser.old.next mode) }
    ensures next { IfOk result (λ t. phaser.new.next ≡ t + 1) }
{
    phaser.register(parent, mode)
}

/// A signal.
pub(crate) fn signal(
    phaser: &mut LongPhaser,
    task: LongTask,
    number: Option<u32>,
) -> Result<(), Refused>
    ensures said { result ≡ said phaser.old.story (event.Sig task number) }
    ensures story { phaser.new.story ≡ left phaser.old.story (event.Sig task number) }
    ensures next { phaser.new.next ≡ phaser.old.next }
{
    by_signal(phaser.signal(task, number))
}

/// A claim.
pub(crate) fn claim(phaser: &mut LongPhaser, task: LongTask) -> Result<(), Refused>
    ensures said { result ≡ said phaser.old.story (event.Claim task) }
    ensures story { phaser.new.story ≡ left phaser.old.story (event.Claim task) }
    ensures next { phaser.new.next ≡ phaser.old.next }
{
    by_claim(phaser.pass(task))
}

/// A report.
pub(crate) fn did(phaser: &mut LongPhaser, task: LongTask) -> Result<(), Refused>
    ensures said { result ≡ said phaser.old.story (event.Did task) }
    ensures story { phaser.new.story ≡ left phaser.old.story (event.Did task) }
    ensures next { phaser.new.next ≡ phaser.old.next }
{
    by_rule(phaser.single_done(task))
}

/// A pass.
pub(crate) fn pass(phaser: &mut LongPhaser, task: LongTask) -> Result<(), Refused>
    ensures said { result ≡ said phaser.old.story (event.Pass task) }
    ensures story { phaser.new.story ≡ left phaser.old.story (event.Pass task) }
    ensures next { phaser.new.next ≡ phaser.old.next }
{
    by_pass(phaser.pass(task))
}

/// A send.
pub(crate) fn send(
    phaser: &mut LongPhaser,
    task: LongTask,
    accumulator: u8,
    value: i32,
) -> Result<(), Refused>
    ensures said { result ≡ said phaser.old.story (event.Send task accumulator value) }
    ensures story { phaser.new.story ≡ left phaser.old.story (event.Send task accumulator value) }
    ensures next { phaser.new.next ≡ phaser.old.next }
{
    by_rule(phaser.send(task, accumulator, value))
}

/// A look.
pub(crate) fn look(
    phaser: &mut LongPhaser,
    task: LongTask,
    accumulator: u8,
    seen: LongLook,
) -> Result<(), Refused>
    ensures said { result ≡ said phaser.old.story (event.Look task accumulator seen) }
    ensures story { phaser.new.story ≡ left phaser.old.story (event.Look task accumulator seen) }
    ensures next { phaser.new.next ≡ phaser.old.next }
{
    by_look(seen, phaser.look(task, accumulator))
}

/// A task leaves.
pub(crate) fn leave(phaser: &mut LongPhaser, task: LongTask) -> Result<(), Refused>
    ensures said { result ≡ said phaser.old.story (event.Drop task) }
    ensures story { phaser.new.story ≡ left phaser.old.story (event.Drop task) }
    ensures next { phaser.new.next ≡ phaser.old.next }
{
    by_rule(phaser.leave(task))
}

/// Any event but the first and a registration.
#[tactic(auto, using(crate::proofs::Telling::never_memory, crate::proofs::Telling::waited_stays))]
pub(crate) fn tell(phaser: &mut LongPhaser, event: LongEvent) -> Result<(), Refused>
    requires { IsOfTask event }
    ensures said { result ≡ said phaser.old.story (event_of event) }
    ensures story { phaser.new.story ≡ left phaser.old.story (event_of event) }
    ensures next { phaser.new.next ≡ phaser.old.next }
    ensures not_memory { result ≢ Err Refused.Memory }
    ensures waited { result ≡ Err Refused.HadToWait → phaser.new.story ≡ phaser.old.story }
{
    match event {
        LongEvent::Make(..) | LongEvent::Reg(..) => unreachable!(),
        LongEvent::Sig(task, number) => signal(phaser, task, number),
        LongEvent::Claim(task) => claim(phaser, task),
        LongEvent::Did(task) => did(phaser, task),
        LongEvent::Pass(task) => pass(phaser, task),
        LongEvent::Send(task, accumulator, value) => send(phaser, task, accumulator, value),
        LongEvent::Look(task, accumulator, seen) => look(phaser, task, accumulator, seen),
        LongEvent::Drop(task) => leave(phaser, task),
    }
}
