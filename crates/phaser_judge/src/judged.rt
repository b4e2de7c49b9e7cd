//! One phaser, judged.
ghost use Rattle.std.specs.Prelude.{◌≡◌, ◌≢◌, Ok, Err, Some, None, true, false, IfOk, IfErr};
ghost use Rattle.phase_modes.specs.declared.reg.Mode.{Mode};
ghost use Rattle.phase_modes.specs.Lists.{is_empty};
ghost use Rattle.phase_model.specs.declared.history.Event.TheVariants as event;
ghost use Rattle.told_history.specs.Wide.{event_of};
ghost use Rattle.phaser_judge.specs.declared.event.Named.TheVariants as named;
ghost use Rattle.phase_model.specs.Rules.{is_legal};
ghost use Rattle.phaser_judge.specs.Standings.{started, can_happen, moved, renamed_event, names_after};
ghost use Rattle.phaser_judge.specs.inner.Steps.{IsNoRegistration, IsOfTask, left_by};
ghost use Rattle.phaser_judge.specs.Reasons.{verdict};
ghost use Rattle.phaser_judge.specs.Numbers.{number_of, next_after};
ghost use Rattle.phaser_judge.specs.Courses.{first_phase};
ghost use Rattle.phaser_judge.specs.Owing.{is_owed_by, owes, phase_at, IsOwingAt};

use crate::calls;
use crate::event::Named;
use crate::names::Names;
use crate::owing::Owing;
use crate::refused::Refused;
use phase_model::{Bound, Ops};
use phase_modes::{LongReg, Mode};
use phaser_core::{LongPhaser, LongTask, Phase};
use std::alloc::{AllocError, Global};
use std::marker::Model;
use told_history::LongEvent;

/// A phaser that is made, and its tasks by the runtime's numbers. Contracts see the story that was told
/// of it, in numbers of its own, and which number is whose. Nothing of the story is stored.
#[derive(Drop)]
pub(crate) struct Judged {
    phaser: LongPhaser,
    names: Names,
}

impl Model for Judged {
    ghost use Rattle.phaser_judge.specs.Standings.{Standing};

    ghost Value = { Standing };

    ghost view = { λ j. record { story = j.phaser.story; names = j.names.tasks.items; next = j.phaser.next } };
}

/// The bound of a phaser that was made without one.
fn widest() -> Bound
    ensures { result ≡ 65536 }
{
    match Bound::of(65_536) {
        Some(bound) => bound,
        None => unreachable!(),
    }
}

impl Judged {
    /// A phaser that the task has just made. `Memory` if there is none for it.
    pub(crate) fn make(
        alloc: Global,
        task: u64,
        mode: Mode,
        ops: Ops,
        bound: Option<Bound>,
    ) -> Result<Judged, Refused>
        ensures started { IfOk result (λ j. j ≡ started task mode ops bound) }
        ensures memory { IfErr result (λ r. r ≡ Refused.Memory) }
    {
        let bound = bound.unwrap_or(widest());
        let Ok(mut phaser) = LongPhaser::new(alloc, ops, bound) else {
            return Err(Refused::Memory);
        };
        let Ok(maker) = phaser.make(mode) else {
            unreachable!();
        };
        let Ok(names) = Names::of(alloc, task, maker) else {
            return Err(Refused::Memory);
        };
        Ok(Judged { phaser, names })
    }

    /// The phaser's number of a task.
    fn number(&self, task: u64) -> Result<LongTask, Refused>
        ensures registered { IfOk result (λ n. number_of self.now.names task ≡ Some n) }
        ensures missing { IfErr result (λ r. (r ≡ Refused.NotRegistered) × (number_of self.now.names task ≡ None)) }
    {
        match self.names.number_of(task) {
            Some(number) => Ok(number),
            None => Err(Refused::NotRegistered),
        }
    }

    /// The event with the phaser's numbers.
    fn renamed(&self, event: &Named) -> Result<LongEvent, Refused>
        requires { IsNoRegistration event.now }
        ensures named { IfOk result (λ e. renamed_event self.now event.now ≡ Ok (event_of e)) }
        ensures of_task { IfOk result IsOfTask }
        ensures not_memory { IfErr result (λ r. r ≢ Refused.Memory) }
        ensures nameless { IfErr result (λ r. renamed_event self.now event.now ≡ Err r) }
    {
        match *event {
            Named::Make(..) => Err(Refused::MadeAlready),
            Named::Reg(..) => unreachable!(),
            Named::Sig(task, number) => Ok(LongEvent::Sig(self.number(task)?, number)),
            Named::Claim(task) => Ok(LongEvent::Claim(self.number(task)?)),
            Named::Did(task) => Ok(LongEvent::Did(self.number(task)?)),
            Named::Pass(task) => Ok(LongEvent::Pass(self.number(task)?)),
            Named::Send(task, accumulator, value) => {
                Ok(LongEvent::Send(self.number(task)?, accumulator, value))
            }
            Named::Look(task, accumulator, seen) => {
                Ok(LongEvent::Look(self.number(task)?, accumulator, seen))
            }
            Named::Drop(task) => Ok(LongEvent::Drop(self.number(task)?)),
        }
    }

    /// An event that registers nobody. The names stay as they are.
    fn act(&mut self, event: &Named) -> Result<(), Refused>
        requires { IsNoRegistration event.now }
        ensures said { result ≡ verdict self.old event.now }
        ensures story { self.new.story ≡ left_by self.old.story (renamed_event self.old event.now) }
        ensures names { self.new.names ≡ self.old.names }
        ensures next { self.new.next ≡ self.old.next }
        ensures not_memory { result ≢ Err Refused.Memory }
        ensures waited { result ≡ Err Refused.HadToWait → self.new ≡ self.old }
    {
        let event = self.renamed(event)?;
        calls::tell(&mut self.phaser, event)
    }

    /// The phaser's number of a parent that may register this child.
    fn parent(&self, parent: u64, child: u64) -> Result<LongTask, Refused>
        ensures named { IfOk result (λ n. (m : Mode) → renamed_event self.now (named.Reg parent child m) ≡ Ok (event.Reg n self.now.next m)) }
        ensures nameless { IfErr result (λ r. (m : Mode) → renamed_event self.now (named.Reg parent child m) ≡ Err r) }
        ensures not_memory { IfErr result (λ r. r ≢ Refused.Memory) }
        ensures not_waited { IfErr result (λ r. r ≢ Refused.HadToWait) }
    {
        if self.names.number_of(child).is_some() {
            return Err(Refused::RegisteredAlready);
        }
        self.number(parent)
    }

    /// A registration.
    fn register(&mut self, parent: u64, child: u64, mode: Mode) -> Result<(), Refused>
        ensures said { result ≢ Err Refused.Memory → result ≡ verdict self.old (named.Reg parent child mode) }
        ensures memory { result ≡ Err Refused.Memory → self.new ≡ self.old }
        ensures story { IfOk result (λ _. self.new.story ≡ left_by self.old.story (renamed_event self.old (named.Reg parent child mode))) }
        ensures names { IfOk result (λ _. self.new.names ≡ names_after self.old (named.Reg parent child mode)) }
        ensures next { IfOk result (λ _. self.new.next ≡ next_after self.old.next (named.Reg parent child mode)) }
        ensures not_waited { result ≢ Err Refused.HadToWait }
    {
        let parent = self.parent(parent, child)?;
        if self.names.reserve().is_err() {
            return Err(Refused::Memory);
        }
        match calls::register(&mut self.phaser, parent, mode) {
            Ok(number) => {
                self.names.push(child, number);
                Ok(())
            }
            Err(refusal) => Err(Refused::Rule(refusal)),
        }
    }

    /// Whether no task is left.
    pub(crate) fn is_empty(&self) -> bool
        ensures { result ≡ is_empty self.now.names }
    {
        self.names.is_empty()
    }

    /// What an event is told, before its consequences for the names.
    fn step(&mut self, event: &Named) -> Result<(), Refused>
        ensures said { result ≢ Err Refused.Memory → result ≡ verdict self.old event.now }
        ensures memory { result ≡ Err Refused.Memory → self.new ≡ self.old }
        ensures story { IfOk result (λ _. self.new.story ≡ left_by self.old.story (renamed_event self.old event.now)) }
        ensures names { IfOk result (λ _. self.new.names ≡ names_after self.old event.now) }
        ensures next { IfOk result (λ _. self.new.next ≡ next_after self.old.next event.now) }
        ensures waited { result ≡ Err Refused.HadToWait → self.new ≡ self.old }
    {
        match *event {
            Named::Reg(parent, child, mode) => self.register(parent, child, mode),
            Named::Drop(task) => {
                self.act(event)?;
                self.names.remove(task);
                Ok(())
            }
            _ => self.act(event),
        }
    }

    /// Judges one event more. Nothing is known of what the phaser is after a refusal that is neither `Memory`
    /// nor `HadToWait`.
    pub(crate) fn event(&mut self, event: &Named) -> Result<(), Refused>
        ensures accepted { IfOk result (λ _. can_happen self.old event.now ≡ true) }
        ensures refused { IfErr result (λ r. r ≢ Refused.Memory → can_happen self.old event.now ≡ false) }
        ensures moved { IfOk result (λ _. self.new ≡ moved self.old event.now) }
        ensures reason { result ≢ Err Refused.Memory → result ≡ verdict self.old event.now }
        ensures memory { result ≡ Err Refused.Memory → self.new ≡ self.old }
        ensures waited { result ≡ Err Refused.HadToWait → self.new ≡ self.old }
    {
        // The story so far is legal.
        let _ = self.phaser.history();
        self.step(event)
    }

    /// The first phase that none of its tasks has passed.
    pub(crate) fn phase(&self) -> Phase
        ensures { result ≡ first_phase self.now.story.past self.now.names }
    {
        let mut phase = 0;
        for (_, number) in &self.names.tasks {
            if let Some(reg) = self.phaser.registration(*number) {
                phase = reg.phase.max(phase);
            }
        }
        phase
    }

    /// The phase at which the task stands, 0 if it isn't registered.
    fn phase_of(&self, task: u64) -> Phase
        ensures { result ≡ phase_at self.now task }
    {
        let Some(number) = self.names.number_of(task) else {
            return 0;
        };
        match self.phaser.registration(number) {
            Some(reg) => reg.phase,
            None => 0,
        }
    }

    /// Whether the task of this number is registered, can signal, and hasn't signalled the phase.
    fn owes(&self, phase: Phase, number: LongTask) -> bool
        ensures { result ≡ owes phase self.now.story.past number }
    {
        match self.phaser.registration(number) {
            Some(reg) => is_owed_by(phase, reg),
            None => false,
        }
    }

    /// Says for whom the task waits, if it does for any: who owes the phase at which it stands.
    pub(crate) fn owing_to(&self, task: u64, owing: &mut Owing) -> Result<(), AllocError>
        ensures { IfOk result (λ _. IsOwingAt self.now task owing.new) }
    {
        let phase = self.phase_of(task);
        owing.tasks.clear();
        for (name, number) in &self.names.tasks {
            if self.owes(phase, *number) {
                owing.tasks.push(*name)?;
            }
        }
        owing.phase = phase;
        Ok(())
    }
}

/// Whether a task that is registered so can signal, and hasn't signalled the phase.
fn is_owed_by(phase: Phase, reg: LongReg) -> bool
    ensures { result ≡ is_owed_by phase reg }
{
    let signalled = if reg.ahead {
        phase <= reg.phase
    } else {
        phase < reg.phase
    };
    reg.mode.can_signal() && !signalled
}
