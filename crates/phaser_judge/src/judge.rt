//! The judge of many phasers.
ghost use Rattle.std.specs.Prelude.{◌≡◌, ◌≢◌, [], ◌∷◌, Ok, Err, true, false, IfOk, IfErr};
ghost use Rattle.std.specs.Option.{option_map};
ghost use Rattle.phaser_judge.specs.Courses.{first_phase, AreThere, totals_of};
ghost use Rattle.phaser_judge.specs.Standings.{standing, may_come};
ghost use Rattle.phaser_judge.specs.Reasons.{verdict_at};
ghost use Rattle.phaser_judge.specs.Owing.{IsOwingTo};
ghost use Rattle.phaser_judge.specs.Renaming.{AreLegal};

use crate::event::NamedEvent;
use crate::owing::Owing;
use crate::phasers::Phasers;
use crate::refused::Refused;
use crate::totals::Totals;
use phaser_core::Phase;
use std::alloc::Global;
use std::marker::Model;
use told_history::Whole;

/// Judges the events of any number of phasers, one after the other. Contracts see the events that it has
/// accepted, the newest first, and whether it has refused one since. It stores none of them: its memory
/// is that of the phasers that are there.
#[derive(Drop)]
pub struct Judge {
    alloc: Global,
    phasers: Phasers,
    totals: Totals,
    over: bool,
    accepted: Whole<NamedEvent>,
}

impl Model for Judge {
    ghost use Rattle.phaser_judge.specs.Courses.{Course};
    ghost use Rattle.phaser_judge.specs.inner.Steps.{IsKept};

    ghost Value = { Course };

    ghost view = { λ j. record { events = j.accepted.items; over = j.over } };

    ghost invariant = { λ j. IsKept j.phasers.phasers j.totals j.over j.accepted.items };
}

impl Judge {
    /// A judge before the first event. It takes no memory yet.
    pub fn new(alloc: Global) -> Judge
        ensures { result ≡ record { events = []; over = false } }
    {
        Judge {
            alloc,
            phasers: Phasers::new(alloc),
            totals: Totals::none(),
            over: false,
            accepted: Whole::new(),
        }
    }

    /// Judges one event more: `Ok` if it can happen after those before it. `Memory` leaves the judge as it
    /// was. After any other refusal the judge is over, and refuses every event with `Over`.
    pub fn event(&mut self, event: &NamedEvent) -> Result<(), Refused>
        ensures accepted { IfOk result (λ _. may_come (standing event.now.phaser self.old.events) event.now.event ≡ true) }
        ensures added { IfOk result (λ _. self.new ≡ record { events = event.now ∷ self.old.events; over = self.old.over }) }
        ensures refused { self.old.over ≡ false → IfErr result (λ r. r ≢ Refused.Memory
            → may_come (standing event.now.phaser self.old.events) event.now.event ≡ false) }
        ensures reason { self.old.over ≡ false → IfErr result (λ r. r ≢ Refused.Memory
            → verdict_at (standing event.now.phaser self.old.events) event.now.event ≡ Err r) }
        ensures ended { IfErr result (λ r. r ≢ Refused.Memory → self.new ≡ record { events = self.old.events; over = true }) }
        ensures over { self.old.over ≡ true → result ≡ Err Refused.Over }
        ensures memory { result ≡ Err Refused.Memory → self.new ≡ self.old }
        ensures legal { AreLegal self.new.events }
        ensures illegal { self.old.over ≡ false → IfErr result (λ r. r ≢ Refused.Memory
            → AreLegal (event.now ∷ self.old.events) → ⊥) }
    {
        self.event_with_owing(event, &mut Owing::none(self.alloc))
    }

    /// The same as `event`. If the event had to wait, `owing` then says for whom: if it is a pass or a
    /// claim, the phase of its task, and the tasks that owe it. `Memory` also if there is none to say so.
    #[tactic(auto, using(crate::proofs::Lives::come_legal))]
    pub fn event_with_owing(&mut self, event: &NamedEvent, owing: &mut Owing) -> Result<(), Refused>
        ensures accepted { IfOk result (λ _. may_come (standing event.now.phaser self.old.events) event.now.event ≡ true) }
        ensures added { IfOk result (λ _. self.new ≡ record { events = event.now ∷ self.old.events; over = self.old.over }) }
        ensures refused { self.old.over ≡ false → IfErr result (λ r. r ≢ Refused.Memory
            → may_come (standing event.now.phaser self.old.events) event.now.event ≡ false) }
        ensures reason { self.old.over ≡ false → IfErr result (λ r. r ≢ Refused.Memory
            → verdict_at (standing event.now.phaser self.old.events) event.now.event ≡ Err r) }
        ensures ended { IfErr result (λ r. r ≢ Refused.Memory → self.new ≡ record { events = self.old.events; over = true }) }
        ensures over { self.old.over ≡ true → result ≡ Err Refused.Over }
        ensures memory { result ≡ Err Refused.Memory → self.new ≡ self.old }
        ensures legal { AreLegal self.new.events }
        ensures illegal { self.old.over ≡ false → IfErr result (λ r. r ≢ Refused.Memory
            → AreLegal (event.now ∷ self.old.events) → ⊥) }
        ensures owing { self.old.over ≡ false → result ≡ Err Refused.HadToWait
            → IsOwingTo (standing event.now.phaser self.old.events) event.now.event owing.new }
    {
        if self.over {
            return Err(Refused::Over);
        }
        let (alloc, phaser) = (self.alloc, event.phaser);
        match self
            .phasers
            .event_with_owing(alloc, phaser, &event.event, owing)
        {
            Ok(()) => {
                self.accepted.add(event);
                self.totals.count(&event.event);
                Ok(())
            }
            Err(Refused::Memory) => Err(Refused::Memory),
            Err(refused) => {
                self.over = true;
                Err(refused)
            }
        }
    }

    /// Whether an event was refused, for another reason than memory.
    pub fn is_over(&self) -> bool
        ensures { result ≡ self.now.over }
    {
        self.over
    }

    /// What the judge counted of the events that it accepted.
    pub fn totals(&self) -> Totals
        ensures { result ≡ totals_of self.now.events }
    {
        self.totals
    }

    /// The first phase that none of the phaser's tasks has passed, if the phaser is there.
    pub fn phase(&self, phaser: u64) -> Option<Phase>
        ensures { self.now.over ≡ false
            → result ≡ option_map (λ s. first_phase s.story.past s.names) (standing phaser self.now.events) }
    {
        let _ = self.over;
        self.phasers.phase(phaser)
    }

    /// How many phasers are there.
    pub fn phasers(&self) -> usize
        ensures { AreThere (λ p. standing p self.now.events) result }
    {
        self.phasers.len()
    }
}
