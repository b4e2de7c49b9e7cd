//! The phasers that are there.
ghost use Rattle.std.specs.Prelude.{◌≡◌, ◌≢◌, ℕ, Err, Some, None, true, false, is_some, IfOk, IfErr, IfSome, OnOk};
ghost use Rattle.std.specs.Option.{option_map, option_map_or};
ghost use Rattle.phase_modes.specs.Lists.{is_empty};
ghost use Rattle.phaser_judge.specs.declared.event.Named.TheVariants as named;
ghost use Rattle.phaser_judge.specs.Standings.{started, moved, may_come, stands_after, if_there};
ghost use Rattle.phaser_judge.specs.Courses.{first_phase, AreThere};
ghost use Rattle.phaser_judge.specs.inner.Steps.{at, IsNoMaking};
ghost use Rattle.phaser_judge.specs.Reasons.{verdict_at};
ghost use Rattle.phaser_judge.specs.Owing.{IsOwingTo};

use crate::event::Named;
use crate::judged::Judged;
use crate::owing::Owing;
use crate::refused::Refused;
use phase_model::{Bound, Ops};
use phase_modes::Mode;
use phaser_core::Phase;
use std::alloc::Global;
use std::collections::BTreeMap;

/// The phasers by the runtime's numbers.
#[derive(Drop)]
pub(crate) struct Phasers {
    pub(crate) phasers: BTreeMap<u64, Judged>,
}

impl Phasers {
    /// None.
    pub(crate) fn new(alloc: Global) -> Phasers
        ensures { (p : ℕ) → at result.phasers p ≡ None }
    {
        Phasers {
            phasers: BTreeMap::new(alloc),
        }
    }

    /// A phaser is made.
    fn make(
        &mut self,
        alloc: Global,
        phaser: u64,
        task: u64,
        mode: Mode,
        ops: Ops,
        bound: Option<Bound>,
    ) -> Result<(), Refused>
        ensures fresh { IfOk result (λ _. at self.old.phasers phaser ≡ None) }
        ensures made { IfOk result (λ _. at self.new.phasers phaser ≡ Some (started task mode ops bound)) }
        ensures others { (q : ℕ) → q ≢ phaser → at self.new.phasers q ≡ at self.old.phasers q }
        ensures refused { IfErr result (λ r. r ≢ Refused.Memory → (r ≡ Refused.MadeAlready) × (at self.old.phasers phaser ≢ None)) }
        ensures kept { IfErr result (λ _. (q : ℕ) → at self.new.phasers q ≡ at self.old.phasers q) }
    {
        if self.phasers.contains_key(&phaser) {
            return Err(Refused::MadeAlready);
        }
        let judged = Judged::make(alloc, task, mode, ops, bound)?;
        match self.phasers.insert(phaser, judged) {
            Ok(_) => Ok(()),
            Err(_) => Err(Refused::Memory),
        }
    }

    /// An event of a phaser that is made. Whether it has no task left.
    fn act(&mut self, phaser: u64, event: &Named) -> Result<bool, Refused>
        requires { IsNoMaking event.now }
        ensures accepted { IfOk result (λ _. may_come (at self.old.phasers phaser) event.now ≡ true) }
        ensures refused { IfErr result (λ r. r ≢ Refused.Memory → may_come (at self.old.phasers phaser) event.now ≡ false) }
        ensures moved { IfOk result (λ gone. at self.new.phasers phaser ≡ option_map (λ s. moved s event.now) (at self.old.phasers phaser)) }
        ensures gone { IfOk result (λ gone. option_map_or (λ s. is_empty s.names) (at self.new.phasers phaser) false ≡ gone) }
        ensures others { (q : ℕ) → q ≢ phaser → at self.new.phasers q ≡ at self.old.phasers q }
        ensures reason { IfErr result (λ r. r ≢ Refused.Memory → verdict_at (at self.old.phasers phaser) event.now ≡ Err r) }
        ensures there { IfErr result (λ _. is_some (at self.new.phasers phaser) ≡ is_some (at self.old.phasers phaser)) }
        ensures memory { result ≡ Err Refused.Memory → at self.new.phasers phaser ≡ at self.old.phasers phaser }
        ensures waited { result ≡ Err Refused.HadToWait → at self.new.phasers phaser ≡ at self.old.phasers phaser }
    {
        match self.phasers.get_mut(&phaser) {
            Some(judged) => {
                judged.event(event)?;
                Ok(judged.is_empty())
            }
            None => Err(Refused::NotMade),
        }
    }

    /// An event of a phaser that is made, which is gone if its last task has left.
    fn go_on(&mut self, phaser: u64, event: &Named) -> Result<(), Refused>
        requires { IsNoMaking event.now }
        ensures accepted { IfOk result (λ _. may_come (at self.old.phasers phaser) event.now ≡ true) }
        ensures refused { IfErr result (λ r. r ≢ Refused.Memory → may_come (at self.old.phasers phaser) event.now ≡ false) }
        ensures own { IfOk result (λ _. at self.new.phasers phaser ≡ stands_after (at self.old.phasers phaser) event.now) }
        ensures others { (q : ℕ) → q ≢ phaser → at self.new.phasers q ≡ at self.old.phasers q }
        ensures reason { IfErr result (λ r. r ≢ Refused.Memory → verdict_at (at self.old.phasers phaser) event.now ≡ Err r) }
        ensures there { IfErr result (λ _. is_some (at self.new.phasers phaser) ≡ is_some (at self.old.phasers phaser)) }
        ensures memory { result ≡ Err Refused.Memory → at self.new.phasers phaser ≡ at self.old.phasers phaser }
        ensures waited { result ≡ Err Refused.HadToWait → at self.new.phasers phaser ≡ at self.old.phasers phaser }
    {
        if self.act(phaser, event)? {
            self.phasers.remove(&phaser);
        }
        Ok(())
    }

    /// Judges one event more.
    pub(crate) fn event(&mut self, alloc: Global, phaser: u64, event: &Named) -> Result<(), Refused>
        ensures accepted { IfOk result (λ _. may_come (at self.old.phasers phaser) event.now ≡ true) }
        ensures refused { IfErr result (λ r. r ≢ Refused.Memory → may_come (at self.old.phasers phaser) event.now ≡ false) }
        ensures own { IfOk result (λ _. at self.new.phasers phaser ≡ stands_after (at self.old.phasers phaser) event.now) }
        ensures others { (q : ℕ) → q ≢ phaser → at self.new.phasers q ≡ at self.old.phasers q }
        ensures reason { IfErr result (λ r. r ≢ Refused.Memory → verdict_at (at self.old.phasers phaser) event.now ≡ Err r) }
        ensures there { IfErr result (λ _. is_some (at self.new.phasers phaser) ≡ is_some (at self.old.phasers phaser)) }
        ensures memory { result ≡ Err Refused.Memory → at self.new.phasers phaser ≡ at self.old.phasers phaser }
        ensures waited { result ≡ Err Refused.HadToWait → at self.new.phasers phaser ≡ at self.old.phasers phaser }
    {
        match *event {
            Named::Make(task, mode, ops, bound) => self.make(alloc, phaser, task, mode, ops, bound),
            _ => self.go_on(phaser, event),
        }
    }

    /// Says for whom the event had to wait, if it did for any.
    fn owing_to(&self, phaser: u64, event: &Named, owing: &mut Owing) -> Result<(), Refused>
        ensures owing { IfOk result (λ _. IsOwingTo (at self.now.phasers phaser) event.now owing.new) }
        ensures memory { IfErr result (λ r. r ≡ Refused.Memory) }
    {
        owing.tasks.clear();
        let Some(judged) = self.phasers.get(&phaser) else {
            return Ok(());
        };
        let told = match *event {
            Named::Pass(task) | Named::Claim(task) => judged.owing_to(task, owing),
            _ => Ok(()),
        };
        told.map_err(|_| Refused::Memory)
    }

    /// The same as `event`. If the event had to wait, `owing` then says for whom, if for any.
    pub(crate) fn event_with_owing(
        &mut self,
        alloc: Global,
        phaser: u64,
        event: &Named,
        owing: &mut Owing,
    ) -> Result<(), Refused>
        ensures accepted { IfOk result (λ _. may_come (at self.old.phasers phaser) event.now ≡ true) }
        ensures refused { IfErr result (λ r. r ≢ Refused.Memory → may_come (at self.old.phasers phaser) event.now ≡ false) }
        ensures own { IfOk result (λ _. at self.new.phasers phaser ≡ stands_after (at self.old.phasers phaser) event.now) }
        ensures others { (q : ℕ) → q ≢ phaser → at self.new.phasers q ≡ at self.old.phasers q }
        ensures reason { IfErr result (λ r. r ≢ Refused.Memory → verdict_at (at self.old.phasers phaser) event.now ≡ Err r) }
        ensures there { IfErr result (λ _. is_some (at self.new.phasers phaser) ≡ is_some (at self.old.phasers phaser)) }
        ensures memory { result ≡ Err Refused.Memory → at self.new.phasers phaser ≡ at self.old.phasers phaser }
        ensures owing { result ≡ Err Refused.HadToWait → IsOwingTo (at self.old.phasers phaser) event.now owing.new }
    {
        let answer = self.event(alloc, phaser, event);
        if let Err(Refused::HadToWait) = answer {
            self.owing_to(phaser, event, owing)?;
        }
        answer
    }

    /// The first phase that none of the phaser's tasks has passed, if it is there.
    pub(crate) fn phase(&self, phaser: u64) -> Option<Phase>
        ensures { result ≡ option_map (λ s. first_phase s.story.past s.names) (at self.now.phasers phaser) }
    {
        match self.phasers.get(&phaser) {
            Some(judged) => Some(judged.phase()),
            None => None,
        }
    }

    /// How many are there.
    pub(crate) fn len(&self) -> usize
        ensures { AreThere (at self.now.phasers) result }
    {
        // Their numbers are the keys.
        let _ = self.phasers.keys();
        self.phasers.len()
    }
}
