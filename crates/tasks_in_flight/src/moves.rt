//! What becomes of a task in flight by the events that it makes: each changes what it knows of itself and
//! what its body is about to hear, and is noted here and nowhere else.
ghost use Rattle.std.specs.Prelude.{◌≡◌, ◌==◌, ◌<◌, ◌∷◌, ◌++◌, [], drop, ℕ, ℤ, not, false, true, None, Some, filter, length, map, IfErr, OnOk, OnErr};
ghost use Rattle.finish_core.specs.declared.event.FinishEvent.TheVariants.{Spawned};
ghost use Rattle.phase_model.specs.declared.history.Event.TheVariants.{Sig, Pass};
ghost use Rattle.phase_model.specs.declared.terms.Terms.{Terms};
ghost use Rattle.phase_modes.specs.Refusal.{number_of};
ghost use Rattle.world_model.specs.declared.event.Step.TheVariants as steps;
ghost use Rattle.world_model.specs.declared.event.WorldEvent.TheVariants.{Phaser, Finish};
ghost use Rattle.long_locks.specs.Told.{HasLooked};
ghost use Rattle.told_history.specs.Stories.{GoesOn};
ghost use Rattle.table_receipts.specs.Seen.{story_at};
ghost use Rattle.task_standing.specs.Noted.{plan_of};
ghost use Rattle.task_standing.specs.Standing.{acted, begun, inner_of, marked, passed_by, registered_by, shut_by};
ghost use Rattle.tasks_in_flight.specs.Heard.{make, send, look, opens, HasMade, HasSent, IsOwn};
ghost use Rattle.tasks_in_flight.specs.Noted.{IsNoted};
ghost use Rattle.tasks_in_flight.specs.inner.Ready.{HasAskedFor, HasJustDone, HasJustPassed, IsDue, is_of_each, seen_by};

use crate::begun::answer_to;
use crate::body::Body;
use crate::naming::RunNaming;
use crate::task::Task;
use job_script::Answer;
use phase_model::Look;
use phase_modes::{Mode, Refusal};
use std::alloc::AllocError;
use table_receipts::Front;
use task_standing::{Held, Plan};
use trace_model::TracedEvent;
use world_model::{Begun, Tried};

impl<B: Body, K: RunNaming> Task<B, K> {
    /// It made this phaser, of which its body hears.
    pub fn made(&mut self, phaser: u32, mode: Mode, seen: Front<K>) -> Result<(), Refusal>
        requires phaser { phaser < K.Logs.limits.phasers }
        requires log { seen.log ≡ K.Logs.logs phaser }
        requires more { GoesOn (story_at self.old.fronts phaser) seen.story }
        requires asked { (terms : Terms) × HasMade self.old.log.task mode terms seen.story
            × ∥ (K.Supposing.supposed → B.Body.shows self.old.body self.old.log.task (make mode terms) (seen_by self.old.fronts self.old.standing self.old.log.log)) ∥₁ }
        ensures made { OnOk result (self.new.standing ≡ record (acted self.old.standing) {
          holding = self.old.standing.holding
              ++ record { phaser = phaser; finish = inner_of self.old.standing; mode = mode; ahead = false } ∷ [];
        }) }
    {
        // No clause says that a phaser's number isn't one of those that it holds.
        if self.standing.held(phaser).is_some() {
            return Err(Refusal::NotExplained(0));
        }
        if let Err(refusal) = self.standing.note_making(phaser, mode) {
            return Err(refusal);
        }
        self.fronts.set(phaser as usize, seen);
        self.answer = Some(Answer::Made(phaser));
        Ok(())
    }

    /// It sent a value to this phaser, of which its body hears.
    pub fn sent(&mut self, phaser: u32, seen: Front<K>)
        requires phaser { phaser < K.Logs.limits.phasers }
        requires log { seen.log ≡ K.Logs.logs phaser }
        requires more { GoesOn (story_at self.old.fronts phaser) seen.story }
        requires asked { (a : ℕ) × (v : ℤ) × HasSent self.old.log.task a v (story_at self.old.fronts phaser) seen.story
            × ∥ (K.Supposing.supposed → B.Body.shows self.old.body self.old.log.task (send phaser a v) (seen_by self.old.fronts self.old.standing self.old.log.log)) ∥₁ }
        ensures acted { self.new.standing ≡ acted self.old.standing }
    {
        self.fronts.set(phaser as usize, seen);
        self.standing.note_act();
        self.answer = Some(Answer::Done);
    }

    /// It looked at this phaser, and its body hears what it saw.
    pub fn looked(&mut self, phaser: u32, seen: Front<K>, saw: Look)
        requires phaser { phaser < K.Logs.limits.phasers }
        requires log { seen.log ≡ K.Logs.logs phaser }
        requires more { GoesOn (story_at self.old.fronts phaser) seen.story }
        requires asked { (a : ℕ) × HasLooked seen.story.terms.ops self.old.log.task a seen.story.past saw
            × ∥ (K.Supposing.supposed → B.Body.shows self.old.body self.old.log.task (look phaser a) (seen_by self.old.fronts self.old.standing self.old.log.log)) ∥₁ }
        ensures acted { self.new.standing ≡ acted self.old.standing }
    {
        self.fronts.set(phaser as usize, seen);
        self.standing.note_act();
        self.answer = Some(Answer::Saw(saw));
    }

    /// Takes the memory to open one finish more. Nothing else changes.
    pub fn reserve_opening(&mut self) -> Result<(), AllocError>
        ensures body { self.new.body ≡ self.old.body }
        ensures task { self.new.log.task ≡ self.old.log.task }
        ensures fronts { self.new.fronts ≡ self.old.fronts }
        ensures standing { self.new.standing ≡ self.old.standing }
        ensures answer { self.new.answer ≡ self.old.answer }
        ensures log { self.new.log ≡ self.old.log }
    {
        self.standing.reserve_opening()
    }

    /// It opened this finish. `Memory` if there is none to know that.
    pub fn opened(&mut self, finish: u32) -> Result<(), Refusal>
        requires asked { ∥ (K.Supposing.supposed → B.Body.shows self.old.body self.old.log.task opens (seen_by self.old.fronts self.old.standing self.old.log.log)) ∥₁ }
        ensures opened { OnOk result (self.new.standing ≡ record (acted self.old.standing) { finishes = finish ∷ self.old.standing.finishes }) }
        ensures memory { IfErr result (λ e. e ≡ Refusal.Memory) }
    {
        if let Err(refusal) = self.standing.note_opening(finish) {
            return Err(refusal);
        }
        self.answer = Some(Answer::Done);
        Ok(())
    }

    /// It begins this act, and logs that. Once the act has ended the body hears of it, if it
    /// hears anything more. `ActsFull` if the log has no room.
    pub fn begin(&mut self, ticket: u64, act: Begun) -> Result<(), Refusal>
        requires asked { ∥ (K.Supposing.supposed → HasAskedFor B.Body.shows self.old.body self.old.log.task act (seen_by self.old.fronts self.old.standing self.old.log.log)) ∥₁ }
        ensures begun { OnOk result (self.new.standing ≡ begun (plan_of act) self.old.standing) }
        ensures noted { IsNoted (ticket, TracedEvent.Begin self.old.log.task act) self.old.log.log self.new.log.log result }
    {
        if let Err(full) = self.log.note_begun(ticket, act) {
            return Err(full);
        }
        self.standing.begin(Plan::of(&act));
        self.answer = answer_to(&act);
        Ok(())
    }

    /// This act is refused, which it logs, and it ends. `ActsFull` if the log has no room.
    pub fn refuse(&mut self, ticket: u64, tried: Tried, refusal: Refusal) -> Result<(), Refusal>
        ensures given_up { OnOk result (self.new.standing ≡ record self.old.standing { plan = Plan.Ending }) }
        ensures noted { IsNoted (ticket, TracedEvent.Refuse self.old.log.task tried (number_of refusal)) self.old.log.log self.new.log.log result }
    {
        if let Err(full) = self.log.note_refused(ticket, tried, refusal) {
            return Err(full);
        }
        self.standing.give_up();
        Ok(())
    }

    /// It gives up what it is about, which it logs, and ends. `ActsFull` if the log has no
    /// room.
    pub fn fail(&mut self, ticket: u64, refusal: Refusal) -> Result<(), Refusal>
        ensures given_up { OnOk result (self.new.standing ≡ record self.old.standing { plan = Plan.Ending }) }
        ensures noted { IsNoted (ticket, TracedEvent.Fail self.old.log.task (number_of refusal)) self.old.log.log self.new.log.log result }
    {
        if let Err(full) = self.log.note_failed(ticket, refusal) {
            return Err(full);
        }
        self.standing.give_up();
        Ok(())
    }

    /// Whether its body is about to hear of what comes phaser by phaser.
    fn hears_of_each(&self) -> bool
        ensures { result ≡ is_of_each self.now.answer }
    {
        matches!(self.answer, Some(Answer::Done | Answer::Spawned(_)))
    }

    /// It registered a child on this phaser, and has seen so much of that, up to then.
    pub fn registered(&mut self, phaser: u32, seen: Front<K>)
        requires phaser { phaser < K.Logs.limits.phasers }
        requires log { seen.log ≡ K.Logs.logs phaser }
        requires more { GoesOn (story_at self.old.fronts phaser) seen.story }
        requires own { IsOwn self.old.log.task seen.story.past }
        ensures standing { self.new.standing ≡ self.old.standing }
    {
        if self.hears_of_each() {
            self.fronts.set(phaser as usize, seen);
        }
    }

    /// It signalled this phaser, as was due, and has seen so much of that, up to its signal.
    pub fn signalled(&mut self, phaser: u32, proposed: Option<u32>, seen: Front<K>)
        requires due { IsDue (Some (Phaser phaser (steps.Sig self.old.standing.number proposed))) self.old.standing }
        requires phaser { phaser < K.Logs.limits.phasers }
        requires log { seen.log ≡ K.Logs.logs phaser }
        requires more { GoesOn (story_at self.old.fronts phaser) seen.story }
        requires own { HasJustDone (Sig self.old.log.task proposed) (story_at self.old.fronts phaser) seen.story }
        ensures signalled { self.new.standing ≡ record self.old.standing { holding = map (marked phaser true) self.old.standing.holding } }
    {
        self.fronts.set(phaser as usize, seen);
        self.standing.note_signal(phaser);
    }

    /// It passed a phase of this phaser, as was due, and has seen so much of that, up to its pass.
    pub fn passed(&mut self, phaser: u32, seen: Front<K>)
        requires due { IsDue (Some (Phaser phaser (steps.Pass self.old.standing.number))) self.old.standing }
        requires phaser { phaser < K.Logs.limits.phasers }
        requires log { seen.log ≡ K.Logs.logs phaser }
        requires more { GoesOn (story_at self.old.fronts phaser) seen.story }
        requires own { HasJustPassed self.old.log.task (story_at self.old.fronts phaser) seen.story }
        ensures passed { self.new.standing ≡ record self.old.standing {
          plan = passed_by self.old.standing.plan;
          holding = map (marked phaser false) self.old.standing.holding;
        } }
    {
        self.fronts.set(phaser as usize, seen);
        self.standing.note_pass(phaser);
    }

    /// Its child is registered for the next pair.
    pub(crate) fn note_registration(&mut self)
        ensures standing { self.new.standing ≡ record self.old.standing { plan = registered_by self.old.standing.plan } }
        ensures answer { self.new.answer ≡ self.old.answer }
    {
        self.standing.note_registration();
    }

    /// It is handed this phaser, before it is born. `PhasersFull` if it holds 16, and then it stays as it
    /// was.
    pub(crate) fn join(&mut self, held: Held) -> Result<(), Refusal>
        requires newborn { ∥ self.old.answer ≡ Some Answer.Started ∥₁ }
        ensures joined { OnOk result (self.new.standing ≡ record self.old.standing { holding = self.old.standing.holding ++ held ∷ [] }) }
        ensures full { OnErr result ((length self.old.standing.holding ≡ 16) × (self.new.standing ≡ self.old.standing)) }
        ensures refused { IfErr result (λ e. e ≡ Refusal.PhasersFull) }
        ensures answer { self.new.answer ≡ self.old.answer }
    {
        self.standing.join(held)
    }

    /// It is taken off this phaser, before it is born.
    pub(crate) fn part(&mut self, phaser: u32)
        requires newborn { ∥ self.old.answer ≡ Some Answer.Started ∥₁ }
        ensures standing { self.new.standing ≡ record self.old.standing {
          holding = filter (λ h. not (h.phaser == phaser)) self.old.standing.holding;
        } }
        ensures answer { self.new.answer ≡ self.old.answer }
    {
        self.standing.leave(phaser);
    }

    /// Its child is born, as was due.
    pub fn bore(&mut self)
        requires due { (f c : ℕ) × IsDue (Some (Finish f (Spawned c))) self.old.standing }
        ensures { self.new.standing ≡ record self.old.standing { plan = Plan.Idle } }
    {
        self.standing.note_birth();
    }

    /// It shut its innermost finish.
    pub fn shut(&mut self)
        ensures { self.new.standing ≡ record self.old.standing {
          plan = shut_by self.old.standing.plan;
          finishes = drop 1 self.old.standing.finishes;
        } }
    {
        self.standing.note_shut();
    }

    /// It left this phaser, as was due.
    pub fn left(&mut self, phaser: u32)
        requires due { IsDue (Some (Phaser phaser (steps.Drop self.old.standing.number))) self.old.standing }
        ensures { self.new.standing ≡ record self.old.standing {
          holding = filter (λ h. not (h.phaser == phaser)) self.old.standing.holding;
        } }
    {
        self.standing.leave(phaser);
    }
}
