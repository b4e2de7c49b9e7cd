//! What becomes of a task in flight by the events that it makes: each changes what it knows of itself, what
//! it has seen, and what its body is about to hear.
ghost use Rattle.std.specs.Prelude.{◌≡◌, ◌↔◌, ◌==◌, ◌⊎◌, ℕ, ℤ, [], ◌∷◌, ◌++◌, drop, false, true, not, filter, map, Some, None, IfErr, OnOk, OnErr};
ghost use Rattle.finish_core.specs.declared.event.FinishEvent.TheVariants.{Spawned};
ghost use Rattle.phase_model.specs.declared.history.Event.TheVariants.{Sig};
ghost use Rattle.phase_model.specs.declared.terms.Terms.{Terms};
ghost use Rattle.world_model.specs.declared.event.Step.TheVariants as steps;
ghost use Rattle.world_model.specs.declared.event.WorldEvent.TheVariants.{Phaser, Finish};
ghost use Rattle.long_locks.specs.Told.{HasLooked};
ghost use Rattle.task_standing.specs.Noted.{plan_of};
ghost use Rattle.task_standing.specs.Standing.{acted, begun, inner_of, marked, passed_by, registered_by, shut_by};
ghost use Rattle.tasks_in_flight.specs.Heard.{make, send, look, opens, HasMade, HasSent, IsOwn};
ghost use Rattle.tasks_in_flight.specs.inner.Ready.{HasJustDone, HasJustPassed, IsDue, answer_of, is_of_each};
ghost use Rattle.live_rt.specs.inner.Places.{Spot, spot, in_slot, story_of, IsFurther, HaveGoneOn};
ghost use Rattle.live_rt.specs.inner.Says.{Asks, AsksFor, IsUnborn};

use crate::names::Names;
use crate::places::Place;
use crate::task::Task;
use job_script::Answer;
use phase_model::Look;
use phase_modes::{Mode, Refusal};
use std::alloc::AllocError;
use task_standing::{Held, Plan};
use tasks_in_flight::{Body, answer_to};
use world_model::Begun;

/// Whether by this act a task comes to its end.
fn is_end(act: &Begun) -> bool
    ensures { (result ≡ true) ↔ (act.now ≡ Begun.End) }
{
    matches!(act, Begun::End)
}

impl<B: Body, J: Names> Task<B, J> {
    /// It made a phaser, of which its body hears. `Memory` or `PhasersFull` if it can hold no more;
    /// `NotExplained(0)` if it holds one in that slot.
    pub(crate) fn made(&mut self, place: Place<J>, mode: Mode) -> Result<(), Refusal>
        requires asked { (terms : Terms) × HasMade place.me mode terms (story_of (spot place.at place.me place.seen.items))
            × ∥ (J.Supposing.supposed → Asks B.Body.shows self.old.body (make mode terms) self.old.places self.old.standing) ∥₁ }
        ensures made { OnOk result (self.new.standing ≡ record (acted self.old.standing) {
          holding = self.old.standing.holding
              ++ record { phaser = place.at.slot; finish = inner_of self.old.standing; mode = mode; ahead = false } ∷ [];
        }) }
        ensures answer { OnOk result (self.new.answer ≡ Some (Answer.Made place.at.slot)) }
        ensures stays { OnErr result (self.new.standing ≡ self.old.standing) }
    {
        let phaser = place.at.slot;
        // No clause says that a slot which is free isn't that of a phaser that the task holds.
        if self.standing.held(phaser).is_some() {
            return Err(Refusal::NotExplained(0));
        }
        place.seen.is_legal();
        self.places.add(place)?;
        if let Err(refusal) = self.standing.note_making(phaser, mode) {
            self.places.remove(phaser);
            return Err(refusal);
        }
        self.answer = Some(Answer::Made(phaser));
        Ok(())
    }

    /// It sent a value to this phaser, of which its body hears.
    pub(crate) fn sent(&mut self, place: Place<J>)
        requires further { IsFurther (spot place.at place.me place.seen.items) self.old.places }
        requires asked { (a : ℕ) × (v : ℤ) × (old : Spot) × (in_slot place.at.slot self.old.places ≡ Some old)
            × HasSent place.me a v (story_of old) (story_of (spot place.at place.me place.seen.items))
            × ∥ (J.Supposing.supposed → Asks B.Body.shows self.old.body (send place.at.slot a v) self.old.places self.old.standing) ∥₁ }
        ensures acted { self.new.standing ≡ acted self.old.standing }
        ensures answer { self.new.answer ≡ Some Answer.Done }
    {
        place.seen.is_legal();
        self.places.set(place);
        self.standing.note_act();
        self.answer = Some(Answer::Done);
    }

    /// It looked at this phaser, and its body hears what it saw.
    pub(crate) fn looked(&mut self, place: Place<J>, saw: Look)
        requires further { IsFurther (spot place.at place.me place.seen.items) self.old.places }
        requires asked { (a : ℕ) × HasLooked (story_of (spot place.at place.me place.seen.items)).terms.ops place.me a
            (story_of (spot place.at place.me place.seen.items)).past saw
            × ∥ (J.Supposing.supposed → Asks B.Body.shows self.old.body (look place.at.slot a) self.old.places self.old.standing) ∥₁ }
        ensures acted { self.new.standing ≡ acted self.old.standing }
        ensures answer { self.new.answer ≡ Some (Answer.Saw saw) }
    {
        place.seen.is_legal();
        self.places.set(place);
        self.standing.note_act();
        self.answer = Some(Answer::Saw(saw));
    }

    /// Takes the memory to open one finish more. Nothing else changes.
    pub(crate) fn reserve_opening(&mut self) -> Result<(), AllocError>
        ensures body { self.new.body ≡ self.old.body }
        ensures answer { self.new.answer ≡ self.old.answer }
        ensures standing { self.new.standing ≡ self.old.standing }
        ensures places { self.new.places ≡ self.old.places }
    {
        self.standing.reserve_opening()
    }

    /// It opened this finish, of which its body hears. `Memory` if there is none to know that.
    pub(crate) fn opened(&mut self, finish: u32) -> Result<(), Refusal>
        requires asked { ∥ (J.Supposing.supposed → Asks B.Body.shows self.old.body opens self.old.places self.old.standing) ∥₁ }
        ensures opened { OnOk result (self.new.standing ≡ record (acted self.old.standing) { finishes = finish ∷ self.old.standing.finishes }) }
        ensures answer { OnOk result (self.new.answer ≡ Some Answer.Done) }
        ensures memory { IfErr result (λ e. e ≡ Refusal.Memory) }
    {
        self.standing.note_opening(finish)?;
        self.answer = Some(Answer::Done);
        Ok(())
    }

    /// It begins this act. Once the act has ended the body hears of it, if it hears anything more.
    pub(crate) fn begin(&mut self, act: &Begun)
        requires asked { ∥ (J.Supposing.supposed → AsksFor B.Body.shows self.old.body act.now self.old.places self.old.standing) ∥₁ }
        ensures places { self.new.places ≡ self.old.places }
        ensures begun { self.new.standing ≡ begun (plan_of act.now) self.old.standing }
        ensures answer { self.new.answer ≡ answer_of act.now }
    {
        self.ends = is_end(act);
        self.standing.begin(Plan::of(act));
        self.answer = answer_to(act);
    }

    /// It ends by this refusal.
    pub(crate) fn give_up(&mut self, refusal: Refusal)
        ensures body { self.new.body ≡ self.old.body }
        ensures places { self.new.places ≡ self.old.places }
        ensures given_up { self.new.standing ≡ record self.old.standing { plan = Plan.Ending } }
        ensures refused { self.new.refused ≡ Some refusal }
    {
        self.refused = Some(refusal);
        self.standing.give_up();
    }

    /// Whether its body is about to hear of what comes phaser by phaser.
    fn hears_of_each(&self) -> bool
        ensures { result ≡ is_of_each self.now.answer }
    {
        matches!(self.answer, Some(Answer::Done | Answer::Spawned(_)))
    }

    /// It registered a child on this phaser, and has seen so much of that, up to then.
    pub(crate) fn registered(&mut self, place: Place<J>)
        requires further { IsFurther (spot place.at place.me place.seen.items) self.old.places }
        requires own { IsOwn place.me (story_of (spot place.at place.me place.seen.items)).past }
        ensures standing { self.new.standing ≡ self.old.standing }
        ensures goes { HaveGoneOn self.old.places self.new.places }
    {
        if self.hears_of_each() {
            place.seen.is_legal();
            self.places.set(place);
        }
    }

    /// It signalled this phaser, as was due, and has seen so much of that, up to its signal.
    pub(crate) fn signalled(&mut self, place: Place<J>, proposed: Option<u32>)
        requires due { IsDue (Some (Phaser place.at.slot (steps.Sig self.old.standing.number proposed))) self.old.standing }
        requires further { IsFurther (spot place.at place.me place.seen.items) self.old.places }
        requires own { (old : Spot) × (in_slot place.at.slot self.old.places ≡ Some old)
            × HasJustDone (Sig place.me proposed) (story_of old) (story_of (spot place.at place.me place.seen.items)) }
        ensures goes { HaveGoneOn self.old.places self.new.places }
        ensures signalled { self.new.standing ≡ record self.old.standing { holding = map (marked place.at.slot true) self.old.standing.holding } }
    {
        let phaser = place.at.slot;
        place.seen.is_legal();
        self.places.set(place);
        self.standing.note_signal(phaser);
    }

    /// It passed a phase of this phaser, as was due, and has seen so much of that, up to its pass.
    pub(crate) fn passed(&mut self, place: Place<J>)
        requires due { IsDue (Some (Phaser place.at.slot (steps.Pass self.old.standing.number))) self.old.standing }
        requires further { IsFurther (spot place.at place.me place.seen.items) self.old.places }
        requires own { (old : Spot) × (in_slot place.at.slot self.old.places ≡ Some old)
            × HasJustPassed place.me (story_of old) (story_of (spot place.at place.me place.seen.items)) }
        ensures goes { HaveGoneOn self.old.places self.new.places }
        ensures passed { self.new.standing ≡ record self.old.standing {
          plan = passed_by self.old.standing.plan;
          holding = map (marked place.at.slot false) self.old.standing.holding;
        } }
    {
        let phaser = place.at.slot;
        place.seen.is_legal();
        self.places.set(place);
        self.standing.note_pass(phaser);
    }

    /// Its child is registered for the next pair.
    pub(crate) fn note_registration(&mut self)
        ensures answer { self.new.answer ≡ self.old.answer }
        ensures places { self.new.places ≡ self.old.places }
        ensures standing { self.new.standing ≡ record self.old.standing { plan = registered_by self.old.standing.plan } }
    {
        self.standing.note_registration();
    }

    /// It is handed this phaser, before it is born. `PhasersFull` if it holds 16; `Memory` if there is
    /// none for its place.
    pub(crate) fn join(&mut self, held: Held, place: Place<J>) -> Result<(), Refusal>
        requires newborn { ∥ self.old.answer ≡ Some Answer.Started ∥₁ }
        requires unborn { ∥ (J.Supposing.supposed → IsUnborn B.Body.shows self.old.body self.old.standing.number self.old.places
            (spot place.at place.me place.seen.items ∷ [])) ∥₁ }
        ensures answer { self.new.answer ≡ self.old.answer }
        ensures body { self.new.body ≡ self.old.body }
        ensures number { self.new.standing.number ≡ self.old.standing.number }
        ensures here { (in_slot place.at.slot self.new.places ≡ Some (spot place.at place.me place.seen.items))
            ⊎ (self.new.places ≡ self.old.places) }
        ensures others { (n : ℕ) → n == place.at.slot ≡ false → in_slot n self.new.places ≡ in_slot n self.old.places }
        ensures joined { OnOk result (self.new.standing ≡ record self.old.standing { holding = self.old.standing.holding ++ held ∷ [] }) }
    {
        place.seen.is_legal();
        self.places.add(place)?;
        self.standing.join(held)
    }

    /// It is taken off this phaser, before it is born.
    pub(crate) fn part(&mut self, phaser: u32)
        requires newborn { ∥ self.old.answer ≡ Some Answer.Started ∥₁ }
        ensures answer { self.new.answer ≡ self.old.answer }
        ensures body { self.new.body ≡ self.old.body }
        ensures number { self.new.standing.number ≡ self.old.standing.number }
        ensures gone { in_slot phaser self.new.places ≡ None }
        ensures others { (n : ℕ) → n == phaser ≡ false → in_slot n self.new.places ≡ in_slot n self.old.places }
        ensures standing { self.new.standing ≡ record self.old.standing {
          holding = filter (λ h. not (h.phaser == phaser)) self.old.standing.holding;
        } }
    {
        self.places.remove(phaser);
        self.standing.leave(phaser);
    }

    /// Its child is born, as was due.
    pub(crate) fn bore(&mut self)
        requires due { (f c : ℕ) × IsDue (Some (Finish f (Spawned c))) self.old.standing }
        ensures { self.new.standing ≡ record self.old.standing { plan = Plan.Idle } }
    {
        self.standing.note_birth();
    }

    /// It shut its innermost finish.
    pub(crate) fn shut(&mut self)
        ensures places { self.new.places ≡ self.old.places }
        ensures shut { self.new.standing ≡ record self.old.standing {
          plan = shut_by self.old.standing.plan;
          finishes = drop 1 self.old.standing.finishes;
        } }
    {
        self.standing.note_shut();
    }

    /// It left this phaser, as was due.
    pub(crate) fn left(&mut self, phaser: u32)
        requires due { IsDue (Some (Phaser phaser (steps.Drop self.old.standing.number))) self.old.standing }
        ensures goes { HaveGoneOn self.old.places self.new.places }
        ensures left { self.new.standing ≡ record self.old.standing {
          holding = filter (λ h. not (h.phaser == phaser)) self.old.standing.holding;
        } }
    {
        self.places.remove(phaser);
        self.standing.leave(phaser);
    }
}
