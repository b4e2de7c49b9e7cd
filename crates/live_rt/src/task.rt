//! A task in flight: its body, what it knows of itself, and what it has seen of the phasers that it holds.
ghost use Rattle.std.specs.Prelude.{◌≡◌, [], true, None, Some, IfOk, IfErr, IfSome, OnOk, OnErr, option_map};
ghost use Rattle.job_script.specs.declared.act.Answer.TheVariants.{Started};
ghost use Rattle.task_standing.specs.Standing.{fresh, registered_by};
ghost use Rattle.tasks_in_flight.specs.inner.Due.{IsNext};
ghost use Rattle.tasks_in_flight.specs.inner.Ready.{IsDue};
ghost use Rattle.live_rt.specs.Said.{HasAskedForEnd, HasSaid};
ghost use Rattle.told_history.specs.Stories.{GoesOn};
ghost use Rattle.live_rt.specs.inner.Places.{spot, story_of, in_slot};
ghost use Rattle.live_rt.specs.inner.Says.{IsAbout, IsUnborn, HasStepped};

use crate::names::Names;
use crate::places::{Place, Places};
use job_script::{Act, Answer};
use phase_modes::{FinishNumber, Pair, Refusal, TaskNumber};
use std::alloc::Global;
use std::marker::PhantomData;
use task_standing::{Due, Standing};
use tasks_in_flight::Body;

/// A task in flight.
#[derive(Drop)]
pub(crate) struct Task<B: Body, J: Names> {
    pub(crate) body: B,
    /// What the body hears before its next act; nothing until something came of its last one.
    pub(crate) answer: Option<Answer>,
    /// Which phasers it holds, by their slots, which finishes it has open, and what it is about.
    pub(crate) standing: Standing,
    /// A place for each phaser that it holds.
    pub(crate) places: Places<J>,
    /// Whether its body has asked for its end: then it gives no act more.
    pub(crate) ends: bool,
    /// What it was refused, if it ends by that.
    pub(crate) refused: Option<Refusal>,
    ghost end: { ends ≡ true → ∥ (J.Supposing.supposed → HasAskedForEnd B.Body.shows body) ∥₁ },
    ghost about: { ∥ (J.Supposing.supposed → IsAbout B.Body.shows body answer places standing) ∥₁ },
}

/// What moves between the queue, the locks and the workers: a task, with the child that it is spawning,
/// which nobody else knows yet.
#[derive(Drop)]
pub(crate) struct Item<B: Body, J: Names> {
    pub(crate) task: Box<Task<B, J>>,
    pub(crate) unborn: Option<Box<Task<B, J>>>,
    ghost newborn: { ∥ IfSome unborn (λ c. c.value.answer ≡ Some Started) ∥₁ },
    ghost says: { ∥ (J.Supposing.supposed → IfSome unborn (λ c.
        IsUnborn B.Body.shows c.value.body c.value.standing.number c.value.places task.value.places)) ∥₁ },
}

/// What the root leaves: its body, and what it was refused if it ended by that.
#[derive(Drop)]
pub(crate) struct RootLeft<B: Body, J: Names> {
    pub(crate) body: B,
    pub(crate) refused: Option<Refusal>,
    pub(crate) of: PhantomData<J>,
    ghost says: { ∥ (J.Supposing.supposed → HasSaid B.Body.shows body 0) ∥₁ },
}

impl<B: Body, J: Names> Task<B, J> {
    /// A task before its first act. All memory that it needs to be run is taken here, but for the
    /// finishes that it opens; `Memory` if that is refused.
    pub(crate) fn new(
        alloc: Global,
        number: TaskNumber,
        body: B,
        home: FinishNumber,
    ) -> Result<Box<Task<B, J>>, Refusal>
        requires says { ∥ (J.Supposing.supposed → IsUnborn B.Body.shows body number [] []) ∥₁ }
        ensures body { IfOk result (λ t. t.value.body ≡ body) }
        ensures answer { IfOk result (λ t. t.value.answer ≡ Some Answer.Started) }
        ensures standing { IfOk result (λ t. t.value.standing ≡ fresh number home) }
        ensures places { IfOk result (λ t. t.value.places ≡ []) }
        ensures memory { IfErr result (λ e. e ≡ Refusal.Memory) }
    {
        let task = Task {
            body,
            answer: Some(Answer::Started),
            standing: Standing::new(alloc, number, home)?,
            places: Places::new(alloc)?,
            ends: false,
            refused: None,
        };
        match Box::new(alloc, task) {
            Ok(task) => Ok(task),
            Err(_) => Err(Refusal::Memory),
        }
    }

    /// A copy of the place of this phaser, if the task holds it.
    pub(crate) fn place(&mut self, phaser: u32) -> Option<Place<J>>
        ensures found { option_map (λ p. spot p.at p.me p.seen.items) result ≡ in_slot phaser self.old.places }
        ensures body { self.new.body ≡ self.old.body }
        ensures answer { self.new.answer ≡ self.old.answer }
        ensures standing { self.new.standing ≡ self.old.standing }
        ensures places { self.new.places ≡ self.old.places }
    {
        self.places.get(phaser)
    }

    /// The body's next act, after what came of its last one; none if nothing did yet, or nothing will.
    #[inline(never)]
    pub(crate) fn next_act(&mut self) -> Option<Result<Act<B>, Refusal>>
        requires due { IsDue None self.old.standing }
        ensures standing { self.new.standing ≡ self.old.standing }
        ensures places { self.new.places ≡ self.old.places }
        ensures stepped { IfSome result (λ act. ∥ (J.Supposing.supposed
            → HasStepped B.Body.shows self.new.body act self.new.places self.new.standing) ∥₁) }
    {
        // No clause says that a task whose body has asked for its end isn't due to be stepped.
        if self.ends {
            return None;
        }
        let Some(answer) = self.answer else {
            return None;
        };
        self.answer = None;
        Some(self.body.step(answer))
    }

    /// Runs the statement that the task has claimed.
    pub(crate) fn run_single(&mut self, number: u32)
        ensures ran { B.Body.ran self.old.body number self.new.body }
        ensures answer { self.new.answer ≡ self.old.answer }
        ensures standing { self.new.standing ≡ self.old.standing }
        ensures places { self.new.places ≡ self.old.places }
    {
        self.body.single(number);
    }
}

impl<B: Body, J: Names> Item<B, J> {
    /// A task that is spawning nobody.
    pub(crate) fn of(task: Box<Task<B, J>>) -> Item<B, J>
        ensures task { result.task ≡ task }
        ensures unborn { result.unborn ≡ None }
    {
        Item { task, unborn: None }
    }

    /// The event that comes next.
    pub(crate) fn due(&self) -> Due
        ensures { IsNext result self.now.task.value.standing (option_map (λ c. c.value.standing) self.now.unborn) }
    {
        match &self.unborn {
            Some(child) => self.task.standing.due_with(&child.standing),
            None => self.task.standing.due(),
        }
    }

    /// The unborn child is registered on the phaser of this pair, where it has this place. `NotNow` if there
    /// is no child, or the task doesn't hold that phaser; `PhasersFull` or `Memory` if the child can hold
    /// no more.
    pub(crate) fn note_registration(&mut self, pair: Pair, place: Place<J>) -> Result<(), Refusal>
        requires further { (old : _) × (in_slot place.at.slot self.old.task.value.places ≡ Some old)
            × GoesOn (story_of old) (story_of (spot place.at place.me place.seen.items)) }
        ensures places { self.new.task.value.places ≡ self.old.task.value.places }
        ensures registered { OnOk result (self.new.task.value.standing
            ≡ record self.old.task.value.standing { plan = registered_by self.old.task.value.standing.plan }) }
        ensures refused { OnErr result (self.new.task.value.standing ≡ self.old.task.value.standing) }
    {
        let Some(held) = self.task.standing.held(pair.phaser) else {
            return Err(Refusal::NotNow);
        };
        let Some(child) = &mut self.unborn else {
            return Err(Refusal::NotNow);
        };
        place.seen.is_legal();
        child.join(held.handed(pair.mode), place)?;
        self.task.note_registration();
        Ok(())
    }

    /// Notes that the unborn child has left this phaser.
    pub(crate) fn note_child_gone(&mut self, phaser: u32)
        ensures task { self.new.task ≡ self.old.task }
    {
        if let Some(child) = &mut self.unborn {
            child.part(phaser);
        }
    }
}
