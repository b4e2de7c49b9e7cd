//! A task in flight: its body, what it knows of itself, what it has seen, and what it notes.
ghost use Rattle.std.specs.Prelude.{◌≡◌, ◌==◌, ◌<◌, ◌&&◌, if◌then◌else◌, [], ℕ, not, true, false, filter, find, is_some, None, Some, IfOk, IfErr, IfSome, OnOk, OnErr, length, option_map};
ghost use Rattle.job_script.specs.declared.act.Answer.TheVariants.{Started};
ghost use Rattle.table_receipts.specs.Seen.{story_at};
ghost use Rattle.tasks_in_flight.specs.Heard.{nothing, ends, at_start, asked_by, IsSpawned};
ghost use Rattle.task_standing.specs.Standing.{fresh, inner_of, registered_by};
ghost use Rattle.tasks_in_flight.specs.Noted.{joined};
ghost use Rattle.tasks_in_flight.specs.inner.Due.{IsNext};
ghost use Rattle.tasks_in_flight.specs.inner.Ready.{Says, IsReady, HasSaid, IsTold, IsDue, seen_by, seen_at_end};

use crate::body::Body;
use crate::diary::Diary;
use crate::naming::RunNaming;
use job_script::{Act, Answer};
use phase_modes::{FinishNumber, Pair, Refusal, TaskNumber};
use std::alloc::Global;
use table_receipts::{Front, Fronts};
use task_standing::{Due, Standing};

/// A task in flight.
#[derive(Drop)]
pub struct Task<B: Body, K: RunNaming> {
    pub body: B,
    /// What the body hears before its next act; nothing until something came of its last one.
    pub answer: Option<Answer>,
    /// What it has seen of the phasers.
    pub fronts: Fronts<K>,
    /// Which phasers it holds, which finishes it has open, and what it is about.
    pub standing: Standing,
    pub log: Diary,
    ghost own: { standing.number ≡ log.task },
    ghost all: { length fronts ≡ K.Logs.limits.phasers },
    ghost ready: { ∥ (K.Supposing.supposed → IsReady B.Body.shows None body log.task standing.plan answer (seen_by fronts standing log.log)) ∥₁ },
    ghost end: { log.ended ≡ true → ∥ (K.Supposing.supposed → Says B.Body.shows body log.task ends (seen_by fronts standing log.log)) ∥₁ },
}

/// What moves between the queue, the locks and the workers: a task, with the child that it is
/// spawning, which nobody else knows yet.
#[derive(Drop)]
pub struct Item<B: Body, K: RunNaming> {
    pub task: Box<Task<B, K>>,
    pub unborn: Option<Box<Task<B, K>>>,
    ghost newborn: { ∥ IfSome unborn (λ c. c.value.answer ≡ Some Started) ∥₁ },
}

/// What a task leaves when it ends: its log, and what it has seen. If it ends by itself, what its
/// body said of that stays told.
#[derive(Drop)]
pub struct TaskLeft<K: RunNaming> {
    pub log: Diary,
    pub fronts: Fronts<K>,
    ghost all: { length fronts ≡ K.Logs.limits.phasers },
    ghost told: { log.ended ≡ true → ∥ (K.Supposing.supposed → IsTold K.Supposing.told log.task (seen_at_end log.task fronts log.log)) ∥₁ },
}

/// What the root leaves when the run is over: what each task does, and its body as it stands then.
#[derive(Drop)]
pub struct RootLeft<B: Body, K: RunNaming> {
    pub left: TaskLeft<K>,
    pub body: B,
    ghost root: { left.log.task ≡ 0 },
    ghost says: { ∥ (K.Supposing.supposed → HasSaid B.Body.shows body 0 (seen_at_end 0 left.fronts left.log.log)) ∥₁ },
}

impl<B: Body, K: RunNaming> Task<B, K> {
    /// A task before its first act. All memory that it needs to be run is taken here, but for the
    /// finishes that it opens; `Memory` if that is refused.
    pub fn new(
        alloc: Global,
        number: TaskNumber,
        body: B,
        home: FinishNumber,
        acts: u32,
        fronts: Fronts<K>,
    ) -> Result<Box<Task<B, K>>, Refusal>
        requires all { length fronts ≡ K.Logs.limits.phasers }
        requires says { ∥ (K.Supposing.supposed → Says B.Body.shows body number nothing (at_start (λ n. number) (λ n. story_at fronts n))) ∥₁ }
        ensures body { IfOk result (λ t. t.value.body ≡ body) }
        ensures answer { IfOk result (λ t. t.value.answer ≡ Some Answer.Started) }
        ensures fronts { IfOk result (λ t. t.value.fronts ≡ fronts) }
        ensures standing { IfOk result (λ t. t.value.standing ≡ fresh number home) }
        ensures task { IfOk result (λ t. t.value.log.task ≡ number) }
        ensures log { IfOk result (λ t. t.value.log.log ≡ record { acts = acts; entries = [] }) }
        ensures memory { IfErr result (λ e. e ≡ Refusal.Memory) }
    {
        let log = Diary::new(alloc, number, acts)?;
        let task = Task {
            body,
            answer: Some(Answer::Started),
            fronts,
            standing: Standing::new(alloc, number, home)?,
            log,
        };
        match Box::new(alloc, task) {
            Ok(task) => Ok(task),
            Err(_) => Err(Refusal::Memory),
        }
    }

    /// Its child, which has seen what it has seen.
    pub fn child(
        &mut self,
        alloc: Global,
        number: TaskNumber,
        body: B,
        acts: u32,
    ) -> Result<Box<Task<B, K>>, Refusal>
        requires says { ∥ (K.Supposing.supposed → Says B.Body.shows body number nothing (at_start (λ n. number) (λ n. story_at self.old.fronts n))) ∥₁ }
        ensures body { self.new.body ≡ self.old.body }
        ensures task { self.new.log.task ≡ self.old.log.task }
        ensures fronts { self.new.fronts ≡ self.old.fronts }
        ensures standing { self.new.standing ≡ self.old.standing }
        ensures answer { self.new.answer ≡ self.old.answer }
        ensures log { self.new.log ≡ self.old.log }
        ensures child { IfOk result (λ c. (c.value.body ≡ body) × (c.value.answer ≡ Some Answer.Started)
            × (c.value.standing ≡ fresh number (inner_of self.old.standing))
            × (c.value.log.log ≡ record { acts = acts; entries = [] })) }
        ensures seen { IfOk result (λ c. (n : ℕ) → story_at c.value.fronts n ≡ story_at self.old.fronts n) }
        ensures memory { IfErr result (λ e. e ≡ Refusal.Memory) }
    {
        let fronts = self.fronts.again(alloc)?;
        let home = FinishNumber::of(self.standing.inner());
        Task::new(alloc, number, body, home, acts, fronts)
    }

    /// What it has seen of this phaser.
    pub fn front(&mut self, phaser: usize) -> Front<K>
        requires { phaser < K.Logs.limits.phasers }
        ensures log { result.log ≡ K.Logs.logs phaser }
        ensures story { result.story ≡ story_at self.old.fronts phaser }
        ensures body { self.new.body ≡ self.old.body }
        ensures task { self.new.log.task ≡ self.old.log.task }
        ensures fronts { self.new.fronts ≡ self.old.fronts }
        ensures standing { self.new.standing ≡ self.old.standing }
        ensures answer { self.new.answer ≡ self.old.answer }
        ensures log_kept { self.new.log ≡ self.old.log }
    {
        self.fronts.get(phaser)
    }

    /// Its number, by which its log stands in the trace.
    pub fn number(&self) -> u32
        ensures log { result ≡ self.now.log.task }
        ensures standing { result ≡ self.now.standing.number }
    {
        self.log.task()
    }

    /// Whether it has begun to end: then its body gives no act more.
    pub fn has_ended(&self) -> bool
        ensures { result ≡ self.now.log.ended }
    {
        self.log.has_ended()
    }

    /// The body's next act, after what came of its last one; none if nothing did yet.
    pub fn next_act(&mut self) -> Option<Result<Act<B>, Refusal>>
        requires goes_on { self.old.log.ended ≡ false }
        requires due { IsDue None self.old.standing }
        ensures heard { is_some result ≡ is_some self.old.answer }
        ensures waits { is_some result ≡ false → self.new.body ≡ self.old.body }
        ensures answer { self.new.answer ≡ None }
        ensures log { self.new.log ≡ self.old.log }
        ensures fronts { self.new.fronts ≡ self.old.fronts }
        ensures standing { self.new.standing ≡ self.old.standing }
        ensures says { IfSome result (λ act. ∥ (K.Supposing.supposed → B.Body.shows self.new.body self.new.log.task (asked_by act) (seen_by self.new.fronts self.new.standing self.new.log.log)) ∥₁) }
        ensures child { IfSome result (λ act. (child : B) (its : ℕ) → IsSpawned child act
            → ∥ (K.Supposing.supposed → (own : ℕ → ℕ) → B.Body.shows child its nothing (at_start own (λ n. story_at self.new.fronts n))) ∥₁) }
    {
        let Some(answer) = self.answer else {
            return None;
        };
        self.answer = None;
        Some(self.body.step(answer))
    }

    /// Runs the statement that the task has claimed.
    pub fn run_single(&mut self, number: u32)
        ensures ran { B.Body.ran self.old.body number self.new.body }
        ensures answer { self.new.answer ≡ self.old.answer }
        ensures fronts { self.new.fronts ≡ self.old.fronts }
        ensures log { self.new.log ≡ self.old.log }
        ensures standing { self.new.standing ≡ self.old.standing }
    {
        self.body.single(number);
    }
}

impl<B: Body, K: RunNaming> Item<B, K> {
    /// A task that is spawning nobody.
    pub fn of(task: Box<Task<B, K>>) -> Item<B, K>
        ensures task { result.task ≡ task }
        ensures unborn { result.unborn ≡ None }
    {
        Item { task, unborn: None }
    }

    /// The event that comes next.
    pub fn due(&self) -> Due
        ensures { IsNext result self.now.task.value.standing (option_map (λ c. c.value.standing) self.now.unborn) }
    {
        match &self.unborn {
            Some(child) => self.task.standing.due_with(&child.standing),
            None => self.task.standing.due(),
        }
    }

    /// Notes that the unborn child is registered on the phaser of this pair. `NotNow` if there is
    /// none, or the task doesn't hold that phaser; `PhasersFull` if the child holds 16 already.
    pub fn note_registration(&mut self, pair: Pair) -> Result<(), Refusal>
        ensures task { OnOk result (self.new.task.value.standing
            ≡ record self.old.task.value.standing { plan = registered_by self.old.task.value.standing.plan }) }
        ensures there { OnOk result ((is_some self.old.unborn ≡ true)
            × (is_some (find (λ h. h.phaser == pair.phaser) self.old.task.value.standing.holding) ≡ true)) }
        ensures child { OnOk result (option_map (λ c. c.value.standing) self.new.unborn
            ≡ option_map (λ c. joined pair self.old.task.value.standing c.value.standing) self.old.unborn) }
        ensures why { IfErr result (λ e. e
            ≡ (if is_some (find (λ h. h.phaser == pair.phaser) self.old.task.value.standing.holding) && is_some self.old.unborn
            then Refusal.PhasersFull else Refusal.NotNow)) }
        ensures full { IfErr result (λ e. e ≡ Refusal.PhasersFull
            → option_map (λ c. length c.value.standing.holding) self.old.unborn ≡ Some 16) }
        ensures refused { OnErr result ((self.new.task ≡ self.old.task)
            × (option_map (λ c. c.value.standing) self.new.unborn ≡ option_map (λ c. c.value.standing) self.old.unborn)) }
    {
        let Some(held) = self.task.standing.held(pair.phaser) else {
            return Err(Refusal::NotNow);
        };
        let Some(child) = &mut self.unborn else {
            return Err(Refusal::NotNow);
        };
        child.join(held.handed(pair.mode))?;
        self.task.note_registration();
        Ok(())
    }

    /// Notes that the unborn child has left this phaser.
    pub fn note_child_gone(&mut self, phaser: u32)
        ensures task { self.new.task ≡ self.old.task }
        ensures child { option_map (λ c. c.value.standing) self.new.unborn
            ≡ option_map (λ c. record c.value.standing {
              holding = filter (λ h. not (h.phaser == phaser)) c.value.standing.holding;
            }) self.old.unborn }
    {
        if let Some(child) = &mut self.unborn {
            child.part(phaser);
        }
    }
}
