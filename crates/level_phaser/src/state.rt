//! What the tasks share, as the barrier sees it.
ghost use Rattle.std.specs.Prelude.{◌≡◌, ℕ, List, Bool, true, slice_get, length, ◌≤◌, ◌+◌, ◌^◌, ◌<◌, IfSome, IfNone, IsTrue, IsFalse, IfOk, IfErr, Err};
ghost use Rattle.phase_model.specs.declared.history.Event.TheVariants.{Send as Sent};
ghost use Rattle.phase_model.specs.declared.call.Call.TheVariants.{Send as send, Look as look};
ghost use Rattle.phase_model.specs.Replies.{done_result};
ghost use Rattle.phase_model.specs.Answers.{look_result};

use phase_model::LongLook;
use phase_modes::Refusal;

/// What the tasks share. It is told their calls, and keeps them as a history. One thread at a time
/// has it.
pub trait LevelState: Drop {
    ghost use Rattle.level_phaser.specs.Changes.{AllSignalled, IsJoined, IsKept, IsSent, IsLeft};
    ghost use Rattle.level_phaser.specs.RoundLaws.{is_among, AreApart};
    ghost use Rattle.phase_model.specs.declared.call.Call.{Call};
    ghost use Rattle.phase_model.specs.declared.history.Event.{Event as Happened};
    ghost use Rattle.phase_model.specs.Replies.{Reply};

    /// What has happened, the newest in front.
    ghost events: { Self → List Happened };

    /// Which tasks are registered.
    ghost registered: { ℕ → Self → Bool };

    /// How many.
    ghost count: { Self → ℕ };

    /// How many accumulators there are.
    ghost width: { Self → ℕ };

    /// The tasks, in an order.
    ghost tasks: { Self → List ℕ };

    /// The number that was given last.
    ghost newest: { Self → ℕ };

    /// What the phaser replies to a call.
    ghost replies: { Self → Call → Reply };

    /// All of them stand level in this phase, in a history that is legal.
    ghost ready: { ℕ → Self → Type 0 };

    /// There is no room for a round.
    ghost full: { Self → Type 0 };

    /// How many tasks there are: fewer than 2^32.
    fn count(&self) -> u64
        ensures count { (result ≡ count self.now) × (result < 4294967296) }
        ensures tasks { result ≡ length (tasks self.now) };

    /// How many accumulators there are.
    fn width(&self) -> u64
        ensures { (result ≡ width self.now) × (result ≤ 4) };

    /// The phase in which all stand, if there is a task.
    fn phase(&self) -> u64
        ensures phase { (p : ℕ) → ready p self.now → 0 < count self.now → result ≡ p }
        ensures there { (p : ℕ) → ready p self.now → (t : ℕ) → is_among t (tasks self.now) ≡ true
            → registered t self.now ≡ true }
        ensures apart { (p : ℕ) → ready p self.now → AreApart (tasks self.now) };

    /// The task at this place; None beyond the last. Each stands at one place.
    fn task_at(&self, place: u64, phase: u64) -> Option<u64>
        requires ready { ready phase self.now }
        ensures task { result ≡ slice_get (tasks self.now) place }
        ensures there { IfSome result (λ t. registered t self.now ≡ true) }
        ensures apart { AreApart (tasks self.now) }
        ensures few { width self.now ≤ 4 };

    /// One round of all tasks, in this phase. Whether it was made: it isn't if there is no room for
    /// it.
    fn make_round(&mut self, phase: u64) -> bool
        requires small { phase + 1 < 2 ^ 64 }
        requires ready { ready phase self.old }
        ensures round { IsTrue result → AllSignalled events registered count width self.old self.new }
        ensures ready { IsTrue result → ready (phase + 1) self.new }
        ensures all { (t : ℕ) → registered t self.old ≡ true → is_among t (tasks self.old) ≡ true }
        ensures full { IsFalse result → full self.old };

    /// A new task joins; the answer is its number. None if there is no room.
    fn join(&mut self, phase: u64) -> Option<u64>
        requires ready { ready phase self.old }
        ensures joined { IfSome result (λ task. IsJoined events registered count width task phase self.old self.new
            × (newest self.new ≡ task) × (count self.new < 4294967296)) }
        ensures ready { IfSome result (λ _. ready phase self.new) }
        ensures none { IfNone result (IsKept events registered count width self.old self.new × ready phase self.new) };

    /// A task sends a value.
    fn send(&mut self, task: u64, accumulator: u8, value: i32, phase: u64) -> Result<(), Refusal>
        requires ready { ready phase self.old }
        ensures sent { IfOk result (λ _. IsSent events registered count width task (Sent task accumulator value) self.old
            self.new) }
        ensures refused { IfErr result (λ r. IsKept events registered count width self.old self.new
            × (done_result (replies self.old (send task accumulator value)) ≡ Err r)) }
        ensures tasks { tasks self.new ≡ tasks self.old }
        ensures full { IfErr result (λ _. registered task self.old ≡ true → accumulator < width self.old
            → full self.old) }
        ensures ready { ready phase self.new };

    /// What a task sees of the values that were sent for the phase before.
    fn look(&mut self, task: u64, accumulator: u8, phase: u64) -> Result<LongLook, Refusal>
        requires ready { ready phase self.old }
        ensures seen { result ≡ look_result (replies self.old (look task accumulator)) }
        ensures alike { (t : ℕ) → registered task self.old ≡ true → registered t self.old ≡ true
            → look_result (replies self.old (look t accumulator)) ≡ result }
        ensures kept { IsKept events registered count width self.old self.new }
        ensures ready { ready phase self.new };

    /// A task leaves. Whether it did.
    fn leave(&mut self, task: u64, phase: u64) -> bool
        requires ready { ready phase self.old }
        requires registered { registered task self.old ≡ true }
        ensures left { IsTrue result → IsLeft events registered count width task self.old self.new }
        ensures kept { IsFalse result → IsKept events registered count width self.old self.new }
        ensures ready { ready phase self.new };
}
