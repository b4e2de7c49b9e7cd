//! What is run: a body of a task, and a gate round its steps.
ghost use Rattle.std.specs.Prelude.{◌≡◌, IfErr};
ghost use Rattle.tasks_in_flight.specs.Heard.{nothing, at_start, asked_by, IsHeard, IsSpawned};

use job_script::{Act, Answer, ScriptBody};
use phase_modes::Refusal;

/// A task's program: a value that gives one act after the other. It never waits itself: whoever runs
/// it carries an act out, and comes back with its outcome. A body that allocates keeps its own
/// allocator.
///
/// A body may say something of what its task has seen (`shows`): whoever writes it proves of `step` that
/// it stays so, and then `phased_rt::run` says it of the run's trace: of the root's body, which is task
/// 0's, and of each task whose body has asked for its end. What a step hears is an answer to its act, as
/// `IsAnswerTo` says: that the phaser was made, that the value was sent, what the look saw; that the
/// task's log has the act which it began; and of each phaser that the task held, that it signalled and
/// passed there. A body that says nothing has nothing to prove.
pub trait Body: Drop {
    ghost use Rattle.std.specs.Prelude.{ℕ};
    ghost use Rattle.tasks_in_flight.specs.Heard.{Asked, Seen};

    /// What the body says if it is the body of the task of this number, this is what it asked for by its
    /// last act, and its task has seen this much. By default nothing.
    ghost shows: { Self → ℕ → Asked → Seen → Type 0 } = { λ _ _ _ _. Unit {0} };

    /// What the statement of this number makes of the body. By default anything.
    ghost ran: { Self → ℕ → Self → Type 0 } = { λ _ _ _. Unit {0} };

    /// The task's next act, after the answer to the one before: `Started` at first. After `End` it is
    /// not called again, nor once an act was refused. `Memory`, the only error, ends the task.
    fn step(&mut self, answer: Answer) -> Result<Act<Self>, Refusal>
        ensures memory { IfErr result (λ e. e ≡ Refusal.Memory) }
        ensures shows { (task : ℕ) (asked : Asked) (seen now : Seen) → shows self.old task asked seen
            → IsHeard task asked answer seen now → shows self.new task (asked_by result) now }
        ensures child { (task : ℕ) (asked : Asked) (seen now : Seen) → shows self.old task asked seen
            → IsHeard task asked answer seen now → (child : Self) (its : ℕ) (own : ℕ → ℕ) → IsSpawned child result
            → shows child its nothing (at_start own now.stories) };

    /// Runs the statement of this number, which the task alone has claimed: of those who proposed it
    /// in a phase just one is called, once.
    fn single(&mut self, number: u32)
        ensures ran { ran self.old number self.new }
        ensures shows { (task : ℕ) (asked : Asked) (seen : Seen) → shows self.old task asked seen → shows self.new task asked seen };
}

/// Called round each step of a body, while no lock is held.
pub trait Gate {
    /// The worker is about to step the task.
    fn enter(&self, worker: u32, task: u32);

    /// The task's step is over.
    fn leave(&self, worker: u32, task: u32);
}

impl<'p> Body for ScriptBody<'p> {
    fn step(&mut self, answer: Answer) -> Result<Act<ScriptBody<'p>>, Refusal> {
        self.step(answer)
    }

    /// A script's statement does nothing.
    fn single(&mut self, _number: u32) {}
}

/// A gate that stands open.
pub struct OpenGate;

impl Gate for OpenGate {
    fn enter(&self, _worker: u32, _task: u32) {}

    fn leave(&self, _worker: u32, _task: u32) {}
}
