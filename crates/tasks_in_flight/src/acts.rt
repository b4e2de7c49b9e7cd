//! How a task's act is begun, and made if it is one event, in a run of either kind.
ghost use Rattle.std.specs.Prelude.{IfOk, IfSome, MatchOption, OnOk};

use crate::body::Body;
use job_script::Act;
use phase_model::{Bound, Ops};
use phase_modes::{Mode, Phased, Refusal};

/// What a worker makes of a task's acts: a call for each kind. A task whose act is refused comes to its
/// end. An error ends the run.
pub trait Acts<B: Body, T, W> {
    ghost use Rattle.job_script.specs.declared.act.Act.{Act};

    /// No event is due of the task.
    ghost idle: { T → Type 0 };

    /// The body asked for this act, of which nothing has come yet.
    ghost asks: { Act B → T → Type 0 };

    /// The task has given an act, and done nothing else.
    ghost gives: { T → T → Type 0 };

    /// The task has acted.
    ghost acts: { T → T → Type 0 };

    /// The task may bear this child. By default any.
    ghost bears: { T → T → Type 0 } = { λ _ _. Unit {0} };

    /// What the worker keeps and notes while a task acts. By default anything.
    ghost notes: { W → W → Type 0 } = { λ _ _. Unit {0} };

    /// The body's next act; the refusal if it gives none.
    fn next_act(&self, worker: &W, task: &mut T) -> Result<Result<Act<B>, Refusal>, Refusal>
        requires { idle task.old }
        ensures asks { IfOk result (λ given. IfOk given (λ act. asks act task.new)) }
        ensures gives { IfOk result (λ given. gives task.old task.new) };

    /// The task ends, since its body gave no act.
    fn refuse_step(&self, worker: &mut W, task: &mut T, refusal: Refusal) -> Result<(), Refusal>
        ensures acts { OnOk result (acts task.old task.new) }
        ensures notes { notes worker.old worker.new };

    /// It begins to spawn a child, to be registered for these pairs, or else on all that the task holds: the
    /// child, unless that is refused.
    fn spawn(
        &self,
        worker: &mut W,
        task: &mut T,
        body: B,
        pairs: Option<Phased>,
    ) -> Result<Option<Box<T>>, Refusal>
        requires { MatchOption pairs (asks (Act.AsyncAll body) task.old) (λ ps. asks (Act.Async body ps) task.old) }
        ensures acts { OnOk result (acts task.old task.new) }
        ensures bears { IfOk result (λ child. IfSome child (λ c. bears task.new c.value)) }
        ensures notes { notes worker.old worker.new };

    /// It opens a finish.
    fn open(&self, worker: &mut W, task: &mut T) -> Result<(), Refusal>
        requires { asks Act.OpenFinish task.old }
        ensures acts { OnOk result (acts task.old task.new) }
        ensures notes { notes worker.old worker.new };

    /// It makes a phaser.
    fn make(
        &self,
        worker: &mut W,
        task: &mut T,
        mode: Mode,
        ops: Ops,
        bound: Option<Bound>,
    ) -> Result<(), Refusal>
        requires { asks (Act.New mode ops bound) task.old }
        ensures acts { OnOk result (acts task.old task.new) }
        ensures notes { notes worker.old worker.new };

    /// It sends a value.
    fn send(
        &self,
        worker: &mut W,
        task: &mut T,
        phaser: u32,
        accumulator: u8,
        value: i32,
    ) -> Result<(), Refusal>
        requires { asks (Act.Send phaser accumulator value) task.old }
        ensures acts { OnOk result (acts task.old task.new) }
        ensures notes { notes worker.old worker.new };

    /// It looks at an accumulator.
    fn look(
        &self,
        worker: &mut W,
        task: &mut T,
        phaser: u32,
        accumulator: u8,
    ) -> Result<(), Refusal>
        requires { asks (Act.Look phaser accumulator) task.old }
        ensures acts { OnOk result (acts task.old task.new) }
        ensures notes { notes worker.old worker.new };

    /// It begins an act of another kind, which goes on by a plan.
    fn begin(&self, worker: &mut W, task: &mut T, act: &Act<B>) -> Result<(), Refusal>
        requires { asks act.now task.old }
        ensures acts { OnOk result (acts task.old task.new) }
        ensures notes { notes worker.old worker.new };

    /// A worker that makes nothing has nothing to note.
    ghost notes_nothing: { (w : W) → notes w w };

    /// A task that acts once it gave the act has acted.
    ghost acts_since: { (old given new : T) → gives old given → acts given new → acts old new };
}

/// Begins to spawn the child that the body gave by this act: the child, unless that is refused. `NotNow` if
/// it gave none.
fn spawn<B: Body, T: Drop, W, A: Acts<B, T, W>>(
    acts: &A,
    worker: &mut W,
    task: &mut T,
    act: Act<B>,
) -> Result<Option<Box<T>>, Refusal>
    requires { A.asks act task.old }
    ensures acts { OnOk result (A.acts task.old task.new) }
    ensures bears { IfOk result (λ child. IfSome child (λ c. A.bears task.new c.value)) }
    ensures notes { A.notes worker.old worker.new }
{
    match act {
        Act::Async(body, pairs) => acts.spawn(worker, task, body, Some(pairs)),
        Act::AsyncAll(body) => acts.spawn(worker, task, body, None),
        _ => Err(Refusal::NotNow),
    }
}

/// Begins the act that the body gave, or makes it. The child that it spawns by it, if it does. An act is
/// large, so one that spawns nobody isn't moved.
fn act<B: Body, T: Drop, W, A: Acts<B, T, W>>(
    acts: &A,
    worker: &mut W,
    task: &mut T,
    act: Act<B>,
) -> Result<Option<Box<T>>, Refusal>
    requires { A.asks act task.old }
    ensures acts { OnOk result (A.acts task.old task.new) }
    ensures bears { IfOk result (λ child. IfSome child (λ c. A.bears task.new c.value)) }
    ensures notes { A.notes worker.old worker.new }
{
    match &act {
        Act::Async(_, _) | Act::AsyncAll(_) => return spawn(acts, worker, task, act),
        Act::OpenFinish => acts.open(worker, task)?,
        Act::New(mode, ops, bound) => acts.make(worker, task, *mode, *ops, *bound)?,
        Act::Send(phaser, accumulator, value) => {
            acts.send(worker, task, *phaser, *accumulator, *value)?
        }
        Act::Look(phaser, accumulator) => acts.look(worker, task, *phaser, *accumulator)?,
        begun => acts.begin(worker, task, begun)?,
    }
    Ok(None)
}

/// Asks the body for its next act, and begins it, or makes it. The child that the task spawns by it, if
/// it does.
pub fn step<B: Body, T: Drop, W, A: Acts<B, T, W>>(
    acts: &A,
    worker: &mut W,
    task: &mut T,
) -> Result<Option<Box<T>>, Refusal>
    requires { A.idle task.old }
    ensures acts { OnOk result (A.acts task.old task.new) }
    ensures bears { IfOk result (λ child. IfSome child (λ c. A.bears task.new c.value)) }
    ensures notes { A.notes worker.old worker.new }
{
    match acts.next_act(worker, task)? {
        Ok(given) => act(acts, worker, task, given),
        Err(refusal) => {
            acts.refuse_step(worker, task, refusal)?;
            Ok(None)
        }
    }
}
