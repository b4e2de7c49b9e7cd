//! What a caller says of workers that share a phaser which lives long.
ghost use Rattle.std.specs.Prelude.{◌≡◌, ◌++◌, ◌∷◌, [], IfErr, OnOk, MatchOption, IfOk};

use crate::front::{Front, Naming};
use crate::lock::LongLock;
use phase_modes::Refusal;
use phaser_core::Out;
use std::alloc::Global;
use std::collections::VecDeque;
use std::sync::Wait;

/// What one worker has in a thread of its own. A `T` stands for a parked task.
///
/// A call is made by the lock: `worker.lock.lock(rt).pass(&mut worker.me, &mut worker.out, task, item)`.
/// One that may free tasks wants an empty `out`: call `make_room` before it.
#[derive(Drop)]
pub struct Worker<'a, J: Naming, T> {
    /// Its number, from 0 on.
    pub number: u32,
    pub lock: &'a LongLock<J, T>,
    /// What it has seen of the phaser.
    pub me: Front<J>,
    /// The items of the tasks that the last call freed.
    pub out: Out<T>,
    /// Those of the tasks that were freed before.
    pub ready: VecDeque<T>,
}

impl<'a, J: Naming, T: Drop> Worker<'a, J, T> {
    /// A worker that has seen this, and freed nobody yet. `Memory` if its list gets none.
    pub fn new(
        alloc: Global,
        number: u32,
        lock: &'a LongLock<J, T>,
        me: Front<J>,
    ) -> Result<Worker<'a, J, T>, Refusal>
        ensures new { IfOk result (λ w. (w.number ≡ number) × (w.me ≡ me) × (w.out ≡ []) × (w.ready.items ≡ [])) }
        ensures memory { IfErr result (λ e. e ≡ Refusal.Memory) }
    {
        Ok(Worker {
            number,
            lock,
            me,
            out: Out::new(alloc)?,
            ready: VecDeque::new(alloc),
        })
    }
}

impl<'a, J: Naming, T> Worker<'a, J, T> {
    /// Takes the item of the task that this worker's calls freed first. Nobody else has it: this
    /// worker goes on with the task.
    pub fn next(&mut self) -> Option<T>
        ensures first { MatchOption result
            ((self.old.ready.items ++ self.old.out ≡ []) × (self.new.ready.items ++ self.new.out ≡ []))
            (λ x. self.old.ready.items ++ self.old.out ≡ x ∷ (self.new.ready.items ++ self.new.out)) }
        ensures seen { self.new.me ≡ self.old.me }
        ensures number { self.new.number ≡ self.old.number }
    {
        match self.ready.pop_front() {
            Some(item) => Some(item),
            None => self.out.take(),
        }
    }

    /// Puts the items of the tasks that the last call freed behind those that are ready, so that the
    /// next call may free tasks. `Memory` if there is none for them: nothing is lost then.
    pub fn make_room(&mut self) -> Result<(), Refusal>
        ensures empty { OnOk result (self.new.out ≡ []) }
        ensures memory { IfErr result (λ e. e ≡ Refusal.Memory) }
        ensures same { self.new.ready.items ++ self.new.out ≡ self.old.ready.items ++ self.old.out }
        ensures seen { self.new.me ≡ self.old.me }
        ensures number { self.new.number ≡ self.old.number }
    {
        pour(&mut self.ready, &mut self.out)
    }
}

/// Puts the items of the out-list behind those that are ready; `Memory` if there is none for them.
fn pour<T>(ready: &mut VecDeque<T>, out: &mut Out<T>) -> Result<(), Refusal>
    ensures empty { OnOk result (out.new ≡ []) }
    ensures memory { IfErr result (λ e. e ≡ Refusal.Memory) }
    ensures same { ready.new.items ++ out.new ≡ ready.old.items ++ out.old }
{
    ready.reserve(out.len())?;
    while let Some(item) = out.take() {
        ready.push_back_reserved(item);
    }
    Ok(())
}

/// What workers do with a phaser that lives long. A `T` stands for a task that is parked.
///
/// No worker may wait for another: if the system makes no thread, they work one after the other.
/// A task that has to wait is parked, and the worker whose call frees it goes on with it.
pub trait Crew<T> {
    ghost use Rattle.std.specs.Prelude.{List};
    ghost use Rattle.phase_modes.specs.declared.refusal.Refusal.{Refusal};
    ghost use Rattle.phase_model.specs.declared.history.Event.{Event};
    ghost use Rattle.phase_model.specs.declared.terms.Terms.{Terms};

    /// What all workers are shown of the preparation, such as the numbers of the tasks.
    type Prepared: Sync + Drop;

    /// What a worker gives back.
    type Given: Send + Drop;

    /// What `prepare` can be refused by: anything by default.
    ghost refuses: { Self → Refusal → Type 0 } = { λ _ _. Unit {0} };

    /// What a worker's gift says of the phaser's operators and bound, and of all that the worker has
    /// seen of its history, the newest event first: nothing by default. `with_long_phaser` says it of
    /// beginnings of one legal history.
    ghost shows: { Self.Given → Terms → List Event → Type 0 } = { λ _ _ _. Unit {0} };

    /// Makes the phaser and registers tasks, before any thread is started. If it is refused nobody
    /// works.
    fn prepare<J: Naming, R: Wait>(
        &self,
        rt: &R,
        lock: &LongLock<J, T>,
        me: &mut Front<J>,
    ) -> Result<Self::Prepared, Refusal>
        ensures refused { IfErr result (λ e. refuses self.now e) };

    /// What one worker does, in a thread of its own. Items that it still has at the end are dropped.
    fn work<J: Naming, R: Wait>(
        &self,
        rt: &R,
        worker: &mut Worker<'_, J, T>,
        prepared: &Self::Prepared,
    ) -> Self::Given
        ensures { shows result J.terms worker.new.me };
}
