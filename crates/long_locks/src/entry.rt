//! The entry of a crew: it makes a phaser that lives long, lets the workers work, and gathers what
//! they give back.
ghost use Rattle.std.specs.Prelude.{◌≡◌, ◌⊎◌, ◌<◌, [], Some, All, IfOk, IfErr, vec_len};
ghost use Rattle.long_locks.specs.Crews.{AreSeen, HasSeen};

use crate::crew::{Crew, Worker};
use crate::front::{Front, Naming};
use crate::lock::LongLock;
use crate::receipt_cell::ReceiptCell;
use crate::threads::{Work, in_threads};
use phase_model::{Bound, Ops};
use phase_modes::Refusal;
use std::alloc::Global;
use std::marker::{Brand, PhantomData};
use std::sync::Wait;
use std::thread::Threads;
use told_history::{LongEvent, Whole};

/// The workers, each of which has seen this of the phaser.
fn workers<'a, J: Naming, T: Drop>(
    alloc: Global,
    lock: &'a LongLock<J, T>,
    front: Front<J>,
    number: u32,
) -> Result<Vec<Worker<'a, J, T>>, Refusal>
    ensures number { IfOk result (λ v. vec_len v ≡ number) }
    ensures memory { IfErr result (λ e. e ≡ Refusal.Memory) }
{
    let mut front = front;
    let mut workers = Vec::new(alloc);
    for place in 0..number {
        workers.push(Worker::new(alloc, place, lock, front.again())?)?;
    }
    Ok(workers)
}

/// What a worker gives back, and what it has seen.
#[derive(Drop)]
struct Done<T, C: Crew<T>, J: Naming> {
    given: C::Given,
    front: Front<J>,
    of: PhantomData<T>,
    ghost shows: { ∥ C.shows given J.terms front ∥₁ },
}

/// The crew, as it does one worker's part.
#[derive(Drop)]
struct Team<'a, C, P> {
    crew: &'a C,
    prepared: &'a P,
}

impl<'a, 'b, T: Drop, C: Crew<T>, J: Naming> Work<Worker<'b, J, T>, Done<T, C, J>>
    for Team<'a, C, C::Prepared> {
    fn work<R: Wait>(&self, rt: &R, worker: Worker<'b, J, T>) -> Done<T, C, J> {
        let mut worker = worker;
        let given = self.crew.work(rt, &mut worker, self.prepared);
        let Worker {
            number: _,
            lock: _,
            me,
            out: _,
            ready: _,
        } = worker;
        Done {
            given,
            front: me,
            of: PhantomData,
        }
    }
}

/// The phaser is made ready, and all workers work. What each of them is done with.
fn worked<T: Send + Drop, C: Crew<T> + Sync, J: Naming + Send + Sync, R: Threads + Wait + Sync>(
    rt: &R,
    alloc: Global,
    lock: &LongLock<J, T>,
    front: Front<J>,
    number: u32,
    crew: &C,
) -> Result<Vec<Done<T, C, J>>, Refusal>
    ensures number { IfOk result (λ v. vec_len v ≡ number) }
    ensures refused { IfErr result (λ e. (e ≡ Refusal.Memory) ⊎ C.refuses crew.now e) }
{
    let mut front = front;
    let prepared = crew.prepare(rt, lock, &mut front)?;
    let workers = workers(alloc, lock, front, number)?;
    let team = Team {
        crew,
        prepared: &prepared,
    };
    Ok(in_threads(rt, &team, workers)?)
}

/// What the workers gave back. What each has seen begins the cell's history.
fn given_of<T: Drop, C: Crew<T>, J: Naming>(
    alloc: Global,
    done: Vec<Done<T, C, J>>,
    cell: &mut ReceiptCell<J, T>,
) -> Result<Vec<C::Given>, Refusal>
    ensures number { IfOk result (λ v. vec_len v ≡ vec_len done) }
    ensures same { cell.new.cell ≡ cell.old.cell }
    ensures shown { IfOk result (λ v. All (λ x. ∥ HasSeen C.shows J.terms cell.old.cell.state.story.past x ∥₁) v.items) }
    ensures memory { IfErr result (λ e. e ≡ Refusal.Memory) }
{
    let mut all_given = Vec::new(alloc);
    for one in done {
        let Done {
            given,
            mut front,
            of: _,
        } = one;
        cell.includes(&mut front);
        all_given.push(given)?;
    }
    Ok(all_given)
}

/// What is left of the phaser and the workers.
fn gathered<T: Drop, C: Crew<T>, J: Naming>(
    alloc: Global,
    lock: LongLock<J, T>,
    done: Vec<Done<T, C, J>>,
) -> Result<Vec<C::Given>, Refusal>
    ensures given { IfOk result (λ v. vec_len v ≡ vec_len done) }
    ensures shown { IfOk result (λ v. AreSeen C.shows J.terms v.items) }
    ensures memory { IfErr result (λ e. e ≡ Refusal.Memory) }
{
    let mut cell = lock.into_cell();
    let whole = cell.front();
    whole.is_legal();
    given_of(alloc, done, &mut cell)
}

/// A phaser that nobody has made yet: what it folds by, its bound, and the log of its history.
struct Unmade {
    ops: Ops,
    bound: Bound,
    log: Whole<LongEvent>,
}

// Names the phaser's log.
fn named<T: Send + Drop, C: Crew<T> + Sync, R: Threads + Wait + Sync, J: Naming + Send + Sync>(
    rt: &R,
    alloc: Global,
    unmade: Unmade,
    workers: u32,
    crew: &C,
) -> Result<Vec<C::Given>, Refusal>
    requires name { unmade.log.name ≡ J.log }
    requires empty { unmade.log.items ≡ [] }
    requires terms { J.terms ≡ record { ops = unmade.ops; bound = Some unmade.bound } }
    ensures given { IfOk result (λ v. vec_len v ≡ workers) }
    ensures shown { IfOk result (λ v. AreSeen C.shows J.terms v.items) }
    ensures refused { IfErr result (λ e. (e ≡ Refusal.Memory) ⊎ C.refuses crew.now e) }
{
    let Unmade { ops, bound, log } = unmade;
    let (lock, front) = LongLock::<J, T>::new(alloc, ops, bound, log)?;
    let done = worked::<T, C, J, R>(rt, alloc, &lock, front, workers, crew)?;
    gathered(alloc, lock, done)
}

/// Takes a phaser with these operators and this bound, behind a lock, has the crew prepare it, and
/// lets it work by so many workers, each in a thread of its own. What each gave back, in order. What
/// a gift says of what its worker has seen (`Crew::shows`) holds of a beginning of the phaser's one
/// history, which is legal. The phaser stores no event, so the crew may go on with it as long as it
/// likes.
///
/// `Memory` if the phaser, a worker or a thread's result get none; else what `prepare` is
/// refused by. What a worker's calls are refused by is the crew's own matter.
pub fn with_long_phaser<T: Send + Drop, C: Crew<T> + Sync, R: Threads + Wait + Sync>(
    rt: &R,
    alloc: Global,
    ops: Ops,
    bound: Bound,
    workers: u32,
    crew: &C,
) -> Result<Vec<C::Given>, Refusal>
    ensures given { IfOk result (λ v. vec_len v ≡ workers) }
    ensures shown { IfOk result (λ v. AreSeen C.shows (record { ops = ops; bound = Some bound }) v.items) }
    ensures refused { IfErr result (λ e. (e ≡ Refusal.Memory) ⊎ C.refuses crew.now e) }
{
    let unmade = Unmade {
        ops,
        bound,
        log: Whole::new(),
    };
    named::<T, C, R, Brand>(rt, alloc, unmade, workers, crew)
}
