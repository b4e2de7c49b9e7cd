//! Four tasks at a barrier, whichever worker plays them.
ghost use Rattle.std.specs.Prelude.{◌≡◌, [], ◌∷◌, Some, IfOk};
ghost use Rattle.phase_model.specs.declared.op.Op.TheVariants.{Sum};
ghost use Rattle.told_history.specs.Tails.{IsTail};
ghost use Rattle.example_crew.specs.Sums.{IsSeen, AreSums};

use long_locks::{
    Crew, Front, LongLock, Naming, PassAnswer, SignalAnswer, Worker, with_long_phaser,
};
use phase_model::{Bound, LongLook, Look, Op, Ops};
use phase_modes::{Mode, Refusal};
use phaser_core::{LongTask, Phase};
use std::alloc::Global;
use std::sync::Wait;
use std::thread::Threads;

const TASKS: usize = 4;

/// Four workers, of which each begins with the task of its own place.
#[derive(Drop)]
struct Barrier {
    phases: Phase,
}

/// How often a worker saw the expected sum, and what it saw last: `Nothing` if it saw none.
#[derive(Drop)]
pub struct Tally {
    pub right: u64,
    pub last: LongLook,
}

/// What the task sends in the phase.
fn change(task: LongTask, phase: Phase) -> i32 {
    (phase % 1_000) as i32 + (task % 4) as i32
}

/// The sum of what the tasks 0 to 3 send.
fn sum_of(phase: Phase) -> i128 {
    4 * i128::from(phase % 1_000) + 6
}

/// The task sends its change.
fn send<J: Naming, R: Wait>(
    rt: &R,
    worker: &mut Worker<'_, J, LongTask>,
    task: LongTask,
    phase: Phase,
) -> Result<(), Refusal>
    ensures more { IsTail worker.old.me worker.new.me }
{
    let value = change(task, phase);
    worker.lock.lock(rt).send(&mut worker.me, task, 0, value)
}

/// The task signals: at a barrier the bound never holds it.
fn signal<J: Naming, R: Wait>(
    rt: &R,
    worker: &mut Worker<'_, J, LongTask>,
    task: LongTask,
) -> Result<(), Refusal>
    ensures more { IsTail worker.old.me worker.new.me }
{
    worker.make_room()?;
    let answer = worker
        .lock
        .lock(rt)
        .signal(&mut worker.me, &mut worker.out, task, None, task);
    match answer {
        SignalAnswer::Signalled(_) => Ok(()),
        SignalAnswer::Parked => Err(Refusal::NotNow),
        SignalAnswer::Refused(_, refusal) => Err(refusal),
    }
}

/// The task sends its change, and signals.
fn arrive<J: Naming, R: Wait>(
    rt: &R,
    worker: &mut Worker<'_, J, LongTask>,
    task: LongTask,
    phase: Phase,
) -> Result<(), Refusal>
    ensures more { IsTail worker.old.me worker.new.me }
{
    send(rt, worker, task, phase)?;
    signal(rt, worker, task)
}

/// The task ends its turn. The phase of the turn; none if the task is parked.
fn pass<J: Naming, R: Wait>(
    rt: &R,
    worker: &mut Worker<'_, J, LongTask>,
    task: LongTask,
) -> Result<Option<Phase>, Refusal>
    ensures more { IsTail worker.old.me worker.new.me }
{
    worker.make_room()?;
    let answer = worker
        .lock
        .lock(rt)
        .pass(&mut worker.me, &mut worker.out, task, task);
    match answer {
        PassAnswer::Passed(_, phase) => Ok(Some(phase)),
        PassAnswer::Parked => Ok(None),
        PassAnswer::Claimed(_, _) => Err(Refusal::NotNow),
        PassAnswer::Refused(_, refusal) => Err(refusal),
    }
}

/// The task looks at the sum.
fn look<J: Naming, R: Wait>(
    rt: &R,
    worker: &mut Worker<'_, J, LongTask>,
    task: LongTask,
) -> Result<LongLook, Refusal>
    ensures seen { IfOk result (λ x. IsSeen worker.new.me x) }
{
    worker.lock.lock(rt).look(&mut worker.me, task, 0)
}

/// The task leaves.
fn leave<J: Naming, R: Wait>(
    rt: &R,
    worker: &mut Worker<'_, J, LongTask>,
    task: LongTask,
) -> Result<(), Refusal>
    ensures more { IsTail worker.old.me worker.new.me }
{
    worker.make_room()?;
    worker
        .lock
        .lock(rt)
        .leave(&mut worker.me, &mut worker.out, task)
}

/// Notes what was seen of a phase.
fn note(tally: &mut Tally, seen: LongLook, phase: Phase)
    ensures { tally.new.last ≡ seen }
{
    if let Look::Value(sum) = seen {
        if sum == sum_of(phase) {
            tally.right = tally.right.saturating_add(1);
        }
    }
    tally.last = seen;
}

/// After the phase the task arrives at the next, if there is one, or leaves. The task with which the
/// worker goes on.
fn go_on<J: Naming, R: Wait>(
    rt: &R,
    worker: &mut Worker<'_, J, LongTask>,
    task: LongTask,
    next: Phase,
    phases: Phase,
) -> Result<Option<LongTask>, Refusal>
    ensures more { IsTail worker.old.me worker.new.me }
{
    if next < phases {
        arrive(rt, worker, task, next)?;
        Ok(Some(task))
    } else {
        leave(rt, worker, task)?;
        Ok(worker.next())
    }
}

/// The task ends its turn, looks and goes on; or it is parked. The task with which the worker goes on.
fn turn<J: Naming, R: Wait>(
    rt: &R,
    worker: &mut Worker<'_, J, LongTask>,
    task: LongTask,
    phases: Phase,
    tally: &mut Tally,
) -> Result<Option<LongTask>, Refusal>
    requires seen { IsSeen worker.old.me tally.old.last }
    ensures seen { IfOk result (λ _. IsSeen worker.new.me tally.new.last) }
{
    let Some(phase) = pass(rt, worker, task)? else {
        return Ok(worker.next());
    };
    let seen = look(rt, worker, task)?;
    note(tally, seen, phase);
    go_on(rt, worker, task, phase.saturating_add(1), phases)
}

/// The worker plays the task, and then whomever its calls free.
fn play<J: Naming, R: Wait>(
    rt: &R,
    worker: &mut Worker<'_, J, LongTask>,
    first: LongTask,
    phases: Phase,
) -> Result<Tally, Refusal>
    ensures seen { IfOk result (λ tally. IsSeen worker.new.me tally.last) }
{
    let mut tally = Tally {
        right: 0,
        last: Look::Nothing,
    };
    let mut next = Some(first);
    for _ in 0..u64::MAX {
        let Some(task) = next else {
            break;
        };
        next = turn(rt, worker, task, phases, &mut tally)?;
    }
    Ok(tally)
}

impl Crew<LongTask> for Barrier {
    ghost use Rattle.std.specs.Prelude.{IfOk};
    ghost use Rattle.example_crew.specs.Sums.{IsSeen};

    type Prepared = [LongTask; TASKS];

    type Given = Result<Tally, Refusal>;

    ghost shows = { λ given terms seen. IfOk given (λ tally. IsSeen seen tally.last) };

    fn prepare<J: Naming, R: Wait>(
        &self,
        rt: &R,
        lock: &LongLock<J, LongTask>,
        me: &mut Front<J>,
    ) -> Result<[LongTask; TASKS], Refusal> {
        let maker = lock.lock(rt).make(me, Mode::SigWait)?;
        let mut tasks = [maker; TASKS];
        for task in tasks.iter_mut().skip(1) {
            *task = lock.lock(rt).register(me, maker, Mode::SigWait)?;
        }
        Ok(tasks)
    }

    fn work<J: Naming, R: Wait>(
        &self,
        rt: &R,
        worker: &mut Worker<'_, J, LongTask>,
        tasks: &[LongTask; TASKS],
    ) -> Result<Tally, Refusal> {
        match tasks.get(worker.number as usize) {
            Some(task) => {
                arrive(rt, worker, *task, 0)?;
                play(rt, worker, *task, self.phases)
            }
            None => Err(Refusal::NotRegistered),
        }
    }
}

/// Four workers play the tasks for so many phases. The last sum that one of them saw is the fold of all
/// values that were ever sent for one phase, which was closed when it was seen, in the one history of
/// the phaser.
pub fn run<R: Threads + Wait + Sync>(
    rt: &R,
    alloc: Global,
    bound: Bound,
    phases: Phase,
) -> Result<Vec<Result<Tally, Refusal>>, Refusal>
    ensures sums { IfOk result (λ given. AreSums (record { ops = Sum ∷ []; bound = Some bound }) given.items) }
{
    let mut one_sum = Ops::none();
    one_sum.push(Op::Sum);
    with_long_phaser(rt, alloc, one_sum, bound, 4, &Barrier { phases })
}
