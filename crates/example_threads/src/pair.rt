//! Two tasks of one phaser, each in a thread of its own.
ghost use Rattle.std.specs.Prelude.{◌≡◌, [], ◌∷◌, true, false, Some, IfOk};
ghost use Rattle.phase_model.specs.declared.op.Op.TheVariants.{Sum};
ghost use Rattle.phase_modes.specs.Lists.{is_empty};
ghost use Rattle.phase_modes.specs.Mode.{can_wait};
ghost use Rattle.phase_model.specs.Phases.{IsClosed};
ghost use Rattle.phase_model.specs.Tasks.{has_mode};
ghost use Rattle.told_history.specs.Tails.{IsTail};
ghost use Rattle.example_threads.specs.Turns.{IsGood, IsFoldOfAll, AreFoldsOfAll};

use crate::turn::{Player, Turn};
use long_locks::{Front, LongLock, Naming};
use phase_model::{Bound, LongLook, Op, Ops};
use phase_modes::{Mode, Refusal};
use phaser_core::LongTask;
use std::alloc::Global;
use std::marker::Brand;
use std::sync::Wait;
use std::thread;
use std::thread::{Parker, Threads};
use told_history::{LongEvent, Whole};

/// What came of both turns, and the whole history of the phaser that is left.
#[derive(Drop)]
pub struct Outcome<J: Naming> {
    pub one: Turn<J>,
    pub other: Turn<J>,
    pub whole: Front<J>,
}

/// Two tasks of a new phaser, and what was seen when both were registered.
#[derive(Drop)]
struct Pair<J: Naming> {
    maker: LongTask,
    child: LongTask,
    start: Front<J>,
}

/// The phaser is made, with a maker that can signal and wait.
pub(crate) fn make<J: Naming, R: Wait>(
    rt: &R,
    lock: &LongLock<J, &Parker>,
    me: &mut Front<J>,
) -> Result<LongTask, Refusal>
    ensures waits { IfOk result (λ t. has_mode can_wait t me.new ≡ true) }
{
    lock.lock(rt).make(me, Mode::SigWait)
}

/// A child is registered that can signal and wait. Its parent still can wait.
pub(crate) fn register<J: Naming, R: Wait>(
    rt: &R,
    lock: &LongLock<J, &Parker>,
    me: &mut Front<J>,
    parent: LongTask,
) -> Result<LongTask, Refusal>
    ensures child { IfOk result (λ t. has_mode can_wait t me.new ≡ true) }
    ensures parent { has_mode can_wait parent me.old ≡ true → has_mode can_wait parent me.new ≡ true }
{
    let answer = lock.lock(rt).register(me, parent, Mode::SigWait);
    me.is_legal();
    answer
}

/// Two tasks are registered.
fn registered<J: Naming, R: Wait>(
    rt: &R,
    lock: &LongLock<J, &Parker>,
    front: Front<J>,
) -> Result<Pair<J>, Refusal>
    ensures wait { IfOk result (λ pair. (has_mode can_wait pair.maker pair.start ≡ true) × (has_mode can_wait pair.child pair.start ≡ true)) }
{
    let mut start = front;
    let maker = make(rt, lock, &mut start)?;
    let child = register(rt, lock, &mut start, maker)?;
    Ok(Pair {
        maker,
        child,
        start,
    })
}

/// Each takes its turn in a thread of its own. Both start where both were registered.
fn met<'p, J: Naming + Send + Sync, R: Threads + Wait + Sync>(
    rt: &R,
    alloc: Global,
    lock: &LongLock<J, &'p Parker>,
    parkers: &'p [Parker; 2],
    pair: Pair<J>,
) -> Result<(Turn<J>, Turn<J>), Refusal>
    requires wait { (has_mode can_wait pair.maker pair.start ≡ true) × (has_mode can_wait pair.child pair.start ≡ true) }
    ensures good { IfOk result (λ turns. IsGood J.terms.ops turns.0.phase turns.0.front turns.0.later turns.0.seen × IsGood J.terms.ops turns.1.phase turns.1.front turns.1.later turns.1.seen) }
{
    let Pair {
        maker,
        child,
        mut start,
    } = pair;
    let seen = start.again();
    let one = Player::new(rt, alloc, lock, maker, &parkers[0], seen)?;
    let other = Player::new(rt, alloc, lock, child, &parkers[1], start)?;
    let (one, other) = thread::join(
        rt,
        move || -> Result<Turn<J>, Refusal>
            ensures { IfOk result (λ turn. IsGood J.terms.ops turn.phase turn.front turn.later turn.seen) }
        { one.take_turn(3) },
        move || -> Result<Turn<J>, Refusal>
            ensures { IfOk result (λ turn. IsGood J.terms.ops turn.phase turn.front turn.later turn.seen) }
        { other.take_turn(4) },
    );
    Ok((one?, other?))
}

/// Two tasks of a new phaser meet: one sends 3, the other 4. In the one history that is left, the
/// phase that each has passed was closed then, and what each saw is the fold of all values that were
/// ever sent for a phase that was closed then.
pub fn both<'p, J: Naming + Send + Sync, R: Threads + Wait + Sync>(
    rt: &R,
    alloc: Global,
    lock: LongLock<J, &'p Parker>,
    parkers: &'p [Parker; 2],
    front: Front<J>,
) -> Result<Outcome<J>, Refusal>
    ensures stand { IfOk result (λ o. IsTail o.one.front o.whole × IsTail o.other.front o.whole) }
    ensures closed { IfOk result (λ o. IsClosed o.one.phase o.one.front × IsClosed o.other.phase o.other.front) }
    ensures some { IfOk result (λ o. (is_empty o.one.front ≡ false) × (is_empty o.other.front ≡ false)) }
    ensures saw { IfOk result (λ o. IsFoldOfAll J.terms.ops o.whole o.one.seen × IsFoldOfAll J.terms.ops o.whole o.other.seen) }
{
    let pair = registered(rt, &lock, front)?;
    let (one, other) = met(rt, alloc, &lock, parkers, pair)?;
    let mut one = one;
    let mut other = other;
    let mut cell = lock.into_cell();
    cell.includes(&mut one.front);
    cell.includes(&mut one.later);
    cell.includes(&mut other.front);
    cell.includes(&mut other.later);
    let whole = cell.front();
    whole.is_legal();
    Ok(Outcome { one, other, whole })
}

/// What both see of a phaser of this name.
fn named<J: Naming + Send + Sync, R: Threads + Wait + Sync>(
    rt: &R,
    alloc: Global,
    ops: Ops,
    bound: Bound,
    whole: Whole<LongEvent>,
) -> Result<(LongLook, LongLook), Refusal>
    requires name { whole.name ≡ J.log }
    requires empty { whole.items ≡ [] }
    requires terms { J.terms ≡ record { ops = ops; bound = Some bound } }
    ensures { IfOk result (λ looks. AreFoldsOfAll J.terms looks.0 looks.1) }
{
    let parkers = [Parker::new(), Parker::new()];
    let (lock, front) = LongLock::<J, &Parker>::new(alloc, ops, bound, whole)?;
    let outcome = both(rt, alloc, lock, &parkers, front)?;
    outcome.whole.is_legal();
    Ok((outcome.one.seen, outcome.other.seen))
}

/// What the two tasks see of a new phaser with one sum: if no call was refused, each sees the fold
/// of all values that were ever sent for a phase that was closed then, in one legal history.
pub fn run<R: Threads + Wait + Sync>(
    rt: &R,
    alloc: Global,
    bound: Bound,
) -> Result<(LongLook, LongLook), Refusal>
    ensures { IfOk result (λ looks. AreFoldsOfAll (record { ops = Sum ∷ []; bound = Some bound }) looks.0 looks.1) }
{
    let mut one_sum = Ops::none();
    one_sum.push(Op::Sum);
    named::<Brand, R>(rt, alloc, one_sum, bound, Whole::new())
}
