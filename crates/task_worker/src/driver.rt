//! How a worker drives a task, event by event.
ghost use Rattle.std.specs.Prelude.{◌≡◌, IfOk, IfErr, option_map, slice_get};
ghost use Rattle.tasks_in_flight.specs.Refused.{IsRunRefused};
ghost use Rattle.tasks_in_flight.specs.inner.GoingOn.{IfGoesOn, GoesBy, HasGoneOn, given_up};
ghost use Rattle.task_worker.specs.inner.Driven.{Replies};
ghost use Rattle.task_worker.specs.inner.Posted.{PostsAtMost, most_posted};
ghost use Rattle.task_queue.specs.Accounts.{IsSeatOf};
ghost use Rattle.task_standing.specs.StillToMake.{event_of};
ghost use Rattle.tasks_in_flight.specs.inner.Due.{still_of};
ghost use Rattle.tasks_in_flight.specs.inner.Ready.{IsDue};

use crate::worker::{Busy, Shared, Worker};
use phase_modes::{FinishNumber, Pair, PhaserNumber, Refusal, TaskNumber};
use phaser_cell::{PassAnswer, SignalAnswer};
use scope_locks::ShutAnswer;
use std::sync::Wait;
use task_standing::Due;
use tasks_in_flight::{Body, Gate, Item, RootLeft, RunNaming, Task, TaskLeft, told};

/// How many steps and events of a task a worker makes before it takes another, if there is one. A
/// task that parks or ends makes fewer. So the queue is asked once for many events, and whoever
/// stands in it comes on soon.
const STRETCH: u32 = 64;

/// A task that goes on; none if it is parked or has ended.
type Next<B, K> = Option<Item<B, K>>;

impl<B: Body, K: RunNaming> Shared<B, K> {
    /// The task gives up by this refusal, if its event may be refused by it.
    fn give_up(
        &self,
        item: Item<B, K>,
        refusal: Refusal,
        may_fail: bool,
    ) -> Result<Next<B, K>, Refusal>
        ensures { IfGoesOn result (λ next. next.task.value.standing ≡ given_up item.task.value.standing) }
    {
        let mut item = item;
        if !may_fail {
            return Err(refusal);
        }
        self.fail(&mut item.task, refusal)?;
        Ok(Some(item))
    }

    /// A task that is parked signals again once it is woken: its signal is still due.
    fn signal<R: Wait>(
        &self,
        busy: &mut Busy<'_, B, K, R>,
        item: Item<B, K>,
        phaser: u32,
        number: Option<u32>,
    ) -> Result<Next<B, K>, Refusal>
        requires { IsDue (event_of item.task.value.standing.number (Due.Signal phaser number)) item.task.value.standing }
        ensures made { IfGoesOn result (λ next. GoesBy (Replies item.task.value.fronts) (Due.Signal phaser number)
            item.task.value.standing next.task.value.standing) }
        ensures seat { IsSeatOf busy.old.hand.seat busy.new.hand.seat }
        ensures posted { PostsAtMost 1 busy.old.by.mine busy.new.by.mine }
    {
        match self.signal_on(busy, item, phaser, number)? {
            SignalAnswer::Signalled(signalled) => Ok(Some(signalled)),
            SignalAnswer::Parked => Ok(None),
            SignalAnswer::Refused(item, refusal) => {
                let may_fail = matches!(refusal, Refusal::SingleMismatch | Refusal::HistoryFull);
                self.give_up(item, refusal, may_fail)
            }
        }
    }

    /// Runs the statement that the task has claimed, and reports it done. The pass comes again.
    fn run_single<R: Wait>(
        &self,
        busy: &mut Busy<'_, B, K, R>,
        item: Item<B, K>,
        phaser: u32,
        number: u32,
    ) -> Result<Next<B, K>, Refusal>
        ensures seat { IsSeatOf busy.old.hand.seat busy.new.hand.seat }
        ensures posted { PostsAtMost 1 busy.old.by.mine busy.new.by.mine }
        ensures ran { IfGoesOn result (λ next. B.Body.ran item.task.value.body number next.task.value.body) }
        ensures standing { IfGoesOn result (λ next. next.task.value.standing ≡ item.task.value.standing) }
    {
        let mut item = item;
        item.task.run_single(number);
        self.report_on(busy, &mut item.task, phaser)?;
        Ok(Some(item))
    }

    fn pass<R: Wait>(
        &self,
        busy: &mut Busy<'_, B, K, R>,
        item: Item<B, K>,
        phaser: u32,
    ) -> Result<Next<B, K>, Refusal>
        requires { IsDue (event_of item.task.value.standing.number (Due.Pass phaser)) item.task.value.standing }
        ensures made { IfGoesOn result (λ next. GoesBy (Replies item.task.value.fronts) (Due.Pass phaser)
            item.task.value.standing next.task.value.standing) }
        ensures seat { IsSeatOf busy.old.hand.seat busy.new.hand.seat }
        ensures posted { PostsAtMost 2 busy.old.by.mine busy.new.by.mine }
    {
        match self.pass_on(busy, item, phaser)? {
            PassAnswer::Passed(passed, _) => Ok(Some(passed)),
            PassAnswer::Claimed(item, number) => self.run_single(busy, item, phaser, number),
            PassAnswer::Parked => Ok(None),
            PassAnswer::Refused(item, refusal) => {
                let may_fail = matches!(refusal, Refusal::HistoryFull);
                self.give_up(item, refusal, may_fail)
            }
        }
    }

    fn register<R: Wait>(
        &self,
        busy: &mut Busy<'_, B, K, R>,
        item: Item<B, K>,
        child: u32,
        pair: Pair,
    ) -> Result<Next<B, K>, Refusal>
        ensures made { IfGoesOn result (λ next. GoesBy (Replies item.task.value.fronts) (Due.Register child pair)
            item.task.value.standing next.task.value.standing) }
        ensures seat { IsSeatOf busy.old.hand.seat busy.new.hand.seat }
        ensures posted { PostsAtMost 1 busy.old.by.mine busy.new.by.mine }
    {
        let mut item = item;
        match self.register_on(&mut busy.by, &mut item.task, child, pair) {
            Ok(()) => {
                item.note_registration(pair)?;
                Ok(Some(item))
            }
            Err(refusal) => {
                let may_fail = matches!(refusal, Refusal::RegsFull | Refusal::HistoryFull);
                self.give_up(item, refusal, may_fail)
            }
        }
    }

    /// The child is born, and any worker may run it.
    fn bear<R: Wait>(
        &self,
        busy: &mut Busy<'_, B, K, R>,
        item: Item<B, K>,
        child: TaskNumber,
        finish: FinishNumber,
    ) -> Result<Next<B, K>, Refusal>
        requires { IsDue (event_of item.task.value.standing.number (Due.Spawn child finish)) item.task.value.standing }
        ensures made { IfGoesOn result (λ next. GoesBy (Replies item.task.value.fronts) (Due.Spawn child finish)
            item.task.value.standing next.task.value.standing) }
        ensures seat { IsSeatOf busy.old.hand.seat busy.new.hand.seat }
        ensures mine { busy.new.by.mine ≡ busy.old.by.mine }
    {
        let Item { task, unborn } = item;
        let mut task = task;
        let Some(born) = unborn else {
            return Err(Refusal::NotNow);
        };
        self.spawn_on(busy.by.rt, child, finish)?;
        task.bore();
        busy.hand.give(busy.by.rt, &self.queue, Item::of(born))?;
        Ok(Some(Item::of(task)))
    }

    /// The task leaves a phaser.
    fn leave<R: Wait>(
        &self,
        busy: &mut Busy<'_, B, K, R>,
        item: Item<B, K>,
        phaser: u32,
    ) -> Result<Next<B, K>, Refusal>
        requires { IsDue (event_of item.task.value.standing.number (Due.Leave phaser)) item.task.value.standing }
        ensures made { IfGoesOn result (λ next. GoesBy (Replies item.task.value.fronts) (Due.Leave phaser)
            item.task.value.standing next.task.value.standing) }
        ensures seat { IsSeatOf busy.old.hand.seat busy.new.hand.seat }
        ensures posted { PostsAtMost 1 busy.old.by.mine busy.new.by.mine }
    {
        let mut item = item;
        let leaver = TaskNumber::of(item.task.number());
        self.drop_on(busy, &mut item.task, PhaserNumber::of(phaser), leaver)?;
        item.task.left(phaser);
        Ok(Some(item))
    }

    /// The unborn child is taken off a phaser.
    fn drop_child<R: Wait>(
        &self,
        busy: &mut Busy<'_, B, K, R>,
        item: Item<B, K>,
        phaser: PhaserNumber,
        child: TaskNumber,
    ) -> Result<Next<B, K>, Refusal>
        ensures made { IfGoesOn result (λ next. GoesBy (Replies item.task.value.fronts) (Due.DropChild phaser child)
            item.task.value.standing next.task.value.standing) }
        ensures seat { IsSeatOf busy.old.hand.seat busy.new.hand.seat }
        ensures posted { PostsAtMost 1 busy.old.by.mine busy.new.by.mine }
    {
        let mut item = item;
        // No clause says that a child has a number of its own.
        if child.get() == item.task.number() {
            return Err(Refusal::NotNow);
        }
        self.drop_on(busy, &mut item.task, phaser, child)?;
        item.note_child_gone(phaser.get());
        Ok(Some(item))
    }

    fn shut<R: Wait>(&self, rt: &R, item: Item<B, K>, finish: u32) -> Result<Next<B, K>, Refusal>
        ensures made { IfGoesOn result (λ next. GoesBy (Replies item.task.value.fronts) (Due.Shut finish)
            item.task.value.standing next.task.value.standing) }
    {
        // Nor that finish 0 is shut by the root's end alone.
        if finish == 0 {
            return Err(Refusal::NotNow);
        }
        match self.shut_on(rt, item, finish) {
            ShutAnswer::Done(shut) => {
                let mut item = shut;
                item.task.shut();
                Ok(Some(item))
            }
            ShutAnswer::Parked => Ok(None),
            ShutAnswer::Refused(_, refusal) => Err(refusal),
        }
    }

    /// The task ends, and leaves its log and what it has seen in the finish in which it was spawned.
    fn end<R: Wait>(
        &self,
        busy: &mut Busy<'_, B, K, R>,
        item: Item<B, K>,
        finish: u32,
    ) -> Result<Next<B, K>, Refusal>
        ensures over { IfGoesOn result (λ _. ⊥) }
        ensures seat { IsSeatOf busy.old.hand.seat busy.new.hand.seat }
        ensures mine { busy.new.by.mine ≡ busy.old.by.mine }
    {
        let Item { task, unborn: _ } = item;
        let number = task.number();
        let Task { fronts, log, .. } = Box::into_inner(task);
        let left = TaskLeft { log, fronts };
        self.end_on(busy, number, left, finish)?;
        Ok(None)
    }

    /// The root shuts finish 0: the run is over, and what the root leaves is its worker's.
    fn close<R: Wait>(
        &self,
        busy: &mut Busy<'_, B, K, R>,
        item: Item<B, K>,
    ) -> Result<Next<B, K>, Refusal>
        ensures over { IfGoesOn result (λ _. ⊥) }
        ensures seat { IsSeatOf busy.old.hand.seat busy.new.hand.seat }
        ensures mine { busy.new.by.mine ≡ busy.old.by.mine }
    {
        match self.shut_on(busy.by.rt, item, 0) {
            ShutAnswer::Done(item) => {
                let Item { task, unborn: _ } = item;
                let Task {
                    body,
                    fronts,
                    log,
                    ..
                } = Box::into_inner(task);
                // No clause says that a lock gives back who was parked there.
                if log.task() > 0 {
                    return Err(Refusal::NotNow);
                }
                let left = TaskLeft { log, fronts };
                let root = RootLeft { left, body };
                busy.root = Some(root);
                self.queue.close(busy.by.rt);
                Ok(None)
            }
            ShutAnswer::Parked => Ok(None),
            ShutAnswer::Refused(_, refusal) => Err(refusal),
        }
    }

    /// Makes the event that comes next, or asks the body for an act.
    fn go_on<G: Gate, R: Wait>(
        &self,
        gate: &G,
        busy: &mut Busy<'_, B, K, R>,
        item: Item<B, K>,
    ) -> Result<Next<B, K>, Refusal>
        ensures goes { IfGoesOn result (λ next. HasGoneOn (Replies item.task.value.fronts)
            (option_map (λ c. c.value.standing) item.unborn) item.task.value.standing next.task.value.standing) }
        ensures seat { IsSeatOf busy.old.hand.seat busy.new.hand.seat }
        ensures posted { PostsAtMost (most_posted (slice_get (still_of item.task.value.standing
            (option_map (λ c. c.value.standing) item.unborn)) 0)) busy.old.by.mine busy.new.by.mine }
    {
        let mut item = item;
        match item.due() {
            Due::Step => {
                self.step(gate, busy, &mut item)?;
                Ok(Some(item))
            }
            Due::Signal(phaser, number) => self.signal(busy, item, phaser, number),
            Due::Pass(phaser) => self.pass(busy, item, phaser),
            Due::Register(child, pair) => self.register(busy, item, child, pair),
            Due::Spawn(child, finish) => {
                self.bear(busy, item, TaskNumber::of(child), FinishNumber::of(finish))
            }
            Due::DropChild(phaser, child) => {
                self.drop_child(busy, item, PhaserNumber::of(phaser), TaskNumber::of(child))
            }
            Due::Leave(phaser) => self.leave(busy, item, phaser),
            Due::Shut(finish) => self.shut(busy.by.rt, item, finish),
            Due::End(finish) => self.end(busy, item, finish),
            Due::Close => self.close(busy, item),
        }
    }

    /// Drives the task until it parks or ends, or for as long as a stretch is; then it waits in the
    /// queue for its next one.
    fn drive<G: Gate, R: Wait>(
        &self,
        gate: &G,
        busy: &mut Busy<'_, B, K, R>,
        item: Item<B, K>,
    ) -> Result<(), Refusal>
        ensures seat { IsSeatOf busy.old.hand.seat busy.new.hand.seat }
    {
        let mut driven = item;
        for _event in 0..STRETCH {
            match self.go_on(gate, busy, driven)? {
                Some(item) => driven = item,
                None => return Ok(()),
            }
        }
        busy.hand.give(busy.by.rt, &self.queue, driven)
    }

    /// Takes tasks and drives them, until the queue is closed. If something is amiss, the queue
    /// is closed first, so that nobody waits at it for ever.
    pub fn work<G: Gate, R: Wait>(
        &self,
        rt: &R,
        gate: &G,
        worker: Worker<B, K>,
    ) -> Result<Worker<B, K>, Refusal>
        ensures seat { IfOk result (λ w. IsSeatOf worker.hand.seat w.hand.seat) }
        ensures refused { IfErr result (λ e. IsRunRefused e) }
    {
        let mut busy = Busy::of(rt, &self.tickets, worker);
        for _ in rt.forever() {
            let Some(item) = self.next(&mut busy) else {
                return Ok(busy.into_worker());
            };
            if let Err(refusal) = self.drive(gate, &mut busy, item) {
                self.queue.close(rt);
                return Err(told(refusal));
            }
        }
        unreachable!()
    }
}
