//! The calls on phasers and finishes behind their locks, by number. Those whom a call wakes are
//! given to the queue before it answers. A number past the tables is nobody's.
ghost use Rattle.std.specs.Prelude.{◌≡◌, Some, IfOk, OnOk, OnErr};
ghost use Rattle.world_model.specs.declared.event.Step.TheVariants.{Reg, Sig, Pass, Drop};
ghost use Rattle.world_model.specs.declared.event.WorldEvent.TheVariants.{Phaser};
ghost use Rattle.finish_core.specs.Shutting.{IsBackFromShut};
ghost use Rattle.task_queue.specs.Accounts.{IsSeatOf};
ghost use Rattle.tasks_in_flight.specs.Heard.{make, send, look};
ghost use Rattle.tasks_in_flight.specs.inner.Ready.{IsDue, seen_by};
ghost use Rattle.tasks_in_flight.specs.inner.GoingOn.{HasActed, IsOfSignal, IsOfPass};
ghost use Rattle.task_worker.specs.inner.Driven.{Replies};
ghost use Rattle.task_worker.specs.inner.Posted.{PostsAtMost};

use crate::worker::{Busy, Shared};
use phase_model::Terms;
use phase_modes::{FinishNumber, Mode, Pair, PhaserNumber, Refusal, TaskNumber};
use phaser_cell::{PassAnswer, SignalAnswer};
use scope_locks::ShutAnswer;
use std::sync::{Mutex, Wait};
use table_receipts::Caller;
use tasks_in_flight::{Body, Item, RunNaming, Task, TaskLeft};

impl<B: Body, K: RunNaming> Shared<B, K> {
    /// The body hears of the phaser that was made.
    pub(crate) fn make_on<R: Wait>(
        &self,
        by: &mut Caller<'_, Item<B, K>, K, R>,
        task: &mut Task<B, K>,
        phaser: u32,
        mode: Mode,
        terms: &Terms,
    ) -> Result<(), Refusal>
        requires says { ∥ (K.Supposing.supposed → B.Body.shows task.old.body task.old.log.task (make mode terms.now) (seen_by task.old.fronts task.old.standing task.old.log.log)) ∥₁ }
        ensures acted { OnOk result (HasActed (Replies task.old.fronts) task.old.standing task.new.standing) }
        ensures out { by.new.out ≡ by.old.out }
        ensures posted { PostsAtMost 1 by.old.mine by.new.mine }
    {
        let number = self.place(phaser, Refusal::PhasersFull)?;
        let maker = task.number();
        let mut me = task.front(number);
        self.phasers
            .lock(by.rt, number)
            .make(by, &mut me, maker, mode, terms)?;
        me.is_legal();
        task.made(phaser, mode, me)
    }

    pub(crate) fn register_on<R: Wait>(
        &self,
        by: &mut Caller<'_, Item<B, K>, K, R>,
        task: &mut Task<B, K>,
        child: u32,
        pair: Pair,
    ) -> Result<(), Refusal>
        ensures told { OnOk result (Replies task.old.fronts pair.phaser
            (Reg task.old.standing.number child pair.mode)) }
        ensures standing { task.new.standing ≡ task.old.standing }
        ensures out { by.new.out ≡ by.old.out }
        ensures posted { PostsAtMost 1 by.old.mine by.new.mine }
    {
        let number = self.place(pair.phaser, Refusal::NotRegistered)?;
        let parent = task.number();
        let mut me = task.front(number);
        self.phasers
            .lock(by.rt, number)
            .register(by, &mut me, parent, child, pair.mode)?;
        me.is_legal();
        task.registered(pair.phaser, me);
        Ok(())
    }

    /// The body hears that the value was sent.
    pub(crate) fn send_on<R: Wait>(
        &self,
        by: &mut Caller<'_, Item<B, K>, K, R>,
        task: &mut Task<B, K>,
        phaser: u32,
        accumulator: u8,
        value: i32,
    ) -> Result<(), Refusal>
        requires says { ∥ (K.Supposing.supposed → B.Body.shows task.old.body task.old.log.task (send phaser accumulator value) (seen_by task.old.fronts task.old.standing task.old.log.log)) ∥₁ }
        ensures acted { OnOk result (HasActed (Replies task.old.fronts) task.old.standing task.new.standing) }
        ensures refused { OnErr result (task.new.standing ≡ task.old.standing) }
        ensures out { by.new.out ≡ by.old.out }
        ensures posted { PostsAtMost 1 by.old.mine by.new.mine }
    {
        let number = self.place(phaser, Refusal::NotRegistered)?;
        let sender = task.number();
        let mut me = task.front(number);
        self.phasers
            .lock(by.rt, number)
            .send(by, &mut me, sender, accumulator, value)?;
        me.is_legal();
        task.sent(phaser, me);
        Ok(())
    }

    /// The body hears what was seen.
    pub(crate) fn look_on<R: Wait>(
        &self,
        by: &mut Caller<'_, Item<B, K>, K, R>,
        task: &mut Task<B, K>,
        phaser: u32,
        accumulator: u8,
    ) -> Result<(), Refusal>
        requires says { ∥ (K.Supposing.supposed → B.Body.shows task.old.body task.old.log.task (look phaser accumulator) (seen_by task.old.fronts task.old.standing task.old.log.log)) ∥₁ }
        ensures acted { OnOk result (HasActed (Replies task.old.fronts) task.old.standing task.new.standing) }
        ensures refused { OnErr result (task.new.standing ≡ task.old.standing) }
        ensures out { by.new.out ≡ by.old.out }
        ensures posted { PostsAtMost 1 by.old.mine by.new.mine }
    {
        let number = self.place(phaser, Refusal::NotRegistered)?;
        let reader = task.number();
        let mut me = task.front(number);
        let seen = self
            .phasers
            .lock(by.rt, number)
            .look(by, &mut me, reader, accumulator)?;
        me.is_legal();
        task.looked(phaser, me, seen);
        Ok(())
    }

    /// The item comes back, or it is parked.
    pub(crate) fn signal_on<R: Wait>(
        &self,
        busy: &mut Busy<'_, B, K, R>,
        item: Item<B, K>,
        phaser: u32,
        proposed: Option<u32>,
    ) -> Result<SignalAnswer<Item<B, K>>, Refusal>
        requires { IsDue (Some (Phaser phaser (Sig item.task.value.standing.number proposed))) item.task.value.standing }
        ensures told { IfOk result (IsOfSignal (λ i. i.task.value.standing) item.task.value.standing
            (Replies item.task.value.fronts) phaser (Sig item.task.value.standing.number proposed)) }
        ensures seat { IsSeatOf busy.old.hand.seat busy.new.hand.seat }
        ensures posted { PostsAtMost 1 busy.old.by.mine busy.new.by.mine }
    {
        let number = match self.place(phaser, Refusal::NotRegistered) {
            Ok(number) => number,
            Err(refusal) => return Ok(SignalAnswer::Refused(item, refusal)),
        };
        let mut item = item;
        let task = item.task.number();
        let mut me = item.task.front(number);
        let Busy { hand, by, .. } = busy;
        let answer = self
            .phasers
            .lock(by.rt, number)
            .signal(by, &mut me, task, proposed, item);
        me.is_legal();
        hand.flush(by.rt, &self.queue, &mut by.out)?;
        match answer {
            SignalAnswer::Signalled(signalled) => {
                let mut item = signalled;
                item.task.signalled(phaser, proposed, me);
                Ok(SignalAnswer::Signalled(item))
            }
            other => Ok(other),
        }
    }

    /// The item comes back, or it is parked.
    pub(crate) fn pass_on<R: Wait>(
        &self,
        busy: &mut Busy<'_, B, K, R>,
        item: Item<B, K>,
        phaser: u32,
    ) -> Result<PassAnswer<Item<B, K>>, Refusal>
        requires { IsDue (Some (Phaser phaser (Pass item.task.value.standing.number))) item.task.value.standing }
        ensures told { IfOk result (IsOfPass (λ i. i.task.value.standing) item.task.value.standing
            (Replies item.task.value.fronts) phaser item.task.value.standing.number) }
        ensures seat { IsSeatOf busy.old.hand.seat busy.new.hand.seat }
        ensures posted { PostsAtMost 1 busy.old.by.mine busy.new.by.mine }
    {
        let number = match self.place(phaser, Refusal::NotRegistered) {
            Ok(number) => number,
            Err(refusal) => return Ok(PassAnswer::Refused(item, refusal)),
        };
        let mut item = item;
        let task = item.task.number();
        let mut me = item.task.front(number);
        let Busy { hand, by, .. } = busy;
        let answer = self
            .phasers
            .lock(by.rt, number)
            .pass(by, &mut me, task, item);
        me.is_legal();
        hand.flush(by.rt, &self.queue, &mut by.out)?;
        match answer {
            PassAnswer::Passed(passed, phase) => {
                let mut item = passed;
                item.task.passed(phaser, me);
                Ok(PassAnswer::Passed(item, phase))
            }
            other => Ok(other),
        }
    }

    pub(crate) fn report_on<R: Wait>(
        &self,
        busy: &mut Busy<'_, B, K, R>,
        task: &mut Task<B, K>,
        phaser: u32,
    ) -> Result<(), Refusal>
        ensures seat { IsSeatOf busy.old.hand.seat busy.new.hand.seat }
        ensures posted { PostsAtMost 1 busy.old.by.mine busy.new.by.mine }
        ensures body { task.new.body ≡ task.old.body }
        ensures standing { task.new.standing ≡ task.old.standing }
    {
        let number = self.place(phaser, Refusal::NotRegistered)?;
        let reporter = task.number();
        let mut me = task.front(number);
        let Busy { hand, by, .. } = busy;
        self.phasers
            .lock(by.rt, number)
            .single_done(by, &mut me, reporter)?;
        hand.flush(by.rt, &self.queue, &mut by.out)
    }

    /// The task, or the child that it is spawning, leaves the phaser.
    pub(crate) fn drop_on<R: Wait>(
        &self,
        busy: &mut Busy<'_, B, K, R>,
        task: &mut Task<B, K>,
        phaser: PhaserNumber,
        leaver: TaskNumber,
    ) -> Result<(), Refusal>
        ensures told { OnOk result (Replies task.old.fronts phaser (Drop leaver)) }
        ensures standing { task.new.standing ≡ task.old.standing }
        ensures seat { IsSeatOf busy.old.hand.seat busy.new.hand.seat }
        ensures posted { PostsAtMost 1 busy.old.by.mine busy.new.by.mine }
    {
        let number = self.place(phaser.get(), Refusal::NotRegistered)?;
        let mut me = task.front(number);
        let Busy { hand, by, .. } = busy;
        self.phasers
            .lock(by.rt, number)
            .drop_task(by, &mut me, leaver.get())?;
        me.is_legal();
        hand.flush(by.rt, &self.queue, &mut by.out)
    }

    pub(crate) fn open_on<R: Wait>(
        &self,
        rt: &R,
        task: TaskNumber,
        finish: FinishNumber,
    ) -> Result<(), Refusal> {
        let number = self.finishes.place(finish.get(), Refusal::FinishesFull)?;
        self.finishes.opened(rt, number, &self.tickets, task.get())
    }

    pub(crate) fn spawn_on<R: Wait>(
        &self,
        rt: &R,
        child: TaskNumber,
        finish: FinishNumber,
    ) -> Result<(), Refusal> {
        let number = self.finishes.place(finish.get(), Refusal::NotNow)?;
        self.finishes
            .spawned(rt, number, &self.tickets, child.get())
    }

    pub(crate) fn end_on<R: Wait>(
        &self,
        busy: &mut Busy<'_, B, K, R>,
        task: u32,
        left: TaskLeft<K>,
        finish: u32,
    ) -> Result<(), Refusal>
        ensures seat { IsSeatOf busy.old.hand.seat busy.new.hand.seat }
        ensures mine { busy.new.by.mine ≡ busy.old.by.mine }
    {
        let number = self.finishes.place(finish, Refusal::NotNow)?;
        let Busy { hand, by, .. } = busy;
        let ended = self.finishes.ended(
            by.rt,
            number,
            &self.tickets,
            task,
            Mutex::new(left),
            &mut by.out,
        );
        hand.flush(by.rt, &self.queue, &mut by.out)?;
        match ended {
            Ok(()) => Ok(()),
            Err(_) => Err(Refusal::NotNow),
        }
    }

    /// The item comes back, or it is parked.
    pub(crate) fn shut_on<R: Wait>(
        &self,
        rt: &R,
        item: Item<B, K>,
        finish: u32,
    ) -> ShutAnswer<Item<B, K>>
        ensures item { IsBackFromShut item result }
    {
        let number = match self.finishes.place(finish, Refusal::NotNow) {
            Ok(number) => number,
            Err(refusal) => return ShutAnswer::Refused(item, refusal),
        };
        self.finishes.shut(rt, number, &self.tickets, item)
    }
}
