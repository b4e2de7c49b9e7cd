//! A phaser of a table, while its lock is held.
ghost use Rattle.std.specs.Prelude.{◌≡◌, [], true, false, IfOk, OnErr, is_ok, ℤ};
ghost use Rattle.phase_modes.specs.Mode.{can_wait};
ghost use Rattle.phase_model.specs.Amounts.{plus};
ghost use Rattle.phase_model.specs.declared.call.Call.TheVariants.{Make as make, Register as register, Signal as signal, Pass as pass, SingleDone as single_done, Send as send, Look as look, Drop as drop_task};
ghost use Rattle.phase_model.specs.Phases.{IsClosed};
ghost use Rattle.phase_model.specs.Replies.{reply, after, done_result};
ghost use Rattle.phase_model.specs.Tasks.{has_mode};
ghost use Rattle.phase_model.specs.Answers.{signal_result, pass_result, look_result, made_with};
ghost use Rattle.phaser_core.specs.Parking.{is_parked, waiting, freed, parking, has_to_wait, goes_on, answered, IsBack, has_signalled, is_held, signal_answered, IsBackFromSignal};
ghost use Rattle.phaser_cell.specs.Amounts.{amount_if};
ghost use Rattle.long_locks.specs.Told.{IsSignalAnswer, IsPassAnswer, IfPassed, HasLooked};
ghost use Rattle.told_history.specs.Stories.{GoesOn, IsAnswered, IsMade};

use crate::caller::Caller;
use crate::cell::ReceiptCell;
use crate::front::Front;
use crate::naming::Naming;
use phase_model::{Event, Look, Terms};
use phase_modes::{Mode, Refusal};
use phaser_cell::{Locked, ParkedCall, PassAnswer, SignalAnswer};
use share_book::Books;
use std::marker::Model;
use std::sync::{Mutex, MutexGuard, Wait};

/// A phaser of a table, whose lock is held until this is dropped: for calls that no other may come
/// between. Contracts see its number, its story, and who is parked there.
///
/// Each call is the phaser's own, with its refusals. It adds the event that its answer tells, and
/// nothing else: its clause `added`. Its clause `told` says what the caller was answered: the
/// phaser's reply, at a place of its one history, which `me` has now seen. A call takes the books'
/// lock for its one post.
#[derive(Drop)]
pub struct LockedPhaser<'a, T, K: Naming> {
    cell: MutexGuard<'a, ReceiptCell<T, K>>,
    books: &'a Mutex<Books<K>>,
}

impl<'a, T, K: Naming> Model for LockedPhaser<'a, T, K> {
    ghost use Rattle.table_receipts.specs.Behind.{Behind};

    ghost Value = { Behind T };

    ghost view = { λ p. record { number = p.cell.value.number; story = p.cell.value.cell.state.story; parked = p.cell.value.cell.parked.items } };
}

impl<'a, T, K: Naming> LockedPhaser<'a, T, K> {
    pub(crate) fn of(
        cell: MutexGuard<'a, ReceiptCell<T, K>>,
        books: &'a Mutex<Books<K>>,
    ) -> LockedPhaser<'a, T, K>
        ensures { result.number ≡ cell.entry.value.number }
    {
        LockedPhaser { cell, books }
    }

    /// All that was done so far, as seen now.
    #[inline(always)]
    pub fn front(&mut self) -> Front<K>
        ensures same { self.new ≡ self.old }
        ensures log { result.log ≡ K.Logs.logs self.old.number }
        ensures all { result.story ≡ self.old.story }
    {
        self.cell.log.front()
    }

    /// What was seen is a beginning of it.
    #[inline(always)]
    pub fn includes(&mut self, seen: &mut Front<K>)
        requires { seen.old.log ≡ K.Logs.logs self.old.number }
        ensures same { (self.new ≡ self.old) × (seen.new ≡ seen.old) }
        ensures begins { GoesOn seen.old.story self.old.story }
    {
        self.cell.log.includes(seen);
    }

    /// The phaser's `make_with`, with its refusals: makes it with these operators and this bound.
    #[inline(always)]
    pub fn make<R: Wait>(
        &mut self,
        by: &mut Caller<'_, T, K, R>,
        me: &mut Front<K>,
        task: u32,
        mode: Mode,
        terms: &Terms,
    ) -> Result<(), Refusal>
        requires log { me.old.log ≡ K.Logs.logs self.old.number }
        ensures told { IsMade result (make task mode) terms.now me.old.story me.new.story }
        ensures parked { self.new.parked ≡ self.old.parked }
        ensures added { self.new.story ≡ made_with self.old.story terms.now (reply self.old.story (make task mode)) }
        ensures now { me.new.story ≡ self.new.story }
        ensures log { me.new.log ≡ me.old.log }
        ensures number { self.new.number ≡ self.old.number }
        ensures mine { by.new.mine ≡ plus (amount_if (is_ok result) (Event.Make task mode)) by.old.mine }
        ensures out { by.new.out ≡ by.old.out }
    {
        let ReceiptCell { cell, log, .. } = &mut *self.cell;
        let mut books = Locked {
            rt: by.rt,
            books: self.books,
        };
        log.includes(me);
        let before = cell.state.history().len();
        let answer = cell.make(
            by.tickets,
            &mut books,
            &mut by.mine,
            task,
            mode,
            terms.ops,
            terms.bound,
        );
        log.follow(cell.state.history(), before);
        *me = log.front();
        answer
    }

    /// The phaser's `register`, with its refusals.
    #[inline(always)]
    pub fn register<R: Wait>(
        &mut self,
        by: &mut Caller<'_, T, K, R>,
        me: &mut Front<K>,
        parent: u32,
        child: u32,
        mode: Mode,
    ) -> Result<(), Refusal>
        requires log { me.old.log ≡ K.Logs.logs self.old.number }
        ensures told { IsAnswered (λ _ r. result ≡ done_result r) (register parent child mode) me.old.story me.new.story }
        ensures parked { self.new.parked ≡ self.old.parked }
        ensures added { self.new.story ≡ after self.old.story (reply self.old.story (register parent child mode)) }
        ensures now { me.new.story ≡ self.new.story }
        ensures log { me.new.log ≡ me.old.log }
        ensures number { self.new.number ≡ self.old.number }
        ensures mine { by.new.mine ≡ plus (amount_if (is_ok result) (Event.Reg parent child mode)) by.old.mine }
        ensures out { by.new.out ≡ by.old.out }
    {
        let ReceiptCell { cell, log, .. } = &mut *self.cell;
        let mut books = Locked {
            rt: by.rt,
            books: self.books,
        };
        log.includes(me);
        let before = cell.state.history().len();
        let answer = cell.register(by.tickets, &mut books, &mut by.mine, parent, child, mode);
        log.follow(cell.state.history(), before);
        *me = log.front();
        answer
    }

    /// The phaser's `send`, with its refusals.
    #[inline(always)]
    pub fn send<R: Wait>(
        &mut self,
        by: &mut Caller<'_, T, K, R>,
        me: &mut Front<K>,
        task: u32,
        accumulator: u8,
        value: i32,
    ) -> Result<(), Refusal>
        requires log { me.old.log ≡ K.Logs.logs self.old.number }
        ensures told { IsAnswered (λ _ r. result ≡ done_result r) (send task accumulator value) me.old.story me.new.story }
        ensures parked { self.new.parked ≡ self.old.parked }
        ensures added { self.new.story ≡ after self.old.story (reply self.old.story (send task accumulator value)) }
        ensures now { me.new.story ≡ self.new.story }
        ensures log { me.new.log ≡ me.old.log }
        ensures number { self.new.number ≡ self.old.number }
        ensures mine { by.new.mine ≡ plus (amount_if (is_ok result) (Event.Send task accumulator value)) by.old.mine }
        ensures out { by.new.out ≡ by.old.out }
    {
        let ReceiptCell { cell, log, .. } = &mut *self.cell;
        let mut books = Locked {
            rt: by.rt,
            books: self.books,
        };
        log.includes(me);
        let before = cell.state.history().len();
        let answer = cell.send(
            by.tickets,
            &mut books,
            &mut by.mine,
            task,
            accumulator,
            value,
        );
        log.follow(cell.state.history(), before);
        *me = log.front();
        answer
    }

    /// The phaser's `look`, with its refusals. What was seen is the fold of all values that were sent for
    /// the phase before the task's own, which was closed.
    #[inline(always)]
    pub fn look<R: Wait>(
        &mut self,
        by: &mut Caller<'_, T, K, R>,
        me: &mut Front<K>,
        task: u32,
        accumulator: u8,
    ) -> Result<Look, Refusal>
        requires log { me.old.log ≡ K.Logs.logs self.old.number }
        ensures told { IsAnswered (λ _ r. result ≡ look_result r) (look task accumulator) me.old.story me.new.story }
        ensures seen { IfOk result (λ x. HasLooked me.new.story.terms.ops task accumulator me.new.story.past x) }
        ensures parked { self.new.parked ≡ self.old.parked }
        ensures added { self.new.story ≡ after self.old.story (reply self.old.story (look task accumulator)) }
        ensures now { me.new.story ≡ self.new.story }
        ensures log { me.new.log ≡ me.old.log }
        ensures number { self.new.number ≡ self.old.number }
        ensures mine { (x : Look ℤ) → by.new.mine ≡ plus (amount_if (is_ok result) (Event.Look task accumulator x)) by.old.mine }
        ensures out { by.new.out ≡ by.old.out }
    {
        let ReceiptCell { cell, log, .. } = &mut *self.cell;
        let mut books = Locked {
            rt: by.rt,
            books: self.books,
        };
        log.includes(me);
        let before = cell.state.history().len();
        let answer = cell.look(by.tickets, &mut books, &mut by.mine, task, accumulator);
        log.follow(cell.state.history(), before);
        *me = log.front();
        me.is_legal();
        answer
    }

    /// The phaser's `signal`, with its refusals. The item comes back, or it is parked; those whom it
    /// wakes are put into `out`.
    #[inline(always)]
    pub fn signal<R: Wait>(
        &mut self,
        by: &mut Caller<'_, T, K, R>,
        me: &mut Front<K>,
        task: u32,
        number: Option<u32>,
        item: T,
    ) -> SignalAnswer<T>
        requires log { me.old.log ≡ K.Logs.logs self.old.number }
        requires empty { by.old.out ≡ [] }
        ensures told { IsAnswered (λ _ r. IsSignalAnswer item (signal_result r) result) (signal task number) me.old.story me.new.story }
        ensures item { IsBackFromSignal item result }
        ensures out { by.new.out ≡ freed self.new.story self.old.parked }
        ensures nobody { has_signalled result ≡ false → by.new.out ≡ [] }
        ensures added { self.new.story ≡ after self.old.story (reply self.old.story (signal task number)) }
        ensures now { me.new.story ≡ self.new.story }
        ensures parked { self.new.parked ≡ parking (is_held (signal_answered self.old.story task number))
            (is_parked task self.old.parked)
            (record { task = task; call = ParkedCall.Signal number; item = item })
            (waiting self.new.story self.old.parked) }
        ensures log { me.new.log ≡ me.old.log }
        ensures number { self.new.number ≡ self.old.number }
        ensures mine { by.new.mine ≡ plus (amount_if (has_signalled result) (Event.Sig task number)) by.old.mine }
    {
        let ReceiptCell { cell, log, .. } = &mut *self.cell;
        let mut books = Locked {
            rt: by.rt,
            books: self.books,
        };
        log.includes(me);
        let before = cell.state.history().len();
        let answer = cell.signal(
            by.tickets,
            &mut books,
            &mut by.mine,
            &mut by.out,
            task,
            number,
            item,
        );
        log.follow(cell.state.history(), before);
        *me = log.front();
        answer
    }

    /// The phaser's `pass`, with its refusals. The item comes back, or it is parked; those whom it wakes
    /// are put into `out`. If a task that can wait has passed a phase, each who was registered
    /// then, and can signal, had signalled that phase.
    #[inline(always)]
    pub fn pass<R: Wait>(
        &mut self,
        by: &mut Caller<'_, T, K, R>,
        me: &mut Front<K>,
        task: u32,
        item: T,
    ) -> PassAnswer<T>
        requires log { me.old.log ≡ K.Logs.logs self.old.number }
        requires empty { by.old.out ≡ [] }
        ensures told { IsAnswered (λ h r. IsPassAnswer item (pass_result h r) result) (pass task) me.old.story me.new.story }
        ensures closed { IfPassed result (λ p. has_mode can_wait task me.new.story.past ≡ true → IsClosed p me.new.story.past) }
        ensures item { IsBack item result }
        ensures out { by.new.out ≡ freed self.new.story self.old.parked }
        ensures nobody { goes_on result ≡ false → by.new.out ≡ [] }
        ensures added { self.new.story ≡ after self.old.story (reply self.old.story (pass task)) }
        ensures now { me.new.story ≡ self.new.story }
        ensures parked { self.new.parked ≡ parking (has_to_wait (answered self.old.story task))
            (is_parked task self.old.parked)
            (record { task = task; call = ParkedCall.Pass; item = item })
            (waiting self.new.story self.old.parked) }
        ensures log { me.new.log ≡ me.old.log }
        ensures number { self.new.number ≡ self.old.number }
        ensures mine { by.new.mine ≡ plus (amount_if (goes_on result) (Event.Pass task)) by.old.mine }
    {
        let ReceiptCell { cell, log, .. } = &mut *self.cell;
        let mut books = Locked {
            rt: by.rt,
            books: self.books,
        };
        log.includes(me);
        let before = cell.state.history().len();
        let answer = cell.pass(
            by.tickets,
            &mut books,
            &mut by.mine,
            &mut by.out,
            task,
            item,
        );
        log.follow(cell.state.history(), before);
        *me = log.front();
        me.is_legal();
        answer
    }

    /// The phaser's `single_done`, with its refusals. Those whom it wakes are put into `out`.
    #[inline(always)]
    pub fn single_done<R: Wait>(
        &mut self,
        by: &mut Caller<'_, T, K, R>,
        me: &mut Front<K>,
        task: u32,
    ) -> Result<(), Refusal>
        requires log { me.old.log ≡ K.Logs.logs self.old.number }
        requires empty { by.old.out ≡ [] }
        ensures told { IsAnswered (λ _ r. result ≡ done_result r) (single_done task) me.old.story me.new.story }
        ensures out { by.new.out ≡ freed self.new.story self.old.parked }
        ensures refused { OnErr result (by.new.out ≡ []) }
        ensures added { self.new.story ≡ after self.old.story (reply self.old.story (single_done task)) }
        ensures now { me.new.story ≡ self.new.story }
        ensures parked { self.new.parked ≡ waiting self.new.story self.old.parked }
        ensures log { me.new.log ≡ me.old.log }
        ensures number { self.new.number ≡ self.old.number }
        ensures mine { by.new.mine ≡ plus (amount_if (is_ok result) (Event.Did task)) by.old.mine }
    {
        let ReceiptCell { cell, log, .. } = &mut *self.cell;
        let mut books = Locked {
            rt: by.rt,
            books: self.books,
        };
        log.includes(me);
        let before = cell.state.history().len();
        let answer = cell.single_done(by.tickets, &mut books, &mut by.mine, &mut by.out, task);
        log.follow(cell.state.history(), before);
        *me = log.front();
        answer
    }

    /// The phaser's `drop_task`, with its refusals. Those whom it wakes are put into `out`.
    #[inline(always)]
    pub fn drop_task<R: Wait>(
        &mut self,
        by: &mut Caller<'_, T, K, R>,
        me: &mut Front<K>,
        task: u32,
    ) -> Result<(), Refusal>
        requires log { me.old.log ≡ K.Logs.logs self.old.number }
        requires empty { by.old.out ≡ [] }
        ensures told { IsAnswered (λ _ r. result ≡ done_result r) (drop_task task) me.old.story me.new.story }
        ensures out { by.new.out ≡ freed self.new.story self.old.parked }
        ensures refused { OnErr result (by.new.out ≡ []) }
        ensures added { self.new.story ≡ after self.old.story (reply self.old.story (drop_task task)) }
        ensures now { me.new.story ≡ self.new.story }
        ensures parked { self.new.parked ≡ waiting self.new.story self.old.parked }
        ensures log { me.new.log ≡ me.old.log }
        ensures number { self.new.number ≡ self.old.number }
        ensures mine { by.new.mine ≡ plus (amount_if (is_ok result) (Event.Drop task)) by.old.mine }
    {
        let ReceiptCell { cell, log, .. } = &mut *self.cell;
        let mut books = Locked {
            rt: by.rt,
            books: self.books,
        };
        log.includes(me);
        let before = cell.state.history().len();
        let answer = cell.drop_task(by.tickets, &mut books, &mut by.mine, &mut by.out, task);
        log.follow(cell.state.history(), before);
        *me = log.front();
        answer
    }
}
