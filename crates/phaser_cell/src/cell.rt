//! What stands behind a phaser's lock.
ghost use Rattle.std.specs.Prelude.{◌≡◌, ◌+◌, ◌&&◌, ◌||◌, not, [], length, vec_len, vec_capacity, ◌<◌, ◌≤◌, true, false, IfOk, IfErr, OnErr, is_ok, is_some, ℤ};
ghost use Rattle.std.specs.VecDeque.{deque_len, deque_capacity};
ghost use Rattle.phase_modes.specs.Limits.{limits_fit};
ghost use Rattle.phase_model.specs.Amounts.{plus};
ghost use Rattle.phase_model.specs.declared.call.Call.TheVariants.{Make as make, Register as register, Signal as signal, Pass as pass, SingleDone as single_done, Send as send, Look as look, Drop as drop_task};
ghost use Rattle.phase_model.specs.Replies.{reply, after, done_result};
ghost use Rattle.phase_model.specs.Rules.{no_terms};
ghost use Rattle.phase_model.specs.Answers.{look_result, made_with};
ghost use Rattle.share_book.specs.Accounts.{nothing};
ghost use Rattle.phaser_cell.specs.Amounts.{amount_if};
ghost use Rattle.phaser_cell.specs.Cells.{IsKept};
ghost use Rattle.phaser_cell.specs.Drawn.{IsDrawn};
ghost use Rattle.phaser_core.specs.Parking.{is_parked, waiting, freed, locked_pass, parking, has_to_wait, goes_on, answered, IsBack, locked_signal, has_signalled, is_held, signal_answered, IsBackFromSignal};

use crate::posts::{Post, post_if};
use crate::tickets::Tickets;
use phase_model::{Bound, Event, Look, Ops};
use phase_modes::{Limits, Mode, Refusal};
use phaser_core::{
    Asked, Out, Parked, ParkedCall, PassAnswer, PhaserState, SignalAnswer, has_gone_on, is_made,
    is_phase_open, may_be_parked, may_come_near, may_leave, may_part_proposers, release_if,
    settle_pass, settle_signal,
};
use share_book::{Ledgers, PhaserBook, Shares};
use std::alloc::Global;
use std::collections::VecDeque;

/// A phaser, the tickets of its events, its book, and the items of those who wait for it, at most
/// one of each task.
///
/// The type keeps, at each moment that the phaser's lock is free, what the field `kept` says.
#[derive(Drop)]
pub struct PhaserCell<T, K: Ledgers> {
    pub state: PhaserState,
    /// One for each event of the history, the oldest first.
    pub drawn: Vec<u64>,
    pub book: PhaserBook<K>,
    pub parked: VecDeque<Parked<T>>,
    ghost kept: { IsKept state.story book parked.items },
    ghost ticketed: { vec_len drawn ≡ length state.story.past },
    ghost room_for_tickets: { state.story.limits.history ≤ vec_capacity drawn },
    ghost seats: { 256 ≤ deque_capacity parked },
    ghost seated: { deque_len parked ≤ 256 },
}

impl<T, K: Ledgers> PhaserCell<T, K> {
    /// The phaser's `make_with`, with its refusals: makes it with these operators and this bound.
    /// It wakes nobody.
    pub fn make<B: Post<K>>(
        &mut self,
        tickets: &Tickets,
        books: &mut B,
        mine: &mut Shares<K>,
        task: u32,
        mode: Mode,
        ops: Ops,
        bound: Option<Bound>,
    ) -> Result<(), Refusal>
        ensures reply { result ≡ done_result (reply self.old.state.story (make task mode)) }
        ensures history { self.new.state.story
            ≡ made_with self.old.state.story (record { ops = ops; bound = bound })
            (reply self.old.state.story (make task mode)) }
        ensures mine { mine.new ≡ plus (amount_if (is_ok result) (Event.Make task mode)) mine.old }
        ensures books { B.rose books.old books.new (amount_if (is_ok result) (Event.Make task mode)) }
        ensures tickets { IsDrawn (is_ok result) self.old.drawn.items self.new.drawn.items }
        ensures parked { self.new.parked ≡ self.old.parked }
    {
        let PhaserCell {
            state,
            drawn,
            book,
            ..
        } = self;
        let answer = state.make_with(task, mode, ops, bound);
        let event = Event::Make(task, mode);
        post_if(answer.is_ok(), tickets, drawn, book, books, mine, event);
        answer
    }

    /// The phaser's `register`, with its refusals. It wakes nobody.
    pub fn register<B: Post<K>>(
        &mut self,
        tickets: &Tickets,
        books: &mut B,
        mine: &mut Shares<K>,
        parent: u32,
        child: u32,
        mode: Mode,
    ) -> Result<(), Refusal>
        ensures reply { result ≡ done_result (reply self.old.state.story (register parent child mode)) }
        ensures history { self.new.state.story
            ≡ after self.old.state.story (reply self.old.state.story (register parent child mode)) }
        ensures mine { mine.new ≡ plus (amount_if (is_ok result) (Event.Reg parent child mode)) mine.old }
        ensures books { B.rose books.old books.new (amount_if (is_ok result) (Event.Reg parent child mode)) }
        ensures tickets { IsDrawn (is_ok result) self.old.drawn.items self.new.drawn.items }
        ensures parked { self.new.parked ≡ self.old.parked }
    {
        let PhaserCell {
            state,
            drawn,
            book,
            ..
        } = self;
        let answer = state.register(parent, child, mode);
        let event = Event::Reg(parent, child, mode);
        post_if(answer.is_ok(), tickets, drawn, book, books, mine, event);
        answer
    }

    /// The phaser's `send`, with its refusals. It wakes nobody.
    pub fn send<B: Post<K>>(
        &mut self,
        tickets: &Tickets,
        books: &mut B,
        mine: &mut Shares<K>,
        task: u32,
        accumulator: u8,
        value: i32,
    ) -> Result<(), Refusal>
        ensures reply { result ≡ done_result (reply self.old.state.story (send task accumulator value)) }
        ensures history { self.new.state.story
            ≡ after self.old.state.story (reply self.old.state.story (send task accumulator value)) }
        ensures mine { mine.new
            ≡ plus (amount_if (is_ok result) (Event.Send task accumulator value)) mine.old }
        ensures books { B.rose books.old books.new
            (amount_if (is_ok result) (Event.Send task accumulator value)) }
        ensures tickets { IsDrawn (is_ok result) self.old.drawn.items self.new.drawn.items }
        ensures parked { self.new.parked ≡ self.old.parked }
    {
        let PhaserCell {
            state,
            drawn,
            book,
            ..
        } = self;
        let answer = state.send(task, accumulator, value);
        let event = Event::Send(task, accumulator, value);
        post_if(answer.is_ok(), tickets, drawn, book, books, mine, event);
        answer
    }

    /// The phaser's `look`, with its refusals. It wakes nobody.
    pub fn look<B: Post<K>>(
        &mut self,
        tickets: &Tickets,
        books: &mut B,
        mine: &mut Shares<K>,
        task: u32,
        accumulator: u8,
    ) -> Result<Look, Refusal>
        ensures reply { result ≡ look_result (reply self.old.state.story (look task accumulator)) }
        ensures history { self.new.state.story
            ≡ after self.old.state.story (reply self.old.state.story (look task accumulator)) }
        ensures mine { (x : Look ℤ)
            → mine.new ≡ plus (amount_if (is_ok result) (Event.Look task accumulator x)) mine.old }
        ensures books { (x : Look ℤ)
            → B.rose books.old books.new (amount_if (is_ok result) (Event.Look task accumulator x)) }
        ensures tickets { IsDrawn (is_ok result) self.old.drawn.items self.new.drawn.items }
        ensures parked { self.new.parked ≡ self.old.parked }
    {
        let PhaserCell {
            state,
            drawn,
            book,
            ..
        } = self;
        let answer = state.look(task, accumulator);
        let seen = answer.unwrap_or(Look::Nothing);
        let event = Event::Look(task, accumulator, seen);
        post_if(answer.is_ok(), tickets, drawn, book, books, mine, event);
        answer
    }

    /// The phaser's `signal`, with its refusals; a task that is too far ahead of a waiter leaves its
    /// item here instead, or has it back with `NotNow` if it is parked already. The items of all
    /// whom it wakes are put into `out`.
    pub fn signal<B: Post<K>>(
        &mut self,
        tickets: &Tickets,
        books: &mut B,
        mine: &mut Shares<K>,
        out: &mut Out<T>,
        task: u32,
        number: Option<u32>,
        item: T,
    ) -> SignalAnswer<T>
        requires { out.old ≡ [] }
        ensures answer { result ≡ locked_signal (signal_answered self.old.state.story task number)
            (is_parked task self.old.parked.items) item }
        ensures history { self.new.state.story
            ≡ after self.old.state.story (reply self.old.state.story (signal task number)) }
        ensures mine { mine.new ≡ plus (amount_if (has_signalled result) (Event.Sig task number)) mine.old }
        ensures books { B.rose books.old books.new
            (amount_if (has_signalled result) (Event.Sig task number)) }
        ensures tickets { IsDrawn (has_signalled result) self.old.drawn.items self.new.drawn.items }
        ensures item { IsBackFromSignal item result }
        ensures parked { self.new.parked.items
            ≡ parking (is_held (signal_answered self.old.state.story task number))
            (is_parked task self.old.parked.items)
            (record { task = task; call = ParkedCall.Signal number; item = item })
            (waiting self.new.state.story self.old.parked.items) }
        ensures out { out.new ≡ freed self.new.state.story self.old.parked.items }
        ensures nobody { has_signalled result ≡ false → out.new ≡ [] }
    {
        let PhaserCell {
            state,
            drawn,
            book,
            parked,
        } = self;
        let others = may_part_proposers(state, number);
        let was_open = is_phase_open(state, parked);
        let answer = state.signal(task, number);
        let event = Event::Sig(task, number);
        post_if(is_made(answer), tickets, drawn, book, books, mine, event);
        let is_open = is_phase_open(state, parked);
        release_if(may_leave(others, was_open, is_open), state, parked, out);
        settle_signal(answer, parked, task as u64, number, item)
    }

    /// The phaser's `drop_task`, with its refusals. The items of all whom it wakes are put
    /// into `out`, the dropped task's own too if it was parked.
    pub fn drop_task<B: Post<K>>(
        &mut self,
        tickets: &Tickets,
        books: &mut B,
        mine: &mut Shares<K>,
        out: &mut Out<T>,
        task: u32,
    ) -> Result<(), Refusal>
        requires { out.old ≡ [] }
        ensures reply { result ≡ done_result (reply self.old.state.story (drop_task task)) }
        ensures history { self.new.state.story
            ≡ after self.old.state.story (reply self.old.state.story (drop_task task)) }
        ensures mine { mine.new ≡ plus (amount_if (is_ok result) (Event.Drop task)) mine.old }
        ensures books { B.rose books.old books.new (amount_if (is_ok result) (Event.Drop task)) }
        ensures tickets { IsDrawn (is_ok result) self.old.drawn.items self.new.drawn.items }
        ensures parked { self.new.parked.items ≡ waiting self.new.state.story self.old.parked.items }
        ensures out { out.new ≡ freed self.new.state.story self.old.parked.items }
        ensures refused { OnErr result (out.new ≡ []) }
    {
        let PhaserCell {
            state,
            drawn,
            book,
            parked,
        } = self;
        let own = may_be_parked(state, task as u64);
        let was_open = is_phase_open(state, parked);
        let answer = state.drop_task(task);
        let event = Event::Drop(task);
        post_if(answer.is_ok(), tickets, drawn, book, books, mine, event);
        let is_open = is_phase_open(state, parked);
        release_if(may_leave(own, was_open, is_open), state, parked, out);
        answer
    }

    /// The phaser's `single_done`, with its refusals. The items of all whom it wakes are put
    /// into `out`.
    pub fn single_done<B: Post<K>>(
        &mut self,
        tickets: &Tickets,
        books: &mut B,
        mine: &mut Shares<K>,
        out: &mut Out<T>,
        task: u32,
    ) -> Result<(), Refusal>
        requires { out.old ≡ [] }
        ensures reply { result ≡ done_result (reply self.old.state.story (single_done task)) }
        ensures history { self.new.state.story
            ≡ after self.old.state.story (reply self.old.state.story (single_done task)) }
        ensures mine { mine.new ≡ plus (amount_if (is_ok result) (Event.Did task)) mine.old }
        ensures books { B.rose books.old books.new (amount_if (is_ok result) (Event.Did task)) }
        ensures tickets { IsDrawn (is_ok result) self.old.drawn.items self.new.drawn.items }
        ensures parked { self.new.parked.items ≡ waiting self.new.state.story self.old.parked.items }
        ensures out { out.new ≡ freed self.new.state.story self.old.parked.items }
        ensures refused { OnErr result (out.new ≡ []) }
    {
        let PhaserCell {
            state,
            drawn,
            book,
            parked,
        } = self;
        let answer = state.single_done(task);
        let is_done = answer.is_ok();
        post_if(is_done, tickets, drawn, book, books, mine, Event::Did(task));
        release_if(is_done, state, parked, out);
        answer
    }

    /// The phaser's `pass`, with its refusals; a task that has to wait leaves its item here
    /// instead, or has it back with `NotNow` if it is parked already. The items of all whom it
    /// wakes are put into `out`: those who waited to signal, for the bound.
    pub fn pass<B: Post<K>>(
        &mut self,
        tickets: &Tickets,
        books: &mut B,
        mine: &mut Shares<K>,
        out: &mut Out<T>,
        task: u32,
        item: T,
    ) -> PassAnswer<T>
        requires { out.old ≡ [] }
        ensures answer { result
            ≡ locked_pass (answered self.old.state.story task) (is_parked task self.old.parked.items) item }
        ensures history { self.new.state.story
            ≡ after self.old.state.story (reply self.old.state.story (pass task)) }
        ensures mine { mine.new ≡ plus (amount_if (goes_on result) (Event.Pass task)) mine.old }
        ensures books { B.rose books.old books.new (amount_if (goes_on result) (Event.Pass task)) }
        ensures tickets { IsDrawn (goes_on result) self.old.drawn.items self.new.drawn.items }
        ensures item { IsBack item result }
        ensures parked { self.new.parked.items ≡ parking (has_to_wait (answered self.old.state.story task))
            (is_parked task self.old.parked.items)
            (record { task = task; call = ParkedCall.Pass; item = item })
            (waiting self.new.state.story self.old.parked.items) }
        ensures out { out.new ≡ freed self.new.state.story self.old.parked.items }
        ensures nobody { goes_on result ≡ false → out.new ≡ [] }
    {
        let PhaserCell {
            state,
            drawn,
            book,
            parked,
        } = self;
        let bounded = state.is_bounded();
        let answer = state.pass(task);
        let gone_on = has_gone_on(answer);
        let event = Event::Pass(task);
        post_if(gone_on, tickets, drawn, book, books, mine, event);
        let is_near = may_come_near(bounded, gone_on, state, parked);
        release_if(is_near, state, parked, out);
        settle_pass(answer, parked, task as u64, item)
    }
}

impl<T: Drop, K: Ledgers> PhaserCell<T, K> {
    /// A phaser that nobody has made yet, and that has neither operators nor a bound before, with
    /// its book, in which nothing is posted yet. All memory that it will ever need is taken here; `Memory` if that
    /// is refused.
    pub fn new(
        alloc: Global,
        limits: Limits,
        book: PhaserBook<K>,
    ) -> Result<PhaserCell<T, K>, Refusal>
        requires limits { limits_fit limits ≡ true }
        requires fresh { (book.totals ≡ nothing) × (book.room ≡ 65536) }
        ensures story { IfOk result (λ c. c.state.story ≡ record { limits = limits; terms = no_terms; past = [] }) }
        ensures empty { IfOk result (λ c. (c.parked.items ≡ []) × (c.book ≡ book)) }
        ensures memory { IfErr result (λ r. r ≡ Refusal.Memory) }
    {
        let drawn = Vec::with_capacity(alloc, limits.history as usize)?;
        let parked = VecDeque::with_capacity(alloc, 256)?;
        // Last, since it is the dearest to give back if another gets no memory.
        let state = PhaserState::blank(alloc, limits)?;
        Ok(PhaserCell {
            state,
            drawn,
            book,
            parked,
        })
    }
}
