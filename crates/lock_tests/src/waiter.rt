//! A waiter that is woken by the other's signal, and a signaller that is by the other's pass, on
//! one cell.
ghost use Rattle.std.specs.Prelude.{◌≡◌, All};
ghost use Rattle.share_book.specs.Accounts.{nothing};
ghost use Rattle.share_book.specs.Opening.{IsNamed, IsParted};

use crate::asserted::equal;
use phase_model::{Bound, Ops};
use phase_modes::{Limits, Mode, Refusal, TaskNumber};
use scope_locks::{Out, PassAnswer, PhaserCell, SignalAnswer, Tickets};
use share_book::{Blanks, Books, Ledgers, PhaserBook, Seven, Shares, Totals, gather, open};
use std::alloc::Global;
use std::marker::Brand;
use std::process::Abort;
use std::sync::ledger::Ledger;
use std::test::Fail;

/// What a pass is answered. The items are told apart by their numbers.
#[derive(Clone, Copy, Debug, PartialEq, Eq)]
enum Passing {
    Passed(u32, u32),
    Claimed(u32, u32),
    Parked,
    Refused(u32, Refusal),
}

fn answer_of(answer: PassAnswer<u32>) -> Passing {
    match answer {
        PassAnswer::Passed(item, phase) => Passing::Passed(item, phase),
        PassAnswer::Claimed(item, number) => Passing::Claimed(item, number),
        PassAnswer::Parked => Passing::Parked,
        PassAnswer::Refused(item, refusal) => Passing::Refused(item, refusal),
    }
}

/// What a signal is answered.
#[derive(Clone, Copy, Debug, PartialEq, Eq)]
enum Signalling {
    Signalled(u32),
    Parked,
    Refused(u32, Refusal),
}

fn signalling_of(answer: SignalAnswer<u32>) -> Signalling {
    match answer {
        SignalAnswer::Signalled(item) => Signalling::Signalled(item),
        SignalAnswer::Parked => Signalling::Parked,
        SignalAnswer::Refused(item, refusal) => Signalling::Refused(item, refusal),
    }
}

/// A phaser's cell, and what a worker brings to each call of it: the tickets of the run, the books,
/// and its shares of these.
#[derive(Drop)]
struct CalledCell<K: Ledgers> {
    cell: PhaserCell<u32, K>,
    tickets: Tickets,
    books: Books<K>,
    mine: Shares<K>,
}

impl<K: Ledgers> CalledCell<K> {
    /// The task asks to pass, with this item. Returns the item of whom this wakes too.
    fn pass(
        &mut self,
        alloc: Global,
        task: TaskNumber,
        item: u32,
    ) -> Result<(Passing, Option<u32>), Refusal> {
        let CalledCell {
            cell,
            tickets,
            books,
            mine,
        } = self;
        let mut out = Out::new(alloc)?;
        let answer = answer_of(cell.pass(tickets, books, mine, &mut out, task.get(), item));
        Ok((answer, out.take()))
    }

    /// The task signals, with this item. Returns the item of whom this wakes too.
    fn signal(
        &mut self,
        alloc: Global,
        task: TaskNumber,
        item: u32,
    ) -> Result<(Signalling, Option<u32>), Refusal> {
        let CalledCell {
            cell,
            tickets,
            books,
            mine,
        } = self;
        let mut out = Out::new(alloc)?;
        let answer = signalling_of(cell.signal(
            tickets,
            books,
            mine,
            &mut out,
            task.get(),
            None,
            item,
        ));
        Ok((answer, out.take()))
    }

    /// The task is dropped. Returns the item of whom this wakes.
    fn drop_task(&mut self, alloc: Global, task: u32) -> Result<Option<u32>, Refusal> {
        let CalledCell {
            cell,
            tickets,
            books,
            mine,
        } = self;
        let mut out = Out::new(alloc)?;
        cell.drop_task(tickets, books, mine, &mut out, task)?;
        Ok(out.take())
    }

    /// Tasks 0 and 1 are registered, with bound 1.
    fn register_both(&mut self, rt: &impl Abort) {
        let CalledCell {
            cell,
            tickets,
            books,
            mine,
        } = self;
        let ops = Ops::none();
        equal(
            rt,
            cell.make(tickets, books, mine, 0, Mode::SigWait, ops, Bound::of(1)),
            Ok(()),
        );
        equal(
            rt,
            cell.register(tickets, books, mine, 0, 1, Mode::SigWait),
            Ok(()),
        );
    }

    /// Two calls of task 0, which has to wait: the first parks its item, the second has its own
    /// back.
    fn park_twice(&mut self, rt: &impl Abort, alloc: Global) {
        const SIGNALLED: (Signalling, Option<u32>) = (Signalling::Signalled(99), None);
        const PARKED: (Passing, Option<u32>) = (Passing::Parked, None);
        const AGAIN: (Passing, Option<u32>) = (Passing::Refused(102, Refusal::NotNow), None);
        let task = TaskNumber::of(0);
        equal(rt, self.signal(alloc, task, 99), Ok(SIGNALLED));
        equal(rt, self.pass(alloc, task, 100), Ok(PARKED));
        equal(rt, self.pass(alloc, task, 102), Ok(AGAIN));
    }

    /// The other's signal wakes it.
    fn let_go(&mut self, rt: &impl Abort, alloc: Global) {
        const FREED: (Signalling, Option<u32>) = (Signalling::Signalled(101), Some(100));
        const PASSED: (Passing, Option<u32>) = (Passing::Passed(100, 0), None);
        equal(rt, self.signal(alloc, TaskNumber::of(1), 101), Ok(FREED));
        equal(rt, self.pass(alloc, TaskNumber::of(0), 100), Ok(PASSED));
    }

    /// The other hasn't passed yet, so task 0 waits to signal. The other's pass wakes it, and the
    /// other's drop nobody.
    fn hold_and_let_go(&mut self, rt: &impl Abort, alloc: Global) {
        const HELD: (Signalling, Option<u32>) = (Signalling::Parked, None);
        const AGAIN: (Signalling, Option<u32>) = (Signalling::Refused(104, Refusal::NotNow), None);
        const FREED: (Passing, Option<u32>) = (Passing::Passed(101, 0), Some(103));
        const SIGNALLED: (Signalling, Option<u32>) = (Signalling::Signalled(103), None);
        let task = TaskNumber::of(0);
        equal(rt, self.signal(alloc, task, 103), Ok(HELD));
        equal(rt, self.signal(alloc, task, 104), Ok(AGAIN));
        equal(rt, self.pass(alloc, TaskNumber::of(1), 101), Ok(FREED));
        equal(rt, self.signal(alloc, task, 103), Ok(SIGNALLED));
        equal(rt, self.drop_task(alloc, 1), Ok(None));
    }

    /// Task 0 waits for task 1, and goes on.
    fn wait_and_go_on(&mut self, rt: &impl Abort, alloc: Global) {
        self.register_both(rt);
        self.park_twice(rt, alloc);
        self.let_go(rt, alloc);
        self.hold_and_let_go(rt, alloc);
    }
}

/// The waiter, on a new phaser of the last of these phasers' books, by the last worker's share. What
/// is gathered then.
fn on_last_phaser<K: Ledgers>(
    rt: &impl Abort,
    alloc: Global,
    books: Books<K>,
    mut phasers: Vec<PhaserBook<K>>,
    mut shares: Vec<Shares<K>>,
) -> Result<Totals, Refusal>
    requires { All (λ b. (b.totals ≡ nothing) × (b.room ≡ 65536)) phasers.items }
{
    let Some(mine) = shares.pop() else {
        return Err(Refusal::SharesDiffer);
    };
    let Some(book) = phasers.pop() else {
        return Err(Refusal::SharesDiffer);
    };
    let mut called = CalledCell {
        cell: PhaserCell::new(alloc, Limits::default(), book)?,
        tickets: Tickets::new(),
        books,
        mine,
    };
    called.wait_and_go_on(rt, alloc);
    let CalledCell {
        cell,
        tickets: _,
        books,
        mine,
    } = called;
    let PhaserCell {
        state: _,
        drawn: _,
        book,
        parked: _,
    } = cell;
    shares.push(mine)?;
    phasers.push(book)?;
    gather(shares, phasers, books)
}

/// What is gathered once the waiter has gone on.
fn wait_on<K: Ledgers, R: Abort>(rt: &R, alloc: Global, blanks: Blanks) -> Result<Totals, Refusal>
    requires names { IsNamed blanks K.EventsByPhaser.name K.EventsByWorker.name K.UpByPhaser.name
        K.UpByWorker.name K.DownByPhaser.name K.DownByWorker.name K.Room.name }
    requires parts { IsParted blanks K.EventsByPhaser.parts K.EventsByWorker.parts K.UpByPhaser.parts
        K.UpByWorker.parts K.DownByPhaser.parts K.DownByWorker.parts K.Room.parts }
{
    let (books, phasers, shares) = open::<K>(alloc, blanks)?;
    on_last_phaser(rt, alloc, books, phasers, shares)
}

fn named_wait<
    R: Abort,
    A: Ledger,
    B: Ledger,
    C: Ledger,
    D: Ledger,
    E: Ledger,
    F: Ledger,
    G: Ledger,
>(rt: &R, alloc: Global, blanks: Blanks) -> Result<Totals, Refusal>
    requires names { IsNamed blanks A.name B.name C.name D.name E.name F.name G.name }
    requires parts { IsParted blanks A.parts B.parts C.parts D.parts E.parts F.parts G.parts }
{
    wait_on::<Seven<A, B, C, D, E, F, G>, R>(rt, alloc, blanks)
}

// A making, a registration, three signals, two passes and a drop.
#[test]
fn parked_waiter(rt: HostRuntime) -> Result<(), Fail> {
    const TOTALS: Totals = Totals {
        events: 8,
        up: 0,
        down: 0,
    };
    let totals = named_wait::<HostRuntime, Brand, Brand, Brand, Brand, Brand, Brand, Brand>(
        &rt,
        rt.alloc(),
        Blanks::new(1, 1),
    )?;
    equal(&rt, totals, TOTALS);
    Ok(())
}
