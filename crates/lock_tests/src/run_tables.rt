//! The table on which runs stand: the worked examples of one phaser go through it by one thread, and
//! a phaser is called while another's lock is held. What it leaves is gathered.
ghost use Rattle.std.specs.Prelude.{◌≡◌, ◌<◌, ℕ, [], true, All, IfSome, slice_get, vec_len};
ghost use Rattle.phase_modes.specs.Limits.{limits_fit};
ghost use Rattle.share_book.specs.Opening.{IsNamed, IsParted};

use crate::asserted::{equal, equal_at};
use crate::replies::{events_of_rows, looked, plainly, signalled, turned};
use phase_model::{Call, Reply, Terms};
use phase_modes::{Limits, Refusal};
use scope_locks::{Out, Tickets};
use share_book::{Blanks, Seven, Totals, gather, open};
use std::alloc::Global;
use std::marker::Brand;
use std::process::Abort;
use std::sync::Wait;
use std::sync::ledger::Ledger;
use std::test::Fail;
use table_receipts::{
    Caller, Front, Logs, Named, Naming, Noted, PhaserLogs, ReceiptTable, new_logs,
};
use told_history::Whole;
use worked_examples::*;

mod apart;

/// A phaser of a table by its number, and what was seen of it.
#[derive(Drop)]
struct SeenPhaser<'a, K: Naming> {
    table: &'a ReceiptTable<u32, K>,
    number: usize,
    me: Front<K>,
    ghost there: { number < table.now.phasers },
    ghost named: { me.log ≡ K.Logs.logs number },
}

impl<'a, K: Naming> SeenPhaser<'a, K> {
    /// The phaser of this number, and what was done on it so far.
    fn of<R: Wait>(rt: &R, table: &'a ReceiptTable<u32, K>, number: usize) -> SeenPhaser<'a, K>
        requires { number < table.now.phasers }
    {
        let me = table.lock(rt, number).front();
        SeenPhaser { table, number, me }
    }

    /// Makes the call, a making with these terms. The item of a task is its number.
    fn answer_to<R: Wait>(
        &mut self,
        by: &mut Caller<'_, u32, K, R>,
        terms: &Terms,
        call: Call,
    ) -> Reply
        requires { by.old.out ≡ [] }
    {
        let SeenPhaser { table, number, me } = self;
        let mut phaser = table.lock(by.rt, *number);
        match call {
            Call::Make(task, mode) => plainly(phaser.make(by, me, task, mode, terms)),
            Call::Register(parent, child, mode) => {
                plainly(phaser.register(by, me, parent, child, mode))
            }
            Call::Signal(task, proposed) => {
                signalled(phaser.signal(by, me, task, proposed, task))
            }
            Call::Pass(task) => turned(phaser.pass(by, me, task, task)),
            Call::SingleDone(task) => plainly(phaser.single_done(by, me, task)),
            Call::Send(task, accumulator, value) => {
                plainly(phaser.send(by, me, task, accumulator, value))
            }
            Call::Look(task, accumulator) => looked(phaser.look(by, me, task, accumulator)),
            Call::Drop(task) => plainly(phaser.drop_task(by, me, task)),
        }
    }

    /// The same; `Memory` if there is none for the list of those whom it wakes. They are dropped.
    fn answer_alone<R: Wait>(
        &mut self,
        alloc: Global,
        by: &mut Caller<'_, u32, K, R>,
        terms: &Terms,
        call: Call,
    ) -> Reply {
        let Ok(out) = Out::new(alloc) else {
            return Reply::Refused(Refusal::Memory);
        };
        by.out = out;
        self.answer_to(by, terms, call)
    }

    /// Each call is answered as its row says.
    fn answers<R: Wait + Abort>(
        &mut self,
        alloc: Global,
        by: &mut Caller<'_, u32, K, R>,
        terms: &Terms,
        rows: &[Row],
    ) {
        for (call, expected) in rows {
            let answer = self.answer_alone(alloc, by, terms, *call);
            equal_at(by.rt, call, answer, *expected);
        }
    }
}

/// What is gathered once each call on the one phaser of a new table was answered as its row says. The
/// books have that many events before the table is taken apart, and its history then.
fn calls<K: Naming, R: Wait + Abort>(
    rt: &R,
    alloc: Global,
    example: &Example,
    limits: Limits,
    blanks: Blanks,
    logs: Vec<Whole<Noted>>,
) -> Result<Totals, Refusal>
    requires names { IsNamed blanks K.EventsByPhaser.name K.EventsByWorker.name K.UpByPhaser.name
        K.UpByWorker.name K.DownByPhaser.name K.DownByWorker.name K.Room.name }
    requires parts { IsParted blanks K.EventsByPhaser.parts K.EventsByWorker.parts K.UpByPhaser.parts
        K.UpByWorker.parts K.DownByPhaser.parts K.DownByWorker.parts K.Room.parts }
    requires fit { limits_fit limits ≡ true }
    requires limits { limits ≡ K.Logs.limits }
    requires one { blanks.phasers ≡ 1 }
    requires logs { (i : ℕ) → IfSome (slice_get logs.items i) (λ w. w.name ≡ K.Logs.logs i) }
    requires empty { All (λ w. w.items ≡ []) logs.items }
    requires each { vec_len logs ≡ 1 }
{
    let (books, phasers, mut shares) = open::<K>(alloc, blanks)?;
    let logs = PhaserLogs::<K>::of(alloc, logs)?;
    let table = ReceiptTable::<u32, K>::new(alloc, limits, books, phasers, logs)?;
    let tickets = Tickets::new();
    let mine = shares.pop().ok_or(Refusal::NotNow)?;
    let mut by = Caller {
        rt,
        tickets: &tickets,
        mine,
        out: Out::new(alloc)?,
    };
    let mut phaser = SeenPhaser::of(rt, &table, 0);
    phaser.answers(alloc, &mut by, &example.terms(), example.rows);
    let events = events_of_rows(example.rows);
    equal(rt, table.so_far(&mut by).events, events);
    shares.push(by.mine)?;
    let left = table.into_parts(rt);
    assert_eq!(rt; left.parts.len(), 1);
    equal(rt, left.parts[0].len() as u64, events);
    gather(shares, left.phasers, left.books)
}

/// Names the ledgers and the logs.
fn calls_over<
    R: Wait + Abort,
    EP: Ledger,
    EW: Ledger,
    UP: Ledger,
    UW: Ledger,
    DP: Ledger,
    DW: Ledger,
    RM: Ledger,
    L: Logs,
>(
    rt: &R,
    alloc: Global,
    example: &Example,
    limits: Limits,
    blanks: Blanks,
    logs: Vec<Whole<Noted>>,
) -> Result<Totals, Refusal>
    requires names { IsNamed blanks EP.name EW.name UP.name UW.name DP.name DW.name RM.name }
    requires parts { IsParted blanks EP.parts EW.parts UP.parts UW.parts DP.parts DW.parts RM.parts }
    requires fit { limits_fit limits ≡ true }
    requires limits { limits ≡ L.limits }
    requires one { blanks.phasers ≡ 1 }
    requires logs { (i : ℕ) → IfSome (slice_get logs.items i) (λ w. w.name ≡ L.logs i) }
    requires empty { All (λ w. w.items ≡ []) logs.items }
    requires each { vec_len logs ≡ 1 }
{
    calls::<Named<Seven<EP, EW, UP, UW, DP, DW, RM>, L>, R>(
        rt, alloc, example, limits, blanks, logs,
    )
}

/// Each call on a new phaser is answered as its row says, and what is gathered has as many events.
fn answers_as_worked_out<R: Abort + Wait>(
    rt: &R,
    alloc: Global,
    example: &Example,
) -> Result<(), Fail> {
    let limits = example.limits();
    if !limits.fits() {
        return Err(Fail::from("the limits are none"));
    }
    let logs = new_logs(alloc, 1)?;
    let totals = calls_over::<R, Brand, Brand, Brand, Brand, Brand, Brand, Brand, Brand>(
        rt,
        alloc,
        example,
        limits,
        Blanks::new(1, 1),
        logs,
    )?;
    equal(rt, totals.events, events_of_rows(example.rows));
    Ok(())
}

/// The worked examples of one phaser. A task that has to come again is parked.
#[test]
fn rows_on_the_table_of_runs(rt: HostRuntime) -> Result<(), Fail> {
    for example in ON_A_TABLE {
        answers_as_worked_out(&rt, rt.alloc(), example)?;
    }
    Ok(())
}
