//! The worked examples of one phaser, by one thread through a table. A task that has to come again
//! is parked.
ghost use Rattle.std.specs.Prelude.{◌≡◌, [], ◌<◌, ◌≤◌, true};
ghost use Rattle.phase_modes.specs.Limits.{limits_fit};
ghost use Rattle.share_book.specs.Opening.{IsNamed, IsParted};

use super::*;
use crate::asserted::{equal, equal_at};
use crate::replies::{events_of_rows, looked, plainly, signalled, turned};
use phase_model::{Call, Reply, Terms};
use share_book::Seven;
use std::marker::Brand;
use std::sync::Wait;
use std::sync::ledger::Ledger;
use std::test::Fail;
use worked_examples::*;

impl<'a, K: Ledgers, R: Wait> Caller<'a, K, R> {
    /// Makes the call on a phaser of the table, a making with these terms. The item of a task is
    /// its number.
    fn answer_to(
        &mut self,
        table: &PhaserTable<u32, K>,
        number: usize,
        terms: Terms,
        call: Call,
    ) -> Reply
        requires number { number < table.now.phasers }
        requires empty { self.old.out ≡ [] }
    {
        let Caller {
            rt,
            tickets,
            mine,
            out,
        } = self;
        match call {
            Call::Make(task, mode) => {
                let Terms { ops, bound } = terms;
                plainly(table.make(rt, number, tickets, mine, task, mode, ops, bound))
            }
            Call::Register(parent, child, mode) => {
                plainly(table.register(rt, number, tickets, mine, parent, child, mode))
            }
            Call::Signal(task, proposed) => {
                signalled(table.signal(rt, number, tickets, mine, out, task, proposed, task))
            }
            Call::Pass(task) => turned(table.pass(rt, number, tickets, mine, out, task, task)),
            Call::SingleDone(task) => {
                plainly(table.single_done(rt, number, tickets, mine, out, task))
            }
            Call::Send(task, accumulator, value) => {
                plainly(table.send(rt, number, tickets, mine, task, accumulator, value))
            }
            Call::Look(task, accumulator) => looked(table.look(
                rt,
                number,
                tickets,
                mine,
                task,
                accumulator,
            )),
            Call::Drop(task) => plainly(table.drop_task(rt, number, tickets, mine, out, task)),
        }
    }

    /// What the call on phaser 0 is answered; `Memory` if there is none for the list of those
    /// whom it wakes. They are dropped.
    fn answer_alone(
        &mut self,
        alloc: Global,
        table: &PhaserTable<u32, K>,
        terms: Terms,
        call: Call,
    ) -> Reply
        requires { 0 < table.now.phasers }
    {
        let Ok(out) = Out::new(alloc) else {
            return Reply::Refused(Refusal::Memory);
        };
        self.out = out;
        self.answer_to(table, 0, terms, call)
    }
}

impl<'a, K: Ledgers, R: Abort + Wait> Caller<'a, K, R> {
    /// Each call on phaser 0 is answered as its row says.
    fn answers(&mut self, alloc: Global, table: &PhaserTable<u32, K>, terms: &Terms, rows: &[Row])
        requires { 0 < table.now.phasers }
    {
        for (call, expected) in rows {
            let answer = self.answer_alone(alloc, table, *terms, *call);
            equal_at(self.rt, call, answer, *expected);
        }
    }
}

/// Each call of the one worker on phaser 0 is answered as its row says. Returns the shares.
fn answers_the_one<K: Ledgers, R: Abort + Wait>(
    rt: &R,
    alloc: Global,
    table: &PhaserTable<u32, K>,
    mut shares: Vec<Shares<K>>,
    terms: Terms,
    rows: &[Row],
) -> Result<Vec<Shares<K>>, Refusal>
    requires { 0 < table.now.phasers }
{
    equal(rt, shares.len(), 1);
    let mine = shares.pop().ok_or(Refusal::SharesDiffer)?;
    let tickets = Tickets::new();
    let mut by = Caller {
        rt,
        tickets: &tickets,
        mine,
        out: Out::new(alloc)?,
    };
    by.answers(alloc, table, &terms, rows);
    shares.push(by.mine)?;
    Ok(shares)
}

/// Each call on a new phaser is answered as its row says; the history that they leave is merged,
/// and gathered. Names the ledgers.
fn answers_as_worked_out<R: Abort + Wait>(
    rt: &R,
    alloc: Global,
    example: &Example,
) -> Result<(), Fail> {
    let limits = example.limits();
    if !limits.fits() {
        return Err(Fail::from("the limits are none"));
    }
    let blanks = Blanks::new(1, 1);
    let totals = named::<R, Brand, Brand, Brand, Brand, Brand, Brand, Brand>(
        rt,
        alloc,
        blanks,
        limits,
        example.terms(),
        example.rows,
    )?;
    equal(rt, totals.events, events_of_rows(example.rows));
    Ok(())
}

fn named<
    R: Abort + Wait,
    A: Ledger,
    B: Ledger,
    C: Ledger,
    D: Ledger,
    E: Ledger,
    F: Ledger,
    G: Ledger,
>(
    rt: &R,
    alloc: Global,
    blanks: Blanks,
    limits: Limits,
    terms: Terms,
    rows: &[Row],
) -> Result<Totals, Refusal>
    requires names { IsNamed blanks A.name B.name C.name D.name E.name F.name G.name }
    requires parts { IsParted blanks A.parts B.parts C.parts D.parts E.parts F.parts G.parts }
    requires limits { limits_fit limits ≡ true }
    requires one { blanks.phasers ≡ 1 }
{
    play::<Seven<A, B, C, D, E, F, G>, R>(rt, alloc, blanks, limits, terms, rows)
}

/// What is gathered once each call was answered as its row says.
fn play<K: Ledgers, R: Abort + Wait>(
    rt: &R,
    alloc: Global,
    blanks: Blanks,
    limits: Limits,
    terms: Terms,
    rows: &[Row],
) -> Result<Totals, Refusal>
    requires names { IsNamed blanks K.EventsByPhaser.name K.EventsByWorker.name K.UpByPhaser.name
        K.UpByWorker.name K.DownByPhaser.name K.DownByWorker.name K.Room.name }
    requires parts { IsParted blanks K.EventsByPhaser.parts K.EventsByWorker.parts K.UpByPhaser.parts
        K.UpByWorker.parts K.DownByPhaser.parts K.DownByWorker.parts K.Room.parts }
    requires limits { limits_fit limits ≡ true }
    requires one { blanks.phasers ≡ 1 }
{
    let (table, shares) = fresh::<K>(alloc, limits, blanks)?;
    let shares = answers_the_one(rt, alloc, &table, shares, terms, rows)?;
    gathered(rt, alloc, limits, table, shares)
}

/// Each worked example of one phaser, through a table.
#[test]
fn rows_on_table(rt: HostRuntime) -> Result<(), Fail> {
    for example in ON_A_TABLE {
        answers_as_worked_out(&rt, rt.alloc(), example)?;
    }
    Ok(())
}
