//! Threads that call at the same time: four threads on eight phasers leave histories that are merged
//! by their tickets, and books that are gathered.
ghost use Rattle.std.specs.Prelude.{◌≡◌, [], ◌<◌, true};
ghost use Rattle.share_book.specs.Opening.{IsNamed, IsParted};

use super::*;
use crate::asserted::{equal, equal_at};
use crate::replies::{signalled, turned};
use phase_modes::Mode;
use share_book::{Seven, SharedLedgers};
use std::marker::Brand;
use std::sync::Wait;
use std::sync::ledger::Ledger;
use std::test::Fail;
use std::thread;
use std::thread::Threads;
use worked_examples::first_ops;

const PHASERS: u32 = 8;

const WORKERS: u32 = 4;

/// So many turns of each worker on each phaser, with four calls a turn, and so many runs.
const TURNS: u32 = 4;

const RUNS: u32 = 200;

/// Room for all events of a run, and no more than its tasks.
const CROWD: Limits = Limits {
    acts: 4_096,
    finishes: 64,
    history: 128,
    phasers: 8,
    regs: 4,
    tasks: 4,
};

impl<'a, K: Ledgers, R: Wait> Caller<'a, K, R> {
    /// On one phaser the task signals, asks to pass, sends this value and looks. Refused if
    /// somebody whom it woke before is still in the list.
    fn call_one(
        &mut self,
        table: &PhaserTable<u32, K>,
        number: usize,
        task: u32,
        value: i32,
    ) -> Result<(), Refusal>
        requires { number < table.now.phasers }
    {
        let Caller {
            rt,
            tickets,
            mine,
            out,
        } = self;
        if !is_drained(out) {
            return Err(Refusal::SharesDiffer);
        }
        let _signalled = signalled(table.signal(rt, number, tickets, mine, out, task, None, task));
        if !is_drained(out) {
            return Err(Refusal::SharesDiffer);
        }
        let _passed = turned(table.pass(rt, number, tickets, mine, out, task, task));
        let _sent = table.send(rt, number, tickets, mine, task, 0, value);
        let _seen = table.look(rt, number, tickets, mine, task, 0);
        Ok(())
    }

    /// A turn on each phaser.
    fn call_each(
        &mut self,
        table: &PhaserTable<u32, K>,
        task: u32,
        value: i32,
    ) -> Result<(), Refusal>
        requires { table.now.phasers ≡ 8 }
    {
        for number in 0..PHASERS as usize {
            self.call_one(table, number, task, value)?;
        }
        Ok(())
    }

    /// The books have an event for each task on each phaser, at least; else `SharesDiffer`.
    fn check_registrations(&mut self, table: &PhaserTable<u32, K>) -> Result<(), Refusal> {
        let so_far = table.so_far(self.rt, &mut self.mine);
        if so_far.events < u64::from(PHASERS * WORKERS) {
            return Err(Refusal::SharesDiffer);
        }
        Ok(())
    }

    /// All turns, in each of which the task sends the turn's number. The books have all
    /// registrations then.
    fn call_in_turns(&mut self, table: &PhaserTable<u32, K>, task: u32) -> Result<(), Refusal>
        requires { table.now.phasers ≡ 8 }
    {
        for turn in 0..TURNS {
            self.call_each(table, task, turn as i32)?;
        }
        self.check_registrations(table)
    }
}

/// One worker's part: on each phaser in turn it signals, asks to pass, sends and turns, as the task
/// of its number, with a list of its own for those whom the task wakes.
fn work<K: Ledgers, R: Wait>(
    rt: &R,
    alloc: Global,
    table: &PhaserTable<u32, K>,
    tickets: &Tickets,
    worker: (u32, Shares<K>),
) -> Result<Shares<K>, Refusal>
    requires { table.now.phasers ≡ 8 }
{
    let (task, mine) = worker;
    let mut by = Caller {
        rt,
        tickets,
        mine,
        out: Out::new(alloc)?,
    };
    by.call_in_turns(table, task)?;
    Ok(by.mine)
}

/// Makes the phaser and registers all workers' tasks on it.
fn register_all<K: Ledgers, R: Abort + Wait>(
    rt: &R,
    table: &PhaserTable<u32, K>,
    number: usize,
    tickets: &Tickets,
    mine: &mut Shares<K>,
)
    requires { number < table.now.phasers }
{
    equal(rt, table.lock(rt, number).parked.len(), 0);
    let made = table.make(
        rt,
        number,
        tickets,
        mine,
        0,
        Mode::SigWait,
        first_ops(1),
        None,
    );
    equal(rt, made, Ok(()));
    for task in 1..WORKERS {
        let registered = table.register(rt, number, tickets, mine, 0, task, Mode::SigWait);
        equal_at(rt, ("task", task), registered, Ok(()));
    }
}

/// Makes each phaser and registers all workers' tasks on it, all by the first worker's share.
fn set_up<K: Ledgers, R: Abort + Wait>(
    rt: &R,
    table: &PhaserTable<u32, K>,
    tickets: &Tickets,
    shares: &mut Vec<Shares<K>>,
)
    requires { table.now.phasers ≡ 8 }
{
    equal(rt, shares.len(), WORKERS as usize);
    if let Some(mine) = shares.get_mut(0) {
        for number in 0..PHASERS as usize {
            register_all(rt, table, number, tickets, mine);
        }
    }
}

/// The workers' shares, each with the number of its worker.
fn numbered<K: Ledgers>(
    alloc: Global,
    shares: Vec<Shares<K>>,
) -> Result<Vec<(u32, Shares<K>)>, Refusal> {
    let mut staff = Vec::new(alloc);
    let mut number = 0u32;
    for mine in shares {
        staff.push((number, mine))?;
        number = number.saturating_add(1);
    }
    Ok(staff)
}

/// The shares that the workers gave back.
fn given_back<K: Ledgers>(
    alloc: Global,
    done: Vec<Result<Shares<K>, Refusal>>,
) -> Result<Vec<Shares<K>>, Refusal> {
    let mut shares = Vec::new(alloc);
    for mine in done {
        shares.push(mine?)?;
    }
    Ok(shares)
}

/// The workers' parts, each in a thread. Returns their shares.
fn work_all<K: SharedLedgers, R: Threads + Wait + Sync>(
    rt: &R,
    alloc: Global,
    table: &PhaserTable<u32, K>,
    tickets: &Tickets,
    shares: Vec<Shares<K>>,
) -> Result<Vec<Shares<K>>, Refusal>
    requires { table.now.phasers ≡ 8 }
{
    let staff = numbered(alloc, shares)?;
    let done = thread::map_vec(rt, staff, &|worker| work(rt, alloc, table, tickets, worker))?;
    given_back(alloc, done)
}

/// What is gathered once all workers have done their parts on a new table.
fn crowd<K: SharedLedgers, R: Abort + Threads + Wait + Sync>(
    rt: &R,
    alloc: Global,
    blanks: Blanks,
) -> Result<Totals, Refusal>
    requires names { IsNamed blanks K.EventsByPhaser.name K.EventsByWorker.name K.UpByPhaser.name
        K.UpByWorker.name K.DownByPhaser.name K.DownByWorker.name K.Room.name }
    requires parts { IsParted blanks K.EventsByPhaser.parts K.EventsByWorker.parts K.UpByPhaser.parts
        K.UpByWorker.parts K.DownByPhaser.parts K.DownByWorker.parts K.Room.parts }
    requires eight { blanks.phasers ≡ 8 }
{
    let (table, mut shares) = fresh::<K>(alloc, CROWD, blanks)?;
    let tickets = Tickets::new();
    set_up(rt, &table, &tickets, &mut shares);
    let shares = work_all(rt, alloc, &table, &tickets, shares)?;
    gathered(rt, alloc, CROWD, table, shares)
}

fn named_crowd<
    R: Abort + Threads + Wait + Sync,
    A: Ledger + Send + Sync,
    B: Ledger + Send + Sync,
    C: Ledger + Send + Sync,
    D: Ledger + Send + Sync,
    E: Ledger + Send + Sync,
    F: Ledger + Send + Sync,
    G: Ledger + Send + Sync,
>(rt: &R, alloc: Global, blanks: Blanks) -> Result<Totals, Refusal>
    requires names { IsNamed blanks A.name B.name C.name D.name E.name F.name G.name }
    requires parts { IsParted blanks A.parts B.parts C.parts D.parts E.parts F.parts G.parts }
    requires eight { blanks.phasers ≡ 8 }
{
    crowd::<Seven<A, B, C, D, E, F, G>, R>(rt, alloc, blanks)
}

/// Names the ledgers.
fn crowd_once<R: Abort + Threads + Wait + Sync>(rt: &R, alloc: Global) -> Result<Totals, Refusal> {
    let blanks = Blanks::new(PHASERS, WORKERS);
    named_crowd::<R, Brand, Brand, Brand, Brand, Brand, Brand, Brand>(rt, alloc, blanks)
}

/// Four threads make some 100,000 calls on eight phasers. Whatever their order, the histories are
/// merged by their tickets to one trace, and the gathered totals are those of all histories.
#[test]
fn four_threads_on_eight_phasers(rt: HostRuntime) -> Result<(), Fail> {
    for _run in 0..RUNS {
        let totals = crowd_once(&rt, rt.alloc())?;
        assert!(rt;
            totals.events >= u64::from(PHASERS * WORKERS),
            "each task was registered"
        );
        assert!(rt; totals.up > 0, "values were sent");
    }
    Ok(())
}
