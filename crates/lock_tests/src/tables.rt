//! Phasers shared through a table: the worked examples by one thread, and threads that call at the
//! same time. What they leave is merged and gathered.
ghost use Rattle.std.specs.Prelude.{◌≡◌, [], ◌<◌, ◌≤◌, true, IfOk};
ghost use Rattle.phase_modes.specs.Limits.{limits_fit};
ghost use Rattle.share_book.specs.Opening.{IsNamed, IsParted};

use crate::asserted::equal;
use merging::merged;
use phase_modes::{Limits, Refusal};
use scope_locks::{Out, PhaserTable, Tickets};
use share_book::{Blanks, Ledgers, Shares, Totals, gather, open};
use std::alloc::Global;
use std::process::Abort;

mod examples_on_table;
mod merging;
mod threads;

/// What a worker brings to each call of a table: what waits for locks, the tickets of the run, its
/// shares of the books, and the list into which the items of those are put whom its calls wake.
#[derive(Drop)]
struct Caller<'a, K: Ledgers, R> {
    rt: &'a R,
    tickets: &'a Tickets,
    mine: Shares<K>,
    out: Out<u32>,
}

/// A table of phasers that nobody has made yet, and the workers' shares.
fn fresh<K: Ledgers>(
    alloc: Global,
    limits: Limits,
    blanks: Blanks,
) -> Result<(PhaserTable<u32, K>, Vec<Shares<K>>), Refusal>
    requires names { IsNamed blanks K.EventsByPhaser.name K.EventsByWorker.name K.UpByPhaser.name
        K.UpByWorker.name K.DownByPhaser.name K.DownByWorker.name K.Room.name }
    requires parts { IsParted blanks K.EventsByPhaser.parts K.EventsByWorker.parts K.UpByPhaser.parts
        K.UpByWorker.parts K.DownByPhaser.parts K.DownByWorker.parts K.Room.parts }
    requires limits { limits_fit limits ≡ true }
    ensures phasers { IfOk result (λ r. r.0.phasers ≡ blanks.phasers) }
{
    let (books, phasers, shares) = open::<K>(alloc, blanks)?;
    let table = PhaserTable::new(alloc, limits, books, phasers)?;
    Ok((table, shares))
}

/// Takes out all items. Whether none is left.
fn is_drained(out: &mut Out<u32>) -> bool
    ensures { result ≡ true → out.new ≡ [] }
{
    for _item in 0..257 {
        if out.take().is_none() {
            return true;
        }
    }
    false
}

/// The totals, which are of so many events.
fn of_events(
    rt: &impl Abort,
    totals: Result<Totals, Refusal>,
    events: u64,
) -> Result<Totals, Refusal> {
    let totals = totals?;
    equal(rt, totals.events, events);
    Ok(totals)
}

/// What the table's books add up to, which is of as many events as its histories have. These are
/// merged.
fn gathered<K: Ledgers>(
    rt: &impl Abort,
    alloc: Global,
    limits: Limits,
    table: PhaserTable<u32, K>,
    shares: Vec<Shares<K>>,
) -> Result<Totals, Refusal>
    requires { limits_fit limits ≡ true }
{
    let parts = table.into_parts();
    let events = merged(rt, alloc, limits, &parts.parts)?;
    of_events(rt, gather(shares, parts.phasers, parts.books), events)
}
