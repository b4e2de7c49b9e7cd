//! Two phasers and three workers: what is posted is gathered, and a share that is missing is
//! noticed.
ghost use Rattle.std.specs.Prelude.{◌≡◌, ◌<◌, ◌≤◌};
ghost use Rattle.share_book.specs.Opening.{IsNamed, IsParted};

use crate::asserted::equal;
use phase_model::Event;
use phase_modes::Refusal;
use share_book::{Blanks, Books, Ledgers, PhaserBook, Seven, Shares, Totals, gather, open, post};
use std::alloc::Global;
use std::marker::Brand;
use std::process::Abort;
use std::sync::ledger::Ledger;
use std::test::*;

/// A phaser and a worker, the event that is posted for both, and what the books then add up to:
/// events, values sent up, and values sent down.
type Posting = (usize, usize, Event, [u64; 3]);

const POSTINGS: [Posting; 3] = [
    (1, 2, Event::Send(0, 0, 7), [1, 7, 0]),
    (0, 0, Event::Sig(0, None), [2, 7, 0]),
    (0, 2, Event::Send(0, 0, i32::MIN), [3, 7, 2_147_483_648]),
];

#[test]
fn posted_is_gathered(rt: HostRuntime) -> Result<(), Fail> {
    const TOTALS: Totals = Totals {
        events: 3,
        up: 7,
        down: 2_147_483_648,
    };
    let totals = run_over::<HostRuntime, Brand, Brand, Brand, Brand, Brand, Brand, Brand>(
        &rt,
        rt.alloc(),
        Blanks::new(2, 3),
        3,
    );
    equal(&rt, totals, Ok(TOTALS));
    Ok(())
}

#[test]
fn missing_share_is_noticed(rt: HostRuntime) -> Result<(), Fail> {
    let totals = run_over::<HostRuntime, Brand, Brand, Brand, Brand, Brand, Brand, Brand>(
        &rt,
        rt.alloc(),
        Blanks::new(2, 3),
        2,
    );
    equal(&rt, totals, Err(Refusal::SharesDiffer));
    Ok(())
}

// Names the ledgers.
fn run_over<R: Abort, A: Ledger, B: Ledger, C: Ledger, D: Ledger, E: Ledger, F: Ledger, G: Ledger>(
    rt: &R,
    alloc: Global,
    blanks: Blanks,
    kept: usize,
) -> Result<Totals, Refusal>
    requires names { IsNamed blanks A.name B.name C.name D.name E.name F.name G.name }
    requires parts { IsParted blanks A.parts B.parts C.parts D.parts E.parts F.parts G.parts }
    requires sizes { (blanks.phasers ≡ 2) × (blanks.workers ≡ 3) }
{
    run::<Seven<A, B, C, D, E, F, G>, R>(rt, alloc, blanks, kept)
}

/// What is gathered from the first so many of the shares, once all is posted.
fn run<K: Ledgers, R: Abort>(
    rt: &R,
    alloc: Global,
    blanks: Blanks,
    kept: usize,
) -> Result<Totals, Refusal>
    requires names { IsNamed blanks K.EventsByPhaser.name K.EventsByWorker.name K.UpByPhaser.name
        K.UpByWorker.name K.DownByPhaser.name K.DownByWorker.name K.Room.name }
    requires parts { IsParted blanks K.EventsByPhaser.parts K.EventsByWorker.parts K.UpByPhaser.parts
        K.UpByWorker.parts K.DownByPhaser.parts K.DownByWorker.parts K.Room.parts }
    requires sizes { (blanks.phasers ≡ 2) × (blanks.workers ≡ 3) }
{
    let (mut books, mut phasers, mut shares) = open::<K>(alloc, blanks)?;
    post_all(rt, &mut books, &mut phasers, &mut shares);
    shares.truncate(kept);
    gather(shares, phasers, books)
}

/// All is posted, each posting by the share of its worker in the book of its phaser.
fn post_all<K: Ledgers>(
    rt: &impl Abort,
    books: &mut Books<K>,
    phasers: &mut Vec<PhaserBook<K>>,
    shares: &mut Vec<Shares<K>>,
) {
    for (phaser, worker, event, totals) in POSTINGS {
        if let (Some(phaser), Some(mine)) = (phasers.get_mut(phaser), shares.get_mut(worker)) {
            post_one(rt, books, phaser, mine, event, totals);
        }
    }
}

/// The event is posted, and the books then add up to these totals.
fn post_one<K: Ledgers>(
    rt: &impl Abort,
    books: &mut Books<K>,
    phaser: &mut PhaserBook<K>,
    mine: &mut Shares<K>,
    event: Event,
    totals: [u64; 3],
) {
    if phaser.room_left() > 0 {
        post(books, phaser, mine, &event);
    }
    let so_far = books.so_far(mine);
    equal(rt, [so_far.events, so_far.up, so_far.down], totals);
}
