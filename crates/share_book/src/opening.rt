//! The books, the phasers' books and the workers' shares as a run begins with them.
ghost use Rattle.std.specs.Prelude.{◌≡◌, ℕ, ◌+◌, ◌*◌, ◌<◌, ◌≤◌, All, IfOk, IfErr, IfSome, vec_len, slice_get};
ghost use Rattle.share_book.specs.Accounts.{nothing, fresh_books};
ghost use Rattle.share_book.specs.Opening.{IsNamed, IsParted};

use crate::blanks::Blanks;
use crate::books::{Books, PhaserBook, Shares};
use crate::ledgers::Ledgers;
use crate::tally::{Part, Tally};
use phase_modes::Refusal;
use std::alloc::{AllocError, Global};
use std::sync::ledger::{Blank, Book, Ledger, Share};

// A kind's books, and all parts of them.
fn tally<P: Ledger, W: Ledger>(phasers: Blank, workers: Blank) -> (Tally<P, W>, Share<P>, Share<W>)
    requires phasers { (phasers.name ≡ P.name) × (phasers.parts ≡ P.parts) }
    requires workers { (workers.name ≡ W.name) × (workers.parts ≡ W.parts) }
    ensures amount { result.0.amount ≡ 0 }
    ensures phasers { (result.1.parts ≡ P.parts) × (result.1.amount ≡ 0) }
    ensures workers { (result.2.parts ≡ W.parts) × (result.2.amount ≡ 0) }
{
    let (phaser_book, mut all_phasers) = phasers.open::<P>();
    let (worker_book, mut all_workers) = workers.open::<W>();
    let no_phaser = all_phasers.empty();
    let no_worker = all_workers.empty();
    (
        Tally {
            amount: 0,
            phasers: phaser_book,
            workers: worker_book,
            no_phaser,
            no_worker,
        },
        all_phasers,
        all_workers,
    )
}

// One part, split off from the rest.
fn part<L: Ledger>(rest: &mut Share<L>, amount: u64) -> Part<L>
    requires parts { 0 < rest.old.parts }
    requires amount { amount ≤ rest.old.amount }
    requires backed { rest.old.parts ≡ 1 → rest.old.amount ≡ amount }
    ensures amount { result.amount ≡ amount }
    ensures rest { (rest.new.parts + 1 ≡ rest.old.parts) × (rest.new.amount + amount ≡ rest.old.amount) }
{
    let share = rest.split_off(1, amount);
    Part { amount, share }
}

fn phaser_books<K: Ledgers>(
    alloc: Global,
    phasers: u32,
    mut events: Share<K::EventsByPhaser>,
    mut up: Share<K::UpByPhaser>,
    mut down: Share<K::DownByPhaser>,
    mut room: Share<K::Room>,
) -> Result<Vec<PhaserBook<K>>, AllocError>
    requires events { (events.parts ≡ phasers) × (events.amount ≡ 0) }
    requires up { (up.parts ≡ phasers) × (up.amount ≡ 0) }
    requires down { (down.parts ≡ phasers) × (down.amount ≡ 0) }
    requires room { (room.parts ≡ phasers) × (room.amount ≡ 65536 * phasers) }
    ensures length { IfOk result (λ v. vec_len v ≡ phasers) }
    ensures fresh { IfOk result (λ v. All (λ b. (b.totals ≡ nothing) × (b.room ≡ 65536)) v.items) }
    ensures numbers { IfOk result (λ v. (i : ℕ) → IfSome (slice_get v.items i) (λ b. b.number ≡ i)) }
{
    let mut books = Vec::new(alloc);
    for number in 0..phasers {
        books.push(PhaserBook {
            number,
            events: part(&mut events, 0),
            up: part(&mut up, 0),
            down: part(&mut down, 0),
            room: part(&mut room, 65536),
        })?;
    }
    Ok(books)
}

fn worker_shares<K: Ledgers>(
    alloc: Global,
    workers: u32,
    mut events: Share<K::EventsByWorker>,
    mut up: Share<K::UpByWorker>,
    mut down: Share<K::DownByWorker>,
) -> Result<Vec<Shares<K>>, AllocError>
    requires events { (events.parts ≡ workers) × (events.amount ≡ 0) }
    requires up { (up.parts ≡ workers) × (up.amount ≡ 0) }
    requires down { (down.parts ≡ workers) × (down.amount ≡ 0) }
    ensures length { IfOk result (λ v. vec_len v ≡ workers) }
    ensures fresh { IfOk result (λ v. All (λ s. s ≡ nothing) v.items) }
{
    let mut shares = Vec::new(alloc);
    for _number in 0..workers {
        shares.push(Shares {
            events: part(&mut events, 0),
            up: part(&mut up, 0),
            down: part(&mut down, 0),
        })?;
    }
    Ok(shares)
}

/// The books of a run before its first event, one phaser's book for each phaser in order, and one
/// worker's shares for each worker: all amounts 0, and room for 65,536 events of each phaser. Fails
/// with `Memory` if a growth is refused.
pub fn open<K: Ledgers>(
    alloc: Global,
    blanks: Blanks,
) -> Result<(Books<K>, Vec<PhaserBook<K>>, Vec<Shares<K>>), Refusal>
    requires names { IsNamed blanks K.EventsByPhaser.name K.EventsByWorker.name K.UpByPhaser.name
        K.UpByWorker.name K.DownByPhaser.name K.DownByWorker.name K.Room.name }
    requires parts { IsParted blanks K.EventsByPhaser.parts K.EventsByWorker.parts K.UpByPhaser.parts
        K.UpByWorker.parts K.DownByPhaser.parts K.DownByWorker.parts K.Room.parts }
    ensures books { IfOk result (λ r. r.0 ≡ fresh_books blanks.phasers) }
    ensures phasers { IfOk result (λ r. vec_len r.1 ≡ blanks.phasers) }
    ensures fresh { IfOk result (λ r. All (λ b. (b.totals ≡ nothing) × (b.room ≡ 65536)) r.1.items) }
    ensures numbers { IfOk result (λ r. (i : ℕ) → IfSome (slice_get r.1.items i) (λ b. b.number ≡ i)) }
    ensures workers { IfOk result (λ r. (vec_len r.2 ≡ blanks.workers) × All (λ s. s ≡ nothing) r.2.items) }
    ensures memory { IfErr result (λ e. e ≡ Refusal.Memory) }
{
    let Blanks {
        phasers,
        workers,
        events_by_phaser,
        events_by_worker,
        up_by_phaser,
        up_by_worker,
        down_by_phaser,
        down_by_worker,
        room,
    } = blanks;
    let (events, phaser_events, worker_events) = tally::<K::EventsByPhaser, K::EventsByWorker>(
        events_by_phaser,
        events_by_worker,
    );
    let (up, phaser_up, worker_up) = tally::<K::UpByPhaser, K::UpByWorker>(
        up_by_phaser,
        up_by_worker,
    );
    let (down, phaser_down, worker_down) = tally::<K::DownByPhaser, K::DownByWorker>(
        down_by_phaser,
        down_by_worker,
    );
    let (mut room, mut all_room) = room.open::<K::Room>();
    let room_left = 65536 * u64::from(phasers);
    add_room(&mut room, &mut all_room, room_left);
    let books = Books {
        phasers: u64::from(phasers),
        room_left,
        events,
        up,
        down,
        room,
    };
    let phasers = phaser_books::<K>(
        alloc,
        phasers,
        phaser_events,
        phaser_up,
        phaser_down,
        all_room,
    )?;
    let workers = worker_shares::<K>(alloc, workers, worker_events, worker_up, worker_down)?;
    Ok((books, phasers, workers))
}

// Nothing is added if there is no part.
fn add_room<L: Ledger>(book: &mut Book<L>, all: &mut Share<L>, room: u64)
    requires { all.old.parts ≡ 0 → room ≡ 0 }
    ensures book { book.new.total ≡ book.old.total + room }
    ensures all { (all.new.amount ≡ all.old.amount + room) × (all.new.parts ≡ all.old.parts) }
{
    if room > 0 {
        book.add(all, room);
    }
}
