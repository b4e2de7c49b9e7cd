//! All parts together again.
ghost use Rattle.std.specs.Prelude.{◌≡◌, ◌+◌, ◌^◌, ◌<◌, ◌↔◌, IsTrue, IsOk, IfOk, IfErr, vec_len};
ghost use Rattle.std.specs.List.{sum_by};
ghost use Rattle.share_book.specs.Accounts.{sum, sum_of_books, amount_of};
ghost use Rattle.share_book.specs.Opening.{AreAllParts};

use crate::books::{Books, PhaserBook, Shares};
use crate::ledgers::Ledgers;
use crate::tally::{Part, Tally};
use phase_modes::Refusal;
use std::sync::ledger::{Book, Ledger, Share};

/// What a run added up to: events, the sum of the positive values sent, and the sum of the negative
/// values' magnitudes.
#[derive(Clone, Copy, Debug, PartialEq, Eq, Drop)]
pub struct Totals {
    pub events: u64,
    pub up: u64,
    pub down: u64,
}

// Parts that were put together.
#[derive(Drop)]
struct Sum<L: Ledger> {
    amount: u64,
    share: Share<L>,
    ghost same: { share.amount ≡ amount },
}

impl<L: Ledger> Sum<L> {
    // Takes in a part. The whole is never more than the book's total, and all parts are the total.
    fn take_in(&mut self, book: &mut Book<L>, part: Part<L>)
        requires { book.old.total < 2 ^ 64 }
        ensures book { book.new.total ≡ book.old.total }
        ensures amount { self.new.amount ≡ self.old.amount + part.amount }
        ensures parts { self.new.share.parts ≡ self.old.share.parts + 1 }
    {
        let Part {
            amount: more,
            share: other,
        } = part;
        let Sum { amount, share } = self;
        share.merge(other);
        book.audit(share);
        *amount += more;
    }

    // Whether these parts are the book's total.
    fn is_total(&mut self, book: &mut Book<L>, total: u64) -> bool
        requires { book.old.total ≡ total }
        ensures test { IsTrue result ↔ (self.new.amount ≡ total) }
        ensures same { (self.new.amount ≡ self.old.amount) × (book.new.total ≡ book.old.total) }
        ensures all { self.old.share.parts ≡ L.parts → IsTrue result }
    {
        let Sum { amount, share } = self;
        book.audit(share);
        *amount == total
    }
}

fn no_part<L: Ledger>(book: &mut Book<L>, share: &mut Share<L>) -> Sum<L>
    ensures result { (result.amount ≡ 0) × (result.share.parts ≡ 0) }
    ensures same { (book.new.total ≡ book.old.total) × (share.new ≡ share.old) }
{
    Sum {
        amount: 0,
        share: share.empty(),
    }
}

impl<P: Ledger, W: Ledger> Tally<P, W> {
    fn no_worker(&mut self) -> Sum<W>
        ensures result { (result.amount ≡ 0) × (result.share.parts ≡ 0) }
        ensures same { self.new.amount ≡ self.old.amount }
    {
        let Tally {
            workers,
            no_worker,
            ..
        } = self;
        no_part(workers, no_worker)
    }

    fn take_worker(&mut self, sum: &mut Sum<W>, part: Part<W>)
        ensures same { self.new.amount ≡ self.old.amount }
        ensures amount { sum.new.amount ≡ sum.old.amount + part.amount }
        ensures parts { sum.new.share.parts ≡ sum.old.share.parts + 1 }
    {
        let _total = self.amount;
        let Tally { workers, .. } = self;
        sum.take_in(workers, part)
    }

    fn are_all_workers(&mut self, sum: &mut Sum<W>) -> bool
        ensures same { (self.new.amount ≡ self.old.amount) × (sum.new.amount ≡ sum.old.amount) }
        ensures test { IsTrue result ↔ (sum.old.amount ≡ self.old.amount) }
        ensures all { sum.old.share.parts ≡ W.parts → IsTrue result }
    {
        let total = self.amount;
        let Tally { workers, .. } = self;
        sum.is_total(workers, total)
    }

    fn no_phaser(&mut self) -> Sum<P>
        ensures result { (result.amount ≡ 0) × (result.share.parts ≡ 0) }
        ensures same { self.new.amount ≡ self.old.amount }
    {
        let Tally {
            phasers,
            no_phaser,
            ..
        } = self;
        no_part(phasers, no_phaser)
    }

    fn take_phaser(&mut self, sum: &mut Sum<P>, part: Part<P>)
        ensures same { self.new.amount ≡ self.old.amount }
        ensures amount { sum.new.amount ≡ sum.old.amount + part.amount }
        ensures parts { sum.new.share.parts ≡ sum.old.share.parts + 1 }
    {
        let _total = self.amount;
        let Tally { phasers, .. } = self;
        sum.take_in(phasers, part)
    }

    fn are_all_phasers(&mut self, sum: &mut Sum<P>) -> bool
        ensures same { (self.new.amount ≡ self.old.amount) × (sum.new.amount ≡ sum.old.amount) }
        ensures test { IsTrue result ↔ (sum.old.amount ≡ self.old.amount) }
        ensures all { sum.old.share.parts ≡ P.parts → IsTrue result }
    {
        let total = self.amount;
        let Tally { phasers, .. } = self;
        sum.is_total(phasers, total)
    }
}

// Whether the workers' shares add up to the books.
fn are_workers_all<K: Ledgers>(books: &mut Books<K>, shares: Vec<Shares<K>>) -> bool
    ensures same { books.new ≡ books.old }
    ensures test { IsTrue result ↔ (sum shares.items ≡ books.old.totals) }
    ensures all { AreAllParts (vec_len shares) K.EventsByWorker.parts K.UpByWorker.parts K.DownByWorker.parts
        → IsTrue result }
{
    let Books {
        events,
        up,
        down,
        ..
    } = books;
    let mut all_events = events.no_worker();
    let mut all_up = up.no_worker();
    let mut all_down = down.no_worker();
    for share in shares {
        let Shares {
            events: of_events,
            up: of_up,
            down: of_down,
        } = share;
        events.take_worker(&mut all_events, of_events);
        up.take_worker(&mut all_up, of_up);
        down.take_worker(&mut all_down, of_down);
    }
    let events_are = events.are_all_workers(&mut all_events);
    let up_are = up.are_all_workers(&mut all_up);
    let down_are = down.are_all_workers(&mut all_down);
    events_are && up_are && down_are
}

// Whether the phasers' books add up to the books.
fn are_phasers_all<K: Ledgers>(books: &mut Books<K>, phasers: Vec<PhaserBook<K>>) -> bool
    ensures same { books.new ≡ books.old }
    ensures test { IsTrue result ↔ (sum_of_books phasers.items ≡ books.old.totals) }
    ensures all { AreAllParts (vec_len phasers) K.EventsByPhaser.parts K.UpByPhaser.parts K.DownByPhaser.parts
        → IsTrue result }
{
    let Books {
        events,
        up,
        down,
        ..
    } = books;
    let mut all_events = events.no_phaser();
    let mut all_up = up.no_phaser();
    let mut all_down = down.no_phaser();
    for phaser in phasers {
        let PhaserBook {
            number: _,
            events: of_events,
            up: of_up,
            down: of_down,
            room: _,
        } = phaser;
        events.take_phaser(&mut all_events, of_events);
        up.take_phaser(&mut all_up, of_up);
        down.take_phaser(&mut all_down, of_down);
    }
    let events_are = events.are_all_phasers(&mut all_events);
    let up_are = up.are_all_phasers(&mut all_up);
    let down_are = down.are_all_phasers(&mut all_down);
    events_are && up_are && down_are
}

/// What the run added up to, if of each kind the shares and the phasers' books each add up to
/// the books; else `SharesDiffer`. With all parts of one `open` they do.
pub fn gather<K: Ledgers>(
    shares: Vec<Shares<K>>,
    phasers: Vec<PhaserBook<K>>,
    books: Books<K>,
) -> Result<Totals, Refusal>
    ensures exactly { IsOk result
        ↔ ((sum shares.items ≡ books.totals) × (sum_of_books phasers.items ≡ books.totals)) }
    ensures totals { IfOk result (λ t. amount_of t ≡ books.totals) }
    ensures differ { IfErr result (λ e. e ≡ Refusal.SharesDiffer) }
    ensures all { AreAllParts (vec_len shares) K.EventsByWorker.parts K.UpByWorker.parts K.DownByWorker.parts
        → AreAllParts (vec_len phasers) K.EventsByPhaser.parts K.UpByPhaser.parts K.DownByPhaser.parts
        → IsOk result }
{
    let mut books = books;
    let are_workers = are_workers_all(&mut books, shares);
    let are_phasers = are_phasers_all(&mut books, phasers);
    if are_workers && are_phasers {
        Ok(Totals {
            events: books.events.amount,
            up: books.up.amount,
            down: books.down.amount,
        })
    } else {
        Err(Refusal::SharesDiffer)
    }
}
