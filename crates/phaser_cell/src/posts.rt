//! How a call posts its event: to books that it has,
//! or under the books' own lock for that one post.
ghost use Rattle.std.specs.Prelude.{◌≡◌, ◌+◌, ◌<◌, true, vec_len, vec_capacity};
ghost use Rattle.phase_model.specs.Amounts.{Amount, amount, plus};
ghost use Rattle.share_book.specs.Accounts.{nothing};
ghost use Rattle.phaser_cell.specs.Amounts.{amount_if, plus_nothing};
ghost use Rattle.phaser_cell.specs.Drawn.{IsDrawn};

use crate::tickets::Tickets;
use phase_model::Event;
use share_book::{Books, Ledgers, PhaserBook, Shares, post};
use std::sync::{Mutex, Wait};

/// Where events are posted.
pub trait Post<K: Ledgers> {
    /// What it says of the books before and after, if they rose by so much.
    ghost rose: { Self → Self → Amount → Type 0 };

    /// Takes one of the phaser's room, and raises the books, the phaser's book and the worker's
    /// shares by what the event amounts to.
    fn post(&mut self, book: &mut PhaserBook<K>, mine: &mut Shares<K>, event: &Event)
        requires { 0 < book.old.room }
        ensures books { rose self.old self.new (amount event.now) }
        ensures book { book.new.totals ≡ plus (amount event.now) book.old.totals }
        ensures room { book.new.room + 1 ≡ book.old.room }
        ensures mine { mine.new ≡ plus (amount event.now) mine.old };

    /// If nothing is posted, the books rose by nothing.
    ghost stays: { (b : Self) → rose b b nothing };
}

impl<K: Ledgers> Post<K> for Books<K> {
    ghost rose = { λ old new a. new.totals ≡ plus a old.totals };

    #[inline(always)]
    fn post(&mut self, book: &mut PhaserBook<K>, mine: &mut Shares<K>, event: &Event) {
        post(self, book, mine, event)
    }

    ghost stays = { λ b. plus_nothing b.totals };
}

/// The books behind their lock, which is taken for each post alone.
#[derive(Drop)]
pub struct Locked<'a, K: Ledgers, R: Wait> {
    pub rt: &'a R,
    pub books: &'a Mutex<Books<K>>,
}

impl<'a, K: Ledgers, R: Wait> Post<K> for Locked<'a, K, R> {
    ghost rose = { λ old new a. Unit {0} };

    #[inline(always)]
    fn post(&mut self, book: &mut PhaserBook<K>, mine: &mut Shares<K>, event: &Event) {
        let mut books = self.books.lock(self.rt);
        post(&mut books, book, mine, event)
    }

    ghost stays = { λ b. tt };
}

/// Posts the event of a call if it was added, and draws its ticket.
// Where it is called the event's kind is known, so of most events only the count is written.
#[inline(always)]
pub(crate) fn post_if<K: Ledgers, B: Post<K>>(
    added: bool,
    tickets: &Tickets,
    drawn: &mut Vec<u64>,
    book: &mut PhaserBook<K>,
    books: &mut B,
    mine: &mut Shares<K>,
    event: Event,
)
    requires room { added ≡ true → 0 < book.old.room }
    requires room_for_ticket { added ≡ true → vec_len drawn.old < vec_capacity drawn.old }
    ensures tickets { IsDrawn added drawn.old.items drawn.new.items }
    ensures drawn { vec_len drawn.new ≡ vec_len drawn.old + (amount_if added event).events }
    ensures room_for_tickets { vec_capacity drawn.new ≡ vec_capacity drawn.old }
    ensures book { book.new.totals ≡ plus (amount_if added event) book.old.totals }
    ensures room { book.new.room + (amount_if added event).events ≡ book.old.room }
    ensures books { B.rose books.old books.new (amount_if added event) }
    ensures mine { mine.new ≡ plus (amount_if added event) mine.old }
{
    if added {
        drawn.push_reserved(tickets.draw());
        books.post(book, mine, &event);
    }
}
