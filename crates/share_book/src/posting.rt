//! One event enters all books.
ghost use Rattle.std.specs.Prelude.{◌≡◌, ◌+◌, ◌<◌};
ghost use Rattle.phase_model.specs.Amounts.{amount, plus};

use crate::amounts::{down, up};
use crate::books::{Books, PhaserBook, Shares};
use crate::ledgers::Ledgers;
use crate::tally::Part;
use phase_model::Event;
use std::sync::ledger::{Book, Ledger};

// Takes one of the room.
fn take_room<L: Ledger>(left: &mut u64, book: &mut Book<L>, part: &mut Part<L>)
    requires same { book.old.total ≡ left.old }
    requires some { 0 < part.old.amount }
    ensures same { book.new.total ≡ left.new }
    ensures left { left.new + 1 ≡ left.old }
    ensures part { part.new.amount + 1 ≡ part.old.amount }
{
    let Part { amount, share } = part;
    book.audit(share);
    book.sub(share, 1);
    *left -= 1;
    *amount -= 1;
}

/// Takes one of the phaser's room, and raises the books, the phaser's book and the worker's shares
/// by what the event amounts to.
#[inline(always)]
pub fn post<K: Ledgers>(
    books: &mut Books<K>,
    phaser: &mut PhaserBook<K>,
    mine: &mut Shares<K>,
    event: &Event,
)
    requires { 0 < phaser.old.room }
    ensures books { books.new.totals ≡ plus (amount event.now) books.old.totals }
    ensures phaser { phaser.new.totals ≡ plus (amount event.now) phaser.old.totals }
    ensures mine { mine.new ≡ plus (amount event.now) mine.old }
    ensures room { (books.new.room + 1 ≡ books.old.room) × (phaser.new.room + 1 ≡ phaser.old.room) }
    ensures same { (books.new.phasers ≡ books.old.phasers) × (phaser.new.number ≡ phaser.old.number) }
{
    let Books {
        phasers: _,
        room_left,
        events: of_events,
        up: of_up,
        down: of_down,
        room,
    } = books;
    take_room(room_left, room, &mut phaser.room);
    of_events.raise(&mut phaser.events, &mut mine.events, 1);
    of_up.raise(&mut phaser.up, &mut mine.up, up(event));
    of_down.raise(&mut phaser.down, &mut mine.down, down(event));
}
