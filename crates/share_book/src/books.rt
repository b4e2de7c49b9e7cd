//! What the run, a phaser and a worker hold.
ghost use Rattle.std.specs.Prelude.{◌≡◌, ◌+◌, ◌*◌, ◌≤◌};
ghost use Rattle.share_book.specs.Accounts.{IsWithin, amount_of};

use crate::gathering::Totals;
use crate::ledgers::Ledgers;
use crate::tally::{Part, Tally};
use std::marker::Model;
use std::sync::ledger::Book;

/// The books of a run, of all phasers and workers together.
///
/// The type keeps that of each kind the total by phaser equals that by worker, that room and events
/// together are 65,536 for each phaser, and that what was sent up and what was sent down are at
/// most 2^31 for each event. So no total passes a u64. Contracts see what the books add up to.
#[derive(Drop)]
pub struct Books<K: Ledgers> {
    pub(crate) phasers: u64,
    pub(crate) room_left: u64,
    pub(crate) events: Tally<K::EventsByPhaser, K::EventsByWorker>,
    pub(crate) up: Tally<K::UpByPhaser, K::UpByWorker>,
    pub(crate) down: Tally<K::DownByPhaser, K::DownByWorker>,
    pub(crate) room: Book<K::Room>,
    ghost few: { phasers ≤ 64 },
    ghost room_is: { room.total ≡ room_left },
    ghost all_room: { room_left + events.amount ≡ 65536 * phasers },
    ghost up_within: { up.amount ≤ 2147483648 * events.amount },
    ghost down_within: { down.amount ≤ 2147483648 * events.amount },
}

impl<K: Ledgers> Model for Books<K> {
    ghost use Rattle.share_book.specs.Accounts.{Account};

    ghost Value = { Account };

    ghost view = { λ b. record {
      phasers = b.phasers;
      room = b.room_left;
      totals = record { events = b.events.amount; up = b.up.amount; down = b.down.amount };
    } };
}

/// What one phaser has in each book. Contracts see its number, how many events it still has room
/// for, and what its events add up to.
#[derive(Drop)]
pub struct PhaserBook<K: Ledgers> {
    pub(crate) number: u32,
    pub(crate) events: Part<K::EventsByPhaser>,
    pub(crate) up: Part<K::UpByPhaser>,
    pub(crate) down: Part<K::DownByPhaser>,
    pub(crate) room: Part<K::Room>,
}

impl<K: Ledgers> Model for PhaserBook<K> {
    ghost use Rattle.share_book.specs.Accounts.{Entry};

    ghost Value = { Entry };

    ghost view = { λ b. record {
      number = b.number;
      room = b.room.amount;
      totals = record { events = b.events.amount; up = b.up.amount; down = b.down.amount };
    } };
}

impl<K: Ledgers> PhaserBook<K> {
    /// How many events the phaser still has room for, at most 65,536.
    pub fn room_left(&self) -> u64
        ensures { result ≡ self.now.room }
    {
        self.room.amount
    }
}

/// What one worker has in each book. Contracts see what it has posted.
#[derive(Drop)]
pub struct Shares<K: Ledgers> {
    pub(crate) events: Part<K::EventsByWorker>,
    pub(crate) up: Part<K::UpByWorker>,
    pub(crate) down: Part<K::DownByWorker>,
}

impl<K: Ledgers> Model for Shares<K> {
    ghost use Rattle.phase_model.specs.Amounts.{Amount};

    ghost Value = { Amount };

    ghost view = { λ s. record { events = s.events.amount; up = s.up.amount; down = s.down.amount } };
}

impl<K: Ledgers> Books<K> {
    /// What all phasers together add up to so far: of no kind less than what this worker has
    /// posted. Nothing changes.
    pub fn so_far(&mut self, mine: &mut Shares<K>) -> Totals
        ensures totals { amount_of result ≡ self.new.totals }
        ensures within { IsWithin mine.new (amount_of result) }
        ensures same { (self.new ≡ self.old) × (mine.new ≡ mine.old) }
    {
        let Books {
            events,
            up,
            down,
            ..
        } = self;
        events.covers(&mut mine.events);
        up.covers(&mut mine.up);
        down.covers(&mut mine.down);
        Totals {
            events: events.amount,
            up: up.amount,
            down: down.amount,
        }
    }
}
