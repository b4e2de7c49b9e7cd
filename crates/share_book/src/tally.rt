//! The two ledgers of one kind, and the parts of them: the same for all kinds.
ghost use Rattle.std.specs.Prelude.{◌≡◌, ◌+◌, ◌^◌, ◌<◌, ◌≤◌};

use std::sync::ledger::{Book, Ledger, Share};

/// One part of a ledger, and its amount.
#[derive(Drop)]
pub(crate) struct Part<L: Ledger> {
    pub(crate) amount: u64,
    pub(crate) share: Share<L>,
    ghost one: { share.parts ≡ 1 },
    ghost same: { share.amount ≡ amount },
}

/// The two books of one kind, by phaser and by worker. Their totals are equal.
#[derive(Drop)]
pub(crate) struct Tally<P: Ledger, W: Ledger> {
    pub(crate) amount: u64,
    pub(crate) phasers: Book<P>,
    pub(crate) workers: Book<W>,
    pub(crate) no_phaser: Share<P>,
    pub(crate) no_worker: Share<W>,
    ghost phasers_is: { phasers.total ≡ amount },
    ghost workers_is: { workers.total ≡ amount },
    ghost no_phaser_is: { no_phaser.parts ≡ 0 },
    ghost no_worker_is: { no_worker.parts ≡ 0 },
}

impl<P: Ledger, W: Ledger> Tally<P, W> {
    /// Raises both totals, the phaser's part and the worker's part.
    pub(crate) fn raise(&mut self, phaser: &mut Part<P>, worker: &mut Part<W>, by: u64)
        requires { self.old.amount + by < 2 ^ 64 }
        ensures total { self.new.amount ≡ self.old.amount + by }
        ensures phaser { phaser.new.amount ≡ phaser.old.amount + by }
        ensures worker { worker.new.amount ≡ worker.old.amount + by }
    {
        let Tally {
            amount,
            phasers,
            workers,
            no_phaser: _,
            no_worker: _,
        } = self;
        let Part {
            amount: of_phaser,
            share: phaser_share,
        } = phaser;
        let Part {
            amount: of_worker,
            share: worker_share,
        } = worker;
        phasers.audit(phaser_share);
        workers.audit(worker_share);
        phasers.add(phaser_share, by);
        workers.add(worker_share, by);
        *amount += by;
        *of_phaser += by;
        *of_worker += by;
    }

    /// A part is no more than the total.
    pub(crate) fn covers(&mut self, worker: &mut Part<W>)
        ensures same { (self.new.amount ≡ self.old.amount) × (worker.new.amount ≡ worker.old.amount) }
        ensures within { worker.new.amount ≤ self.new.amount }
    {
        let Tally { workers, .. } = self;
        let Part { share, .. } = worker;
        workers.audit(share);
    }
}
