//! The seven ledgers of a run under one name.
use std::marker::PhantomData;
use std::sync::ledger::Ledger;

/// The seven ledgers of a run: of each kind one with a part for each phaser and one with a part for
/// each worker, and one of the room that each phaser has for events.
pub trait Ledgers {
    type EventsByPhaser: Ledger;

    type EventsByWorker: Ledger;

    type UpByPhaser: Ledger;

    type UpByWorker: Ledger;

    type DownByPhaser: Ledger;

    type DownByWorker: Ledger;

    type Room: Ledger;
}

/// Ledgers whose books and shares several threads may have.
pub trait SharedLedgers: Ledgers<
    EventsByPhaser: Send + Sync,
    EventsByWorker: Send + Sync,
    UpByPhaser: Send + Sync,
    UpByWorker: Send + Sync,
    DownByPhaser: Send + Sync,
    DownByWorker: Send + Sync,
    Room: Send + Sync,
>
    + Send
    + Sync {}

/// Seven ledgers, each by a type of its own.
#[derive(Drop)]
pub struct Seven<A, B, C, D, E, F, G>(PhantomData<(A, B, C, D, E, F, G)>);

impl<A: Ledger, B: Ledger, C: Ledger, D: Ledger, E: Ledger, F: Ledger, G: Ledger> Ledgers
    for Seven<A, B, C, D, E, F, G> {
    type EventsByPhaser = A;

    type EventsByWorker = B;

    type UpByPhaser = C;

    type UpByWorker = D;

    type DownByPhaser = E;

    type DownByWorker = F;

    type Room = G;
}

impl<
    A: Ledger + Send + Sync,
    B: Ledger + Send + Sync,
    C: Ledger + Send + Sync,
    D: Ledger + Send + Sync,
    E: Ledger + Send + Sync,
    F: Ledger + Send + Sync,
    G: Ledger + Send + Sync,
> SharedLedgers for Seven<A, B, C, D, E, F, G> {}
