//! Which phaser has which log.
use share_book::{Ledgers, SharedLedgers};
use std::marker::{Brand, PhantomData};

/// The names of the phasers' logs, by the phasers' numbers, and the limits of all. Each run picks
/// them.
pub trait Logs {
    ghost use Rattle.std.specs.Prelude.{ℕ};
    ghost use Rattle.phase_modes.specs.declared.limits.Limits.{Limits};

    ghost logs: { ℕ → ℕ };

    ghost limits: { Limits };
}

impl Logs for Brand {
    ghost use Rattle.phase_modes.specs.declared.limits.Limits.{Limits};

    ghost logs = { λ _. 0 };

    ghost limits = { record { acts = 0; finishes = 0; history = 0; phasers = 0; regs = 0; tasks = 0 } };
}

/// The ledgers of a run, and the names of its phasers' logs.
pub trait Naming: Ledgers + Logs {}

/// Ledgers of one type, and logs of another.
#[derive(Drop)]
pub struct Named<S, L>(PhantomData<(S, L)>);

impl<S: Ledgers, L: Logs> Ledgers for Named<S, L> {
    type EventsByPhaser = S::EventsByPhaser;

    type EventsByWorker = S::EventsByWorker;

    type UpByPhaser = S::UpByPhaser;

    type UpByWorker = S::UpByWorker;

    type DownByPhaser = S::DownByPhaser;

    type DownByWorker = S::DownByWorker;

    type Room = S::Room;
}

impl<S: Ledgers, L: Logs> Logs for Named<S, L> {
    ghost logs = { L.Logs.logs };

    ghost limits = { L.Logs.limits };
}

impl<S: Ledgers, L: Logs> Naming for Named<S, L> {}

impl<S: SharedLedgers, L: Logs + Send + Sync> SharedLedgers for Named<S, L> {}
