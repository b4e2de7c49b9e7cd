//! What a run's types are named by: its ledgers, its logs, and what its bodies suppose.
use share_book::Ledgers;
use std::marker::Brand;
use table_receipts::{Logs, Named, Naming};

/// What has to hold for what a run's bodies say: that its root says nothing false at its start. And what
/// they say of their tasks.
pub trait Supposing {
    ghost use Rattle.std.specs.Prelude.{ℕ};
    ghost use Rattle.tasks_in_flight.specs.Heard.{Seen};

    ghost supposed: { Type 0 };

    /// What a body says of its task, which has seen this much, once the body is no more.
    ghost told: { ℕ → Seen → Type 0 };
}

impl Supposing for Brand {
    ghost supposed = { Unit {0} };

    ghost told = { λ _ _. Unit {0} };
}

impl<S: Ledgers, L: Logs + Supposing> Supposing for Named<S, L> {
    ghost supposed = { L.Supposing.supposed };

    ghost told = { L.Supposing.told };
}

/// The ledgers and the logs of a run, and what its bodies suppose.
pub trait RunNaming: Naming + Supposing {}

impl<S: Ledgers, L: Logs + Supposing> RunNaming for Named<S, L> {}
