//! The slot of a finish.
ghost use Rattle.std.specs.Prelude.{◌≡◌, ◌<◌, ◌+◌, ◌&&◌, ◌==◌, ◌^◌, true, false, None};
ghost use Rattle.live_world.specs.inner.Steps.{emptier, freed_by};

use std::marker::Model;

/// The slot of a finish. Contracts see a `FinishLine`.
#[derive(Drop)]
pub(crate) struct FinishRow {
    number: u64,
    taken: bool,
    /// How many tasks that were spawned in it go on.
    alive: u64,
    /// The slot of its owner, while that is parked until they have ended.
    waiter: Option<u32>,
    /// The slot that is free after this one, if this one is free.
    next_free: u32,
}

impl Model for FinishRow {
    ghost use Rattle.live_world.specs.Live.{FinishLine};

    ghost Value = { FinishLine };

    ghost view = { λ r. record { number = r.number; taken = r.taken; alive = r.alive; waiter = r.waiter } };
}

impl FinishRow {
    /// A finish that was just opened.
    pub(crate) fn opened(number: u64) -> FinishRow
        ensures { result ≡ record { number = number; taken = true; alive = 0; waiter = None } }
    {
        FinishRow {
            number,
            taken: true,
            alive: 0,
            waiter: None,
            next_free: 0,
        }
    }

    /// Whether a finish is there.
    pub(crate) fn is_taken(&self) -> bool
        ensures { result ≡ self.now.taken }
    {
        self.taken
    }

    /// How many of its tasks go on.
    pub(crate) fn alive(&self) -> u64
        ensures { result ≡ self.now.alive }
    {
        self.alive
    }

    /// Counts one task more in it.
    pub(crate) fn note_birth(&mut self)
        requires { self.old.alive + 1 < 2 ^ 64 }
        ensures { self.new ≡ record self.old { alive = self.old.alive + 1 } }
    {
        self.alive += 1;
    }

    /// Counts one task less in it. The slot of its owner, if that waited for just this.
    pub(crate) fn note_end(&mut self) -> Option<u32>
        ensures emptier { self.new ≡ emptier self.old }
        ensures freed { result ≡ freed_by self.old }
    {
        self.alive = self.alive.saturating_sub(1);
        if self.alive == 0 {
            return self.waiter.take();
        }
        None
    }

    /// The slot that is free after this one, if this one is free.
    pub(crate) fn next_free(&self) -> u32 {
        self.next_free
    }
}
