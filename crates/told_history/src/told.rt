//! The history.
ghost use Rattle.std.specs.Prelude.{◌≡◌, ◌≤◌, ◌<◌, [], length};
ghost use Rattle.phase_model.specs.Rules.{with_event};
ghost use Rattle.told_history.specs.Wide.{event_of, limits_of};

use crate::Whole;
use crate::wide::{LongEvent, LongLimits};
use phase_model::{Bound, Ops, Terms};
use std::marker::Model;

/// The history of a phaser, as `phase_model::History` but for this: the events stand in the proofs
/// alone, and what is kept is how many they are, by 64 bits.
#[derive(Drop)]
pub struct Told {
    limits: LongLimits,
    terms: Terms,
    count: u64,
    log: Whole<LongEvent>,
}

impl Model for Told {
    ghost use Rattle.std.specs.Prelude.{◌≡◌, ◌≤◌, length, map};
    ghost use Rattle.phase_model.specs.Rules.{Story};
    ghost use Rattle.told_history.specs.Wide.{event_of, limits_of};

    ghost Value = { Story };

    ghost view = { λ h. record { limits = limits_of h.limits; terms = h.terms; past = map event_of h.log.items } };

    ghost invariant = { λ h. (h.count ≡ length (map event_of h.log.items))
        × (length (map event_of h.log.items) ≤ h.limits.history) };
}

impl Told {
    /// An empty history. It takes no memory.
    pub fn new(limits: LongLimits, ops: Ops, bound: Option<Bound>) -> Told
        ensures { result ≡ record { limits = limits_of limits; terms = record { ops = ops; bound = bound }; past = [] } }
    {
        Told {
            limits,
            terms: Terms { ops, bound },
            count: 0,
            log: Whole::new(),
        }
    }

    /// Fixes what the phaser is made with, while nobody has made it.
    pub fn set_terms(&mut self, terms: Terms)
        requires { self.old.past ≡ [] }
        ensures { self.new ≡ record { limits = self.old.limits; terms = terms; past = [] } }
    {
        self.terms = terms;
    }

    /// Adds an event, any event: whether it may follow is for the caller to see.
    #[inline(always)]
    pub fn add(&mut self, event: LongEvent)
        requires { length self.old.past < self.old.limits.history }
        ensures { self.new ≡ with_event self.old (event_of event) }
    {
        self.log.add(&event);
        self.count += 1;
    }

    /// The limits that it was made with.
    pub fn limits(&self) -> LongLimits
        ensures limits { limits_of result ≡ self.now.limits }
        ensures history { result.history ≡ self.now.limits.history }
        ensures regs { result.regs ≡ self.now.limits.regs }
        ensures tasks { result.tasks ≡ self.now.limits.tasks }
    {
        self.limits
    }

    /// How many events there are.
    pub fn len(&self) -> u64
        ensures length { result ≡ length self.now.past }
        ensures within { result ≤ self.now.limits.history }
    {
        self.count
    }

    /// The operators of the accumulators.
    pub fn ops(&self) -> Ops
        ensures { result ≡ self.now.terms.ops }
    {
        self.terms.ops
    }

    /// The bound.
    pub fn bound(&self) -> Option<Bound>
        ensures { result ≡ self.now.terms.bound }
    {
        self.terms.bound
    }

    /// What the phaser is made with.
    pub fn terms(&self) -> Terms
        ensures { result ≡ self.now.terms }
    {
        self.terms
    }
}
