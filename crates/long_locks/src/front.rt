//! What a caller has seen of a phaser's history.
ghost use Rattle.std.specs.Prelude.{◌≡◌, ◌⊎◌, true, map};
ghost use Rattle.phase_model.specs.Ordering.{IsOrdered};
ghost use Rattle.phase_model.specs.Rules.{is_legal};
ghost use Rattle.world_model.specs.Laws.{IsFolded};
ghost use Rattle.told_history.specs.Wide.{event_of};
ghost use Rattle.phaser_core.specs.LongLife.{long_limits};
ghost use Rattle.told_history.specs.Tails.{IsTail};

use phase_model::legal_is_ordered;
use std::marker::{Brand, Model, PhantomData};
use told_history::{LongEvent, Whole, front_of, includes};

/// Which phaser it is: the name of its history, and what it is made with. Each program picks it.
pub trait Naming {
    ghost use Rattle.std.specs.Prelude.{ℕ};
    ghost use Rattle.phase_model.specs.declared.terms.Terms.{Terms};

    ghost log: { ℕ };

    ghost terms: { Terms };
}

impl Naming for Brand {
    ghost use Rattle.phase_model.specs.Rules.{no_terms};

    ghost log = { 0 };

    ghost terms = { no_terms };
}

/// A beginning of the phaser's history that was seen: a legal one. Contracts see its events, the
/// newest first. It has no bytes.
#[derive(Drop)]
pub struct Front<J: Naming> {
    seen: told_history::Front<LongEvent>,
    of: PhantomData<J>,
}

impl<J: Naming> Model for Front<J> {
    ghost use Rattle.std.specs.Prelude.{◌≡◌, List, true, map};
    ghost use Rattle.phase_model.specs.declared.history.Event.{Event};
    ghost use Rattle.phase_model.specs.Rules.{is_legal};
    ghost use Rattle.told_history.specs.Wide.{event_of};
    ghost use Rattle.phaser_core.specs.LongLife.{long_limits};

    ghost Value = { List Event };

    ghost view = { λ f. map event_of f.seen.items };

    ghost invariant = { λ f. (f.seen.name ≡ J.log) × (is_legal long_limits J.terms (map event_of f.seen.items) ≡ true) };
}

impl<J: Naming> Front<J> {
    /// All of the log, as seen now.
    #[inline(always)]
    pub(crate) fn of_log(log: &mut Whole<LongEvent>) -> Front<J>
        requires name { log.old.name ≡ J.log }
        requires legal { is_legal long_limits J.terms (map event_of log.old.items) ≡ true }
        ensures same { log.new ≡ log.old }
        ensures all { result ≡ map event_of log.old.items }
    {
        Front {
            seen: front_of(log),
            of: PhantomData,
        }
    }

    /// What was seen is a beginning of the log.
    #[inline(always)]
    pub(crate) fn begins(&mut self, log: &mut Whole<LongEvent>)
        requires name { log.old.name ≡ J.log }
        ensures same { log.new ≡ log.old }
        ensures kept { self.new ≡ self.old }
        ensures begins { IsTail self.old (map event_of log.old.items) }
    {
        includes(log, self.seen.again());
    }

    /// A copy.
    #[inline(always)]
    pub fn again(&mut self) -> Front<J>
        ensures { (result ≡ self.old) × (self.new ≡ self.old) }
    {
        Front {
            seen: self.seen.again(),
            of: PhantomData,
        }
    }

    /// Of two beginnings of one phaser's history one is a beginning of the other.
    #[inline(always)]
    pub fn agrees(&mut self, other: Front<J>)
        ensures same { self.new ≡ self.old }
        ensures agree { IsTail other self.old ⊎ IsTail self.old other }
    {
        let Front { seen, of: _ } = other;
        self.seen.agrees(seen);
    }

    /// It is legal and ordered: whatever was passed in it was closed. And what a look in it saw is
    /// the fold of all values that were sent for a closed phase.
    #[inline(always)]
    pub fn is_legal(&self)
        ensures legal { is_legal long_limits J.terms self.now ≡ true }
        ensures ordered { IsOrdered self.now }
        ensures folded { IsFolded J.terms.ops self.now }
    {
        let _of = self.of;
        legal_is_ordered();
    }
}
