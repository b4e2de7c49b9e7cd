//! The log of a phaser, and what a caller has seen of it.
ghost use Rattle.std.specs.Prelude.{◌≡◌, ◌⊎◌, [], length};
ghost use Rattle.phase_model.specs.Laws.{IsLegal};
ghost use Rattle.phase_model.specs.Ordering.{IsOrdered};
ghost use Rattle.world_model.specs.Laws.{IsFolded};
ghost use Rattle.table_receipts.specs.Logs.{Sight, blank, notes_of, story_of, with_newest};
ghost use Rattle.told_history.specs.Stories.{GoesOn, Follows};

use crate::naming::Naming;
use crate::noted::Noted;
use phase_model::{History, legal_is_ordered};
use std::marker::{Model, PhantomData};
use told_history::{Whole, front_of, includes};

/// The whole of a phaser's log, and the right to add to it. Contracts see the log's name and the
/// phaser's story. It has no bytes.
#[derive(Drop)]
pub struct PhaserLog<K: Naming> {
    whole: Whole<Noted>,
    of: PhantomData<K>,
}

impl<K: Naming> Model for PhaserLog<K> {
    ghost use Rattle.std.specs.Prelude.{◌≡◌};
    ghost use Rattle.phase_model.specs.Laws.{IsLegal};
    ghost use Rattle.table_receipts.specs.Logs.{Sight, notes_of, story_of};

    ghost Value = { Sight };

    ghost view = { λ f. record { log = f.whole.name; story = story_of K.Logs.limits f.whole.items } };

    ghost invariant = { λ f. (f.whole.items ≡ notes_of (story_of K.Logs.limits f.whole.items)) × IsLegal (story_of K.Logs.limits f.whole.items) };
}

/// A beginning of a phaser's log that was seen: that of a legal history. Contracts see the log's
/// name and the phaser's story up to then. It has no bytes.
#[derive(Drop)]
pub struct Front<K: Naming> {
    seen: told_history::Front<Noted>,
    of: PhantomData<K>,
}

impl<K: Naming> Model for Front<K> {
    ghost use Rattle.std.specs.Prelude.{◌≡◌};
    ghost use Rattle.phase_model.specs.Laws.{IsLegal};
    ghost use Rattle.table_receipts.specs.Logs.{Sight, notes_of, story_of};

    ghost Value = { Sight };

    ghost view = { λ f. record { log = f.seen.name; story = story_of K.Logs.limits f.seen.items } };

    ghost invariant = { λ f. (f.seen.items ≡ notes_of (story_of K.Logs.limits f.seen.items)) × IsLegal (story_of K.Logs.limits f.seen.items) };
}

impl<K: Naming> PhaserLog<K> {
    /// The log of a phaser that nobody has made yet.
    pub fn new(whole: Whole<Noted>) -> PhaserLog<K>
        requires { whole.items ≡ [] }
        ensures { result ≡ record { log = whole.name; story = blank K.Logs.limits } }
    {
        PhaserLog {
            whole,
            of: PhantomData,
        }
    }

    /// All that was done so far, as seen now.
    #[inline(always)]
    pub fn front(&mut self) -> Front<K>
        ensures same { self.new ≡ self.old }
        ensures all { result ≡ self.old }
    {
        Front {
            seen: front_of(&mut self.whole),
            of: PhantomData,
        }
    }

    /// What was seen is a beginning of it.
    #[inline(always)]
    pub fn includes(&mut self, seen: &mut Front<K>)
        requires { seen.old.log ≡ self.old.log }
        ensures same { (self.new ≡ self.old) × (seen.new ≡ seen.old) }
        ensures begins { GoesOn seen.old.story self.old.story }
        ensures limits { self.old.story.limits ≡ K.Logs.limits }
    {
        includes(&mut self.whole, seen.seen.again());
    }

    /// Notes the event that a call has added to the phaser's history, if it has added one. There
    /// were so many events before.
    #[inline(always)]
    pub fn follow(&mut self, history: &History, before: u32)
        requires before { before ≡ length self.old.story.past }
        requires follows { Follows self.old.story history.now }
        requires legal { IsLegal history.now }
        ensures { self.new ≡ record { log = self.old.log; story = history.now } }
    {
        if history.len() > before {
            note(&mut self.whole, history);
        }
    }
}

/// Notes the newest event of the history.
#[inline(always)]
fn note(whole: &mut Whole<Noted>, history: &History)
    ensures name { whole.new.name ≡ whole.old.name }
    ensures noted { whole.new.items ≡ with_newest history.now whole.old.items }
{
    if let Some(event) = history.events().last() {
        whole.add(&Noted {
            terms: history.terms(),
            event: *event,
        });
    }
}

impl<K: Naming> Front<K> {
    /// A copy.
    #[inline(always)]
    pub fn again(&mut self) -> Front<K>
        ensures { (result ≡ self.old) × (self.new ≡ self.old) }
    {
        Front {
            seen: self.seen.again(),
            of: PhantomData,
        }
    }

    /// Of two beginnings of one phaser's log one is a beginning of the other.
    #[inline(always)]
    pub fn agrees(&mut self, other: Front<K>)
        requires { other.log ≡ self.old.log }
        ensures same { self.new ≡ self.old }
        ensures agree { GoesOn other.story self.old.story ⊎ GoesOn self.old.story other.story }
    {
        let Front { seen, of: _ } = other;
        self.seen.agrees(seen);
    }

    /// It is legal and ordered: whatever was passed in it was closed. And what a look in it saw is
    /// the fold of all values that were sent for a closed phase.
    #[inline(always)]
    pub fn is_legal(&self)
        ensures legal { IsLegal self.now.story }
        ensures ordered { IsOrdered self.now.story.past }
        ensures folded { IsFolded self.now.story.terms.ops self.now.story.past }
    {
        let _of = self.of;
        legal_is_ordered();
    }
}
