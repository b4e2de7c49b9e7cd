//! The whole of a log, and the right to add to it.
ghost use Rattle.std.specs.Prelude.{◌≡◌, ℕ, List, [], ◌∷◌};
ghost use base.Stored.{coded_list};
ghost use Rattle.told_history.specs.Owned.{whole_owns};

use std::marker::{Model, PhantomData};

/// All entries of a log, the newest first. A clause reads them as `items`. There is one for each
/// name, so whoever has it knows that nobody else adds to the log.
#[derive(Drop)]
pub struct Whole<A> {
    of: PhantomData<A>,
    pub ghost name: { ℕ },
    pub ghost items: { List A } by { coded_list A.code },
}

impl<A> Model for Whole<A> {
    ghost also_owns = { λ w. whole_owns A.row.coded.code w.name w.items };
}

// It owns no memory, and its entries are values of the logic.
unsafe impl<A> Send for Whole<A> {}

impl<A> Whole<A> {
    /// A log without an entry, under a new name.
    pub fn new() -> Whole<A>
        ensures { result.items ≡ [] }
    {
        Whole { of: PhantomData }
    }

    /// One entry more.
    #[inline(always)]
    pub fn add(&mut self, next: &A)
        ensures { (self.new.name ≡ self.old.name) × (self.new.items ≡ next.now ∷ self.old.items) }
    {}
}
