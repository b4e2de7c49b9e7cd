//! What was seen of a log.
ghost use Rattle.std.specs.Prelude.{◌≡◌, ℕ, ◌⊎◌, List};
ghost use base.Stored.{coded_list};
ghost use Rattle.told_history.specs.Seen.{front_owns};
ghost use Rattle.told_history.specs.Tails.{IsTail};

use crate::log::Whole;
use std::marker::{Model, PhantomData};

/// A beginning of a log that was seen: all but the newest entries. A clause reads them as `items`.
#[derive(Drop)]
pub struct Front<A> {
    of: PhantomData<A>,
    pub ghost name: { ℕ },
    pub ghost items: { List A } by { coded_list A.code },
}

impl<A> Model for Front<A> {
    ghost also_owns = { λ f. front_owns A.row.coded.code f.name f.items };
}

// It owns no memory, and its entries are values of the logic.
unsafe impl<A> Send for Front<A> {}

/// All of the log, as seen now.
#[inline(always)]
pub fn front_of<A>(whole: &mut Whole<A>) -> Front<A>
    ensures { (whole.new ≡ whole.old) × (result.name ≡ whole.old.name) × (result.items ≡ whole.old.items) }
{
    Front { of: PhantomData }
}

/// What was seen is a beginning of it.
#[inline(always)]
pub fn includes<A>(whole: &mut Whole<A>, seen: Front<A>)
    requires { seen.name ≡ whole.old.name }
    ensures { (whole.new ≡ whole.old) × IsTail seen.items whole.old.items }
{
    let Front { of: _ } = seen;
}

impl<A> Front<A> {
    /// A copy.
    #[inline(always)]
    pub fn again(&mut self) -> Front<A>
        ensures { (self.new ≡ self.old) × (result ≡ self.old) }
    {
        Front { of: PhantomData }
    }

    /// Of two beginnings of one log one is a beginning of the other.
    #[inline(always)]
    pub fn agrees(&mut self, other: Front<A>)
        requires { other.name ≡ self.old.name }
        ensures { (self.new ≡ self.old) × (IsTail other.items self.old.items ⊎ IsTail self.old.items other.items) }
    {
        let Front { of: _ } = other;
    }
}
