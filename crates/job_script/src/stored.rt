//! Acts as they are stored: a repeat is not written out, and a body is stored once.
ghost use Rattle.std.specs.Prelude.{◌≡◌, ◌<◌, ◌≤◌, true, min, length, get_or, slice_get, option_map, IfSome, OnOk};
ghost use Rattle.std.specs.List.Sorted.{IsNonDecreasing};
ghost use Rattle.job_script.specs.inner.Ends.{start_of};

use crate::head::Head;
use std::alloc::{AllocError, Global};
use std::marker::Model;

/// An act, and the acts inside it: the body of a spawn's child, or what a repeat repeats.
#[cycle(acts)]
#[derive(Drop)]
pub(crate) struct Item {
    pub(crate) head: Head,
    pub(crate) body: Body,
}

/// A list of acts. Contracts see the acts; beside each stands where it ends in the list in which
/// every repeat is written out, so that an act is found by its place there without writing it out.
#[cycle(acts)]
#[derive(Drop)]
pub(crate) struct Body {
    items: Vec<Item>,
    ends: Vec<u32>,
}

impl Model for Body {
    ghost use Rattle.std.specs.Prelude.{◌≡◌, true};
    ghost use Rattle.job_script.specs.Acts.{Acts, depth};
    ghost use Rattle.job_script.specs.inner.Ends.{ends_from};
    ghost use Rattle.job_script.specs.inner.ActsCode.{acts_code};
    ghost use Rattle.job_script.specs.contracts.head.Head as head;

    ghost Value = { Acts };

    ghost coded = { acts_code head.the_row.coded };

    ghost use Rattle.job_script.specs.inner.Views.{acts_view, are_short};

    ghost view = { λ b. acts_view b.items.items };

    ghost invariant = { λ b. (b.ends.items ≡ ends_from 0 (acts_view b.items.items))
        × (are_short b.items.items ≡ true) };

    ghost size = { depth };

    ghost use Rattle.job_script.specs.inner.ActsFall.{falls};
    ghost use Rattle.std.proofs.Common.{arith};

    ghost size_decreases = { λ b h. omega (arith, falls b.items.items) };
}

/// The first number of acts that is too large for a body.
pub(crate) const TOO_MANY: u32 = 10_001;

/// How many of the ends are at most the place.
fn ends_passed(ends: &[u32], place: u32) -> usize
    requires { IsNonDecreasing ends.now }
    ensures within { result ≤ length ends.now }
    ensures passed { (k : _) → k < result → get_or ends.now k 0 ≤ place }
    ensures ahead { (k : _) → result ≤ k → k < length ends.now → place < get_or ends.now k 0 }
{
    ends.partition_point(|end| *end <= place)
}

/// Where the act of this number begins; after the last, where the list ends.
fn start_of(ends: &[u32], index: usize) -> u32
    requires { index ≤ length ends.now }
    ensures { result ≡ start_of 0 index ends.now }
{
    if index == 0 { 0 } else { ends[index - 1] }
}

/// The act of this number.
fn item_at(items: &[Item], index: usize) -> Option<&Item>
    ensures { option_map (λ i. i.now) result ≡ slice_get items.now index }
{
    items.get(index)
}

impl Item {
    ghost use Rattle.job_script.specs.Acts.{written_length, flat_length, too_many};

    /// How many acts it has once it is written out,
    /// as far as numbers go that are not too large.
    fn len(&self) -> u32
        ensures { result ≡ min (written_length self.now.head (flat_length self.now.body)) too_many }
    {
        match self.head {
            Head::Repeat(times) => {
                let all = u64::from(times) * u64::from(self.body.len());
                all.min(u64::from(TOO_MANY)) as u32
            }
            _ => 1,
        }
    }
}

impl Body {
    ghost use Rattle.job_script.specs.Acts.{no_acts, with_act, flat, flat_length, too_many, is_short_spawn};
    ghost use Rattle.job_script.specs.inner.Views.{act_view};

    /// No acts.
    pub(crate) fn empty(alloc: Global) -> Body
        ensures { result ≡ no_acts }
    {
        Body {
            items: Vec::new(alloc),
            ends: Vec::new(alloc),
        }
    }

    /// How many acts it has once every repeat is written out, as far as numbers go that are
    /// not too large.
    pub(crate) fn len(&self) -> u32
        ensures { result ≡ min (flat_length self.now) too_many }
    {
        start_of(&self.ends, self.ends.len())
    }

    /// Adds an act at the end.
    pub(crate) fn push(&mut self, item: Item) -> Result<(), AllocError>
        requires { is_short_spawn item.head item.body ≡ true }
        ensures { OnOk result (self.new ≡ with_act self.old item.head item.body) }
    {
        let end = (self.len() + item.len()).min(TOO_MANY);
        self.ends.reserve(1)?;
        self.items.push(item)?;
        self.ends.push_reserved(end);
        Ok(())
    }

    /// The act at a place of the list in which every repeat is written out. It costs a binary
    /// search for each repeat that it stands in.
    pub(crate) fn at(&self, place: u32) -> Option<&Item>
        requires { place < too_many }
        ensures act { option_map (λ i. act_view i.now) result ≡ slice_get (flat self.now) place }
        ensures short { IfSome result (λ i. is_short_spawn i.now.head i.now.body ≡ true) }
    {
        let index = ends_passed(&self.ends, place);
        let item = match item_at(&self.items, index) {
            None => return None,
            Some(item) => item,
        };
        let after = place - start_of(&self.ends, index);
        match item.head {
            Head::Repeat(_) => item.body.at(after % item.body.len()),
            _ => Some(item),
        }
    }
}
