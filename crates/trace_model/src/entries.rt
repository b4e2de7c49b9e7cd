//! The events of a trace with their tickets, each in as little room as it needs.
ghost use Rattle.std.specs.Prelude.{◌≡◌, ◌<◌, ◌^◌, ◌++◌, ◌∷◌, [], length, slice_get, Some, IfOk, IfErr};
ghost use Rattle.trace_model.specs.Views.{long_event, viewed};

use crate::event::TracedEvent;
use crate::kept::Kept;
use crate::long::LargeEvent;
use crate::view::EventView;
use phase_model::{Bound, Terms};
use phase_modes::Refusal;
use std::alloc::Global;
use std::marker::Model;
use world_model::{Begun, Tried};

// What a short event takes with its ticket.
const _: () = prove!(size_of::<(u64, Kept)>() <= 32);

/// The events of a trace in order, each with its ticket. Contracts see the list.
#[derive(Debug, Drop)]
pub(crate) struct Entries {
    /// All events.
    kept: Vec<(u64, Kept)>,
    /// Those that are long, to which `kept` has their places.
    long: Vec<LargeEvent>,
}

impl Model for Entries {
    ghost use Rattle.std.specs.Prelude.{List, length};
    ghost use Rattle.trace_model.specs.Run.{Entry};
    ghost use Rattle.trace_model.specs.inner.Kept.{entries_kept, AreWithin};

    ghost Value = { List Entry };

    ghost view = { λ e. entries_kept e.long.items e.kept.items };

    // Each place is that of a long event.
    ghost invariant = { λ e. AreWithin (length e.long.items) e.kept.items };
}

impl Entries {
    /// No event.
    pub(crate) fn new(alloc: Global) -> Entries
        ensures { result ≡ [] }
    {
        Entries {
            kept: Vec::new(alloc),
            long: Vec::new(alloc),
        }
    }

    /// No event, and room for so many that are short.
    pub(crate) fn with_capacity(alloc: Global, events: usize) -> Result<Entries, Refusal>
        ensures empty { IfOk result (λ e. e ≡ []) }
        ensures memory { IfErr result (λ r. r ≡ Refusal.Memory) }
    {
        let kept = Vec::with_capacity(alloc, events)?;
        let long = Vec::new(alloc);
        Ok(Entries { kept, long })
    }

    /// Adds a long event at the end. On `Memory` both lists are as they were.
    #[tactic(auto, using(crate::proofs::Adding::long_more))]
    fn push_long(&mut self, ticket: u64, event: LargeEvent) -> Result<(), Refusal>
        ensures added { IfOk result (λ _. self.new ≡ self.old ++ (ticket, long_event event) ∷ []) }
        ensures memory { IfErr result (λ r. (r ≡ Refusal.Memory) × (self.new ≡ self.old)) }
    {
        // The prover has to be shown the types inside an event: it doesn't find them by itself.
        let _begun: Option<Begun> = None;
        let _tried: Option<Tried> = None;
        let _terms: Option<Terms> = None;
        let _bound: Option<Bound> = None;
        let place = self.long.len();
        self.kept.reserve(1)?;
        self.long.push(event)?;
        match self.kept.push((ticket, Kept::Long(place))) {
            Ok(()) => Ok(()),
            Err(_) => unreachable!(),
        }
    }

    /// Adds an event at the end. On `Memory` the list is as it was.
    pub(crate) fn push(&mut self, ticket: u64, event: &TracedEvent) -> Result<(), Refusal>
        ensures added { IfOk result (λ _. self.new ≡ self.old ++ (ticket, event.now) ∷ []) }
        ensures memory { IfErr result (λ r. (r ≡ Refusal.Memory) × (self.new ≡ self.old)) }
    {
        match Kept::of(event) {
            Ok(kept) => {
                self.kept.push((ticket, kept))?;
                Ok(())
            }
            Err(long) => self.push_long(ticket, long),
        }
    }

    /// How many events there are.
    pub(crate) fn len(&self) -> usize
        ensures length { result ≡ length self.now }
        ensures few { result < 2 ^ 63 }
    {
        self.kept.as_slice().len()
    }

    /// The event at this place, where it stands, with its ticket.
    pub(crate) fn entry(&self, place: usize) -> (u64, EventView<'_>)
        requires { place < length self.now }
        ensures { slice_get self.now place ≡ Some (result.0, viewed result.1) }
    {
        let (ticket, kept) = self.kept[place];
        (ticket, kept.view(&self.long))
    }
}
