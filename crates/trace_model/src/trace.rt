//! The trace of a run.
ghost use Rattle.std.specs.Prelude.{◌≡◌, ◌<◌, ◌^◌, [], true, length, slice_get, Some, IfOk, IfErr};
ghost use Rattle.phase_modes.specs.Limits.{limits_fit};
ghost use Rattle.trace_model.specs.Run.{with_event};
ghost use Rattle.trace_model.specs.Views.{viewed};

use crate::entries::Entries;
use crate::event::TracedEvent;
use crate::view::EventView;
use phase_modes::{Limits, Refusal};
use std::alloc::Global;
use std::marker::Model;

/// The limits of a run, and its events in order, each with its ticket. Contracts see the limits and
/// the list. It may hold any events, whether a run makes them or not.
#[derive(Debug, Drop)]
pub struct Trace {
    limits: Limits,
    events: Entries,
}

impl Model for Trace {
    ghost use Rattle.std.specs.Prelude.{◌≡◌, true};
    ghost use Rattle.phase_modes.specs.Limits.{limits_fit};
    ghost use Rattle.trace_model.specs.Run.{Run};

    ghost Value = { Run };

    ghost view = { λ t. record { limits = t.limits; events = t.events } };

    ghost invariant = { λ t. limits_fit t.limits ≡ true };
}

impl Trace {
    /// A trace with no events yet.
    pub fn new(alloc: Global, limits: Limits) -> Trace
        requires { limits_fit limits ≡ true }
        ensures { result ≡ record { limits = limits; events = [] } }
    {
        Trace {
            limits,
            events: Entries::new(alloc),
        }
    }

    /// A trace with no events yet, and room for so many, but for what a long event takes beyond a
    /// short one. `Memory` if there is too little for them.
    pub fn with_capacity(alloc: Global, limits: Limits, events: usize) -> Result<Trace, Refusal>
        requires { limits_fit limits ≡ true }
        ensures empty { IfOk result (λ t. t ≡ record { limits = limits; events = [] }) }
        ensures memory { IfErr result (λ r. r ≡ Refusal.Memory) }
    {
        let events = Entries::with_capacity(alloc, events)?;
        Ok(Trace { limits, events })
    }

    /// Adds an event at the end. On `Memory` the trace is as it was.
    pub fn push(&mut self, ticket: u64, event: TracedEvent) -> Result<(), Refusal>
        ensures added { IfOk result (λ _. self.new ≡ with_event self.old (ticket, event)) }
        ensures memory { IfErr result (λ r. (r ≡ Refusal.Memory) × (self.new ≡ self.old)) }
    {
        self.put(ticket, &event)
    }

    /// The same with an event that stands elsewhere.
    pub(crate) fn put(&mut self, ticket: u64, event: &TracedEvent) -> Result<(), Refusal>
        ensures added { IfOk result (λ _. self.new ≡ with_event self.old (ticket, event.now)) }
        ensures memory { IfErr result (λ r. (r ≡ Refusal.Memory) × (self.new ≡ self.old)) }
    {
        self.events.push(ticket, event)
    }

    /// The limits of the run.
    pub fn limits(&self) -> Limits
        ensures limits { result ≡ self.now.limits }
        ensures fit { limits_fit result ≡ true }
    {
        self.limits
    }

    /// How many events there are.
    pub fn len(&self) -> usize
        ensures length { result ≡ length self.now.events }
        ensures few { result < 2 ^ 63 }
    {
        self.events.len()
    }

    /// The event at this place, counted from 0, with its ticket. The trace lends it: none is made,
    /// which would be as large as the largest of its kinds.
    pub fn entry(&self, place: usize) -> (u64, EventView<'_>)
        requires { place < length self.now.events }
        ensures { slice_get self.now.events place ≡ Some (result.0, viewed result.1) }
    {
        self.events.entry(place)
    }
}
