//! The entries of one task.
ghost use Rattle.std.specs.Prelude.{◌≡◌, ◌++◌, ◌∷◌, [], ◌<◌, true, length, slice_get, Some, IfOk, IfErr};
ghost use Rattle.trace_model.specs.TaskLog.{has_room};

use crate::event::{TracedEvent, TracedStep};
use phase_model::{Bound, Terms};
use phase_modes::Refusal;
use std::alloc::Global;
use std::marker::Model;
use world_model::{Begun, Tried};

/// What one task began, was refused and gave up, each with its ticket. Contracts see for how many
/// acts it is, and its entries, the oldest first.
///
/// All memory is taken by `new`: it is not touched before it is needed.
// An entry has the room of any event, also of a spawn with all its registrations. Shorter entries
// would spare room that is reserved and in most tasks never touched, and a spawn would need a
// second list.
#[derive(Drop)]
pub struct Log {
    acts: u32,
    entries: Vec<(u64, TracedEvent)>,
}

impl Model for Log {
    ghost use Rattle.std.specs.Prelude.{◌≤◌, ◌+◌, vec_capacity};
    ghost use Rattle.trace_model.specs.TaskLog.{TaskLog};

    ghost Value = { TaskLog };

    ghost view = { λ l. record { acts = l.acts; entries = l.entries.items } };

    ghost invariant = { λ l. l.acts + 2 ≤ vec_capacity l.entries };
}

impl Log {
    /// A log with no entries yet, of a task that begins so many acts at most: each act has one
    /// entry, and two more may come at the end. `Memory` if that is refused.
    pub fn new(alloc: Global, acts: u32) -> Result<Log, Refusal>
        ensures blank { IfOk result (λ l. l ≡ record { acts = acts; entries = [] }) }
        ensures memory { IfErr result (λ r. r ≡ Refusal.Memory) }
    {
        let Ok(entries) = Vec::with_capacity(alloc, acts as usize + 2) else {
            return Err(Refusal::Memory);
        };
        Ok(Log { acts, entries })
    }

    /// Whether there is room for an entry more.
    pub fn has_room(&self) -> bool
        ensures { result ≡ has_room self.now }
    {
        self.entries.len() < self.acts as usize + 2
    }

    /// Adds an entry at the end, with the ticket that was drawn for it; it takes no memory.
    pub fn add(&mut self, ticket: u64, entry: TracedEvent)
        requires { has_room self.old ≡ true }
        ensures { self.new ≡ record self.old { entries = self.old.entries ++ (ticket, entry) ∷ [] } }
    {
        // The prover has to be shown the types inside an event: it doesn't find them by itself.
        let _step: Option<TracedStep> = None;
        let _begun: Option<Begun> = None;
        let _tried: Option<Tried> = None;
        let _terms: Option<Terms> = None;
        let _bound: Option<Bound> = None;
        self.entries.push_reserved((ticket, entry));
    }

    /// The entries, the oldest first, each with its ticket.
    pub fn entries(&self) -> &[(u64, TracedEvent)]
        ensures { result.now ≡ self.now.entries }
    {
        self.entries.as_slice()
    }
}
