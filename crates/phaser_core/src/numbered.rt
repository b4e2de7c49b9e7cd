//! A stored history, and the task numbers that were ever registered in it.
ghost use Rattle.std.specs.Prelude.{◌≡◌, ◌<◌, ◌==◌, ℕ, [], false, true, length, IfOk, IfErr};
ghost use Rattle.phase_modes.specs.Limits.{limits_fit};
ghost use Rattle.phase_model.specs.Rules.{with_event};
ghost use Rattle.phase_model.specs.Tasks.{registers, is_registered};

use phase_model::{Bound, Event, History, Ops, Terms};
use phase_modes::{Limits, NumberSet, Refusal};
use phaser_engine::Engine;
use std::alloc::Global;
use std::marker::Model;

/// A history, with one bit for each task number there can be. Contracts see the history.
#[derive(Drop)]
pub(crate) struct NumberedHistory {
    history: History,
    /// The task numbers that were ever registered.
    known: NumberSet,
}

impl Model for NumberedHistory {
    ghost use Rattle.phase_model.specs.Rules.{Story};
    ghost use Rattle.phaser_core.specs.Numbered.{Remembers};

    ghost Value = { Story };

    ghost view = { λ h. h.history };

    ghost invariant = { λ h. Remembers h.history h.known };
}

impl NumberedHistory {
    /// An empty history, with room for as many events as the limits allow, and no number. `Memory`
    /// if that room isn't to be had; nothing after it takes memory.
    pub(crate) fn new(
        alloc: Global,
        limits: Limits,
        ops: Ops,
        bound: Option<Bound>,
    ) -> Result<NumberedHistory, Refusal>
        requires { limits_fit limits ≡ true }
        ensures empty { IfOk result (λ h.
            h ≡ record { limits = limits; terms = record { ops = ops; bound = bound }; past = [] }) }
        ensures memory { IfErr result (λ r. r ≡ Refusal.Memory) }
    {
        let history = History::new(alloc, limits, ops, bound)?;
        let known = NumberSet::new(alloc, limits.tasks)?;
        Ok(NumberedHistory { history, known })
    }

    /// Fixes what the phaser is made with, while nobody has made it.
    pub(crate) fn set_terms(&mut self, terms: Terms)
        requires { self.old.past ≡ [] }
        ensures { self.new ≡ record { limits = self.old.limits; terms = terms; past = [] } }
    {
        self.history.set_terms(terms);
    }

    /// Whether a task of this number was ever registered.
    pub(crate) fn has_registered(&self, task: u32) -> bool
        ensures { result ≡ is_registered task self.now.past }
    {
        task < self.history.limits().tasks && self.known.contains(task)
    }

    /// Adds the event that the engine has added, which registers nobody.
    #[inline(always)]
    pub(crate) fn add(&mut self, engine: &Engine, event: Event)
        requires added { engine.now.story ≡ with_event self.old event }
        requires nobody { (t : ℕ) → registers t event ≡ false }
        ensures { self.new ≡ with_event self.old event }
    {
        add_as(engine, &mut self.history, event);
    }

    /// Adds the event that the engine has added, which registers the task.
    #[inline(always)]
    pub(crate) fn add_registering(&mut self, engine: &Engine, task: u32, event: Event)
        requires added { engine.now.story ≡ with_event self.old event }
        requires task { task < self.old.limits.tasks }
        requires registers { (t : ℕ) → registers t event ≡ (task == t) }
        ensures { self.new ≡ with_event self.old event }
    {
        self.known.insert(task);
        add_as(engine, &mut self.history, event);
    }

    /// The history.
    pub(crate) fn history(&self) -> &History
        ensures { result.now ≡ self.now }
    {
        &self.history
    }

    /// The history, of a phaser that is called no more.
    pub(crate) fn into_history(self) -> History
        ensures { result ≡ self }
    {
        let NumberedHistory { history, known: _ } = self;
        history
    }
}

/// Adds the event that the engine has added.
#[inline(always)]
fn add_as(engine: &Engine, history: &mut History, event: Event)
    requires { engine.now.story ≡ with_event history.old event }
    ensures { history.new ≡ with_event history.old event }
{
    // The engine's history is within its limits, so there is room for the event.
    let _ = engine.history().len();
    history.add(event);
}
