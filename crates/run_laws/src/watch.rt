//! What is watched while the events of a run are gone through: which task draws numbers, and how
//! many tasks each phaser had.
ghost use Rattle.std.specs.Prelude.{◌≡◌, nat_lt, None, IfOk, IfErr};
ghost use Rattle.trace_model.specs.Explained.{event_of};
ghost use Rattle.trace_model.specs.Views.{long_event, viewed};
ghost use Rattle.run_laws.specs.inner.Watched.{count_in, draws, drawn, is_taken, luck_taken, CountsMore, IsAfter, IsFresh};

use crate::luck::{Luck, luck_in};
use finish_core::FinishEvent;
use phase_modes::Refusal;
use std::alloc::Global;
use std::collections::BTreeMap;
use trace_model::{EventView, LargeEvent, ShortStep};

/// The draws of one kind of number.
#[derive(Clone, Copy)]
pub(crate) struct Kind {
    /// The task that has drawn such numbers; none if no task has.
    pub(crate) drawer: Option<u32>,
    /// The number that it draws next.
    pub(crate) next: u64,
}

impl Kind {
    /// Before the first draw, which takes this number.
    fn from(first: u64) -> Kind
        ensures { result ≡ record { drawer = None; next = first } }
    {
        Kind {
            drawer: None,
            next: first,
        }
    }

    /// Whether the number comes next for the task, and nobody else has drawn one; it is drawn then.
    fn draw(&mut self, task: u32, number: u32) -> bool
        ensures is { result ≡ draws self.old task number }
        ensures after { self.new ≡ drawn self.old task number }
    {
        if self.drawer.is_some_and(|drawer| drawer != task) || u64::from(number) != self.next {
            return false;
        }
        self.drawer = Some(task);
        self.next = u64::from(number) + 1;
        true
    }
}

/// The draws of all kinds, and the registrations.
#[derive(Drop)]
pub(crate) struct Watch {
    pub(crate) phasers: Kind,
    pub(crate) tasks: Kind,
    pub(crate) finishes: Kind,
    /// By phaser, how many tasks were ever registered on it.
    pub(crate) registered: BTreeMap<u32, u32>,
    /// How many tasks a phaser may have at a time.
    pub(crate) most: u32,
}

impl Watch {
    /// Before the first event. The root is task 0, and finish 0 is open from the start.
    pub(crate) fn new(alloc: Global, most: u32) -> Watch
        ensures { IsFresh most result }
    {
        Watch {
            phasers: Kind::from(0),
            tasks: Kind::from(1),
            finishes: Kind::from(1),
            registered: BTreeMap::new(alloc),
            most,
        }
    }

    /// Whether no more tasks than may be on the phaser at a time are ever registered on it, with one
    /// more, who is counted then.
    fn register(&mut self, phaser: u32) -> Result<bool, Refusal>
        ensures is { IfOk result (λ b. b ≡ nat_lt (count_in self.old.registered phaser) self.old.most) }
        ensures after { IfOk result (λ b. CountsMore phaser b self.old self.new) }
        ensures memory { IfErr result (λ e. e ≡ Refusal.Memory) }
    {
        let count = match self.registered.get(&phaser) {
            Some(count) => *count,
            None => 0,
        };
        if count >= self.most {
            return Ok(false);
        }
        self.registered.insert(phaser, count + 1)?;
        Ok(true)
    }

    /// Whether luck has no part in a long event; it is gone past then.
    fn takes_long(&mut self, event: &LargeEvent) -> Result<bool, Refusal>
        ensures is { IfOk result (λ b. b ≡ is_taken self.old (event_of (long_event event.now))) }
        ensures after { IfOk result (λ b. IsAfter (event_of (long_event event.now)) b self.old self.new) }
        ensures memory { IfErr result (λ e. e ≡ Refusal.Memory) }
    {
        match event {
            LargeEvent::Refuse(_, _, _) => Ok(false),
            LargeEvent::Make(phaser, task, _, _) => {
                if !self.phasers.draw(*task, *phaser) {
                    return Ok(false);
                }
                self.register(*phaser)
            }
            LargeEvent::Async(task, child, _) => Ok(self.tasks.draw(*task, *child)),
        }
    }

    /// The same of any event that a trace lends.
    fn takes(&mut self, event: EventView<'_>) -> Result<bool, Refusal>
        ensures is { IfOk result (λ b. b ≡ is_taken self.old (event_of (viewed event.entry))) }
        ensures after { IfOk result (λ b. IsAfter (event_of (viewed event.entry)) b self.old self.new) }
        ensures memory { IfErr result (λ e. e ≡ Refusal.Memory) }
    {
        match event {
            EventView::Fail(_, _) => Ok(false),
            EventView::Phaser(phaser, ShortStep::Reg(_, _, _)) => self.register(phaser),
            EventView::Finish(finish, FinishEvent::Opened(task)) => {
                Ok(self.finishes.draw(task, finish))
            }
            EventView::Long(event) => self.takes_long(event),
            _ => Ok(true),
        }
    }

    /// Goes past the event, or answers what luck decides by it.
    pub(crate) fn take(&mut self, event: EventView<'_>) -> Result<Option<Luck>, Refusal>
        ensures is { IfOk result (λ o. o ≡ luck_taken self.old (event_of (viewed event.entry))) }
        ensures after { IfOk result (λ o. IsAfter (event_of (viewed event.entry))
            (is_taken self.old (event_of (viewed event.entry))) self.old self.new) }
        ensures memory { IfErr result (λ e. e ≡ Refusal.Memory) }
    {
        if self.takes(event)? {
            return Ok(None);
        }
        Ok(luck_in(&event.event().event()))
    }
}
