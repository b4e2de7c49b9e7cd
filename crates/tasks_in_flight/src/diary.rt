//! What a task notes of itself.
ghost use Rattle.std.specs.Prelude.{◌≡◌, ◌⊎◌, ◌||◌, [], true, false, All, IfErr, IfOk};
ghost use Rattle.trace_model.specs.Projections.{log as log_of, whose, AreOf};
ghost use Rattle.tasks_in_flight.specs.Said.{is_end, has_end};
ghost use Rattle.tasks_in_flight.specs.Noted.{IsNoted};
ghost use Rattle.phase_modes.specs.Refusal.{number_of};

use phase_modes::{Refusal, TaskNumber};
use std::alloc::Global;
use trace_model::{Log, Part, TracedEvent};
use world_model::{Begun, Tried};

/// A task's log: what it began, was refused and gave up. What it made on phasers and finishes is in
/// their own histories.
#[derive(Drop)]
pub struct Diary {
    pub task: u32,
    pub log: Log,
    /// Whether it has begun to end.
    pub ended: bool,
    ghost own: { All (λ e. whose e.1 ≡ log_of task) log.entries },
    ghost end: { ended ≡ has_end log.entries },
}

/// Whether the event begins a task's end.
fn is_end(event: &TracedEvent) -> bool
    ensures { result ≡ is_end event.now }
{
    matches!(event, TracedEvent::Begin(_, Begun::End))
}

impl Diary {
    /// The log of the task of this number, with no entries yet, for so many acts at most. `Memory`
    /// if that is refused.
    pub fn new(alloc: Global, task: TaskNumber, acts: u32) -> Result<Diary, Refusal>
        ensures task { IfOk result (λ d. d.task ≡ task) }
        ensures end { IfOk result (λ d. d.ended ≡ false) }
        ensures blank { IfOk result (λ d. d.log ≡ record { acts = acts; entries = [] }) }
        ensures memory { IfErr result (λ e. e ≡ Refusal.Memory) }
    {
        Ok(Diary {
            task: task.get(),
            log: Log::new(alloc, acts)?,
            ended: false,
        })
    }

    /// The task whose log it is.
    pub fn task(&self) -> u32
        ensures { result ≡ self.now.task }
    {
        self.task
    }

    /// Whether the task has begun to end.
    pub fn has_ended(&self) -> bool
        ensures { result ≡ self.now.ended }
    {
        self.ended
    }

    /// Whether it has begun to end, if this is noted too.
    fn ended_with(&self, event: &TracedEvent) -> bool
        ensures { result ≡ (self.now.ended || is_end event.now) }
    {
        self.ended || is_end(event)
    }

    /// Adds an entry at the end, with the ticket that was drawn for it; `ActsFull` if there is no
    /// room for it. It takes no memory.
    fn add(&mut self, ticket: u64, entry: TracedEvent) -> Result<(), Refusal>
        requires { whose entry ≡ log_of self.old.task }
        ensures noted { IsNoted (ticket, entry) self.old.log self.new.log result }
        ensures task { self.new.task ≡ self.old.task }
        ensures end { self.new.ended ≡ true → (self.old.ended ≡ true) ⊎ (is_end entry ≡ true) }
    {
        if !self.log.has_room() {
            return Err(Refusal::ActsFull);
        }
        let ended = self.ended_with(&entry);
        self.log.add(ticket, entry);
        self.ended = ended;
        Ok(())
    }

    /// Notes that the task begins this act. `ActsFull` if there is no room for it.
    pub(crate) fn note_begun(&mut self, ticket: u64, begun: Begun) -> Result<(), Refusal>
        ensures noted { IsNoted (ticket, TracedEvent.Begin self.old.task begun) self.old.log self.new.log result }
        ensures task { self.new.task ≡ self.old.task }
        ensures end { self.new.ended ≡ true → (self.old.ended ≡ true) ⊎ (begun ≡ Begun.End) }
    {
        self.add(ticket, TracedEvent::Begin(self.task, begun))
    }

    /// Notes that this act is refused. `ActsFull` if there is no room for it.
    pub(crate) fn note_refused(
        &mut self,
        ticket: u64,
        tried: Tried,
        refusal: Refusal,
    ) -> Result<(), Refusal>
        ensures noted { IsNoted (ticket, TracedEvent.Refuse self.old.task tried (number_of refusal)) self.old.log self.new.log result }
        ensures task { self.new.task ≡ self.old.task }
        ensures end { self.new.ended ≡ true → self.old.ended ≡ true }
    {
        self.add(
            ticket,
            TracedEvent::Refuse(self.task, tried, refusal.number()),
        )
    }

    /// Notes that the task gives up what it is about. `ActsFull` if there is no room for it.
    pub(crate) fn note_failed(&mut self, ticket: u64, refusal: Refusal) -> Result<(), Refusal>
        ensures noted { IsNoted (ticket, TracedEvent.Fail self.old.task (number_of refusal)) self.old.log self.new.log result }
        ensures task { self.new.task ≡ self.old.task }
        ensures end { self.new.ended ≡ true → self.old.ended ≡ true }
    {
        self.add(ticket, TracedEvent::Fail(self.task, refusal.number()))
    }

    /// The entries as a part of a trace.
    pub fn into_part(self) -> Part
        ensures all { result ≡ self.log.entries }
        ensures own { AreOf (log_of self.task) result }
        ensures end { has_end result ≡ self.ended }
    {
        let Diary { log, .. } = self;
        Part::of_log(log)
    }
}
