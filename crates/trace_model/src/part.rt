//! A part of what was kept of a run.
ghost use Rattle.std.specs.Prelude.{◌≡◌, ◌<◌, ◌≤◌, ◌^◌, drop, reverse, length, slice_get, Some, IfSome, IfOk, IfErr, vec_len};
ghost use Rattle.trace_model.specs.Run.{with_event};
ghost use Rattle.trace_model.specs.Told.{step_told, phaser_told, finish_told};

use crate::event::{TracedEvent, TracedStep};
use crate::log::Log;
use crate::trace::Trace;
use finish_core::FinishEvent;
use phase_model::{Event, History, Terms};
use phase_modes::Refusal;
use std::marker::Model;

/// What a part was made of.
#[derive(Drop)]
pub(crate) enum Source {
    /// A phaser's number, its history, and the tickets.
    Phaser(u32, History, Vec<u64>),
    /// A finish's number, its history, the tickets, and how many of the first aren't of the part.
    Finish(u32, Vec<FinishEvent>, Vec<u64>, usize),
    /// What one task noted.
    Log(Log),
}

/// What one phaser, one finish or one task's log has of a run: its events in order, each with its
/// ticket. Contracts see the list. It is made of what was kept while the run went on, so nothing is
/// copied.
#[derive(Drop)]
pub struct Part {
    source: Source,
}

impl Model for Part {
    ghost use Rattle.std.specs.Prelude.{List};
    ghost use Rattle.trace_model.specs.Run.{Entry};
    ghost use Rattle.trace_model.specs.inner.Sources.{entries_of, IsWhole};

    ghost Value = { List Entry };

    ghost view = { λ p. entries_of p.source };

    ghost invariant = { λ p. IsWhole p.source };
}

/// The step of a phaser's event, on a phaser that is made with these terms.
fn step_told(terms: Terms, event: Event) -> TracedStep
    ensures { result ≡ step_told terms event }
{
    match event {
        Event::Make(task, mode) => TracedStep::Make(task, mode, terms),
        Event::Reg(parent, child, mode) => TracedStep::Reg(parent, child, mode),
        Event::Sig(task, number) => TracedStep::Sig(task, number),
        Event::Claim(task) => TracedStep::Claim(task),
        Event::Did(task) => TracedStep::Did(task),
        Event::Pass(task) => TracedStep::Pass(task),
        Event::Send(task, accumulator, value) => TracedStep::Send(task, accumulator, value),
        Event::Look(task, accumulator, seen) => TracedStep::Look(task, accumulator, seen),
        Event::Drop(task) => TracedStep::Drop(task),
    }
}

/// The entry at this place of a phaser's history.
fn phaser_entry(phaser: u32, history: &History, tickets: &[u64], place: usize) -> (u64, TracedEvent)
    requires whole { length tickets.now ≡ length history.now.past }
    requires within { place < length tickets.now }
    ensures { slice_get (phaser_told phaser history.now tickets.now) place ≡ Some result }
{
    let step = step_told(history.terms(), history.events()[place]);
    (tickets[place], TracedEvent::Phaser(phaser, step))
}

/// The entry at this place of a finish's history.
fn finish_entry(
    finish: u32,
    events: &[FinishEvent],
    tickets: &[u64],
    place: usize,
) -> (u64, TracedEvent)
    requires whole { length tickets.now ≡ length events.now }
    requires within { place < length tickets.now }
    ensures { slice_get (finish_told finish (reverse events.now) tickets.now) place ≡ Some result }
{
    (tickets[place], TracedEvent::Finish(finish, events[place]))
}

impl Part {
    /// The events of the phaser of this number, with these tickets, the oldest first.
    pub fn of_phaser(phaser: u32, history: History, tickets: Vec<u64>) -> Part
        requires { vec_len tickets ≡ length history.past }
        ensures { result ≡ phaser_told phaser history tickets.items }
    {
        Part {
            source: Source::Phaser(phaser, history, tickets),
        }
    }

    /// The events of the finish of this number, with these tickets, the oldest first; but for the
    /// first few, which are left out.
    pub fn of_finish(finish: u32, events: Vec<FinishEvent>, tickets: Vec<u64>, first: usize) -> Part
        requires { vec_len tickets ≡ length events.items }
        ensures { result ≡ drop first (finish_told finish (reverse events.items) tickets.items) }
    {
        Part {
            source: Source::Finish(finish, events, tickets, first),
        }
    }

    /// The entries of a task's log.
    pub fn of_log(log: Log) -> Part
        ensures { result ≡ log.entries }
    {
        Part {
            source: Source::Log(log),
        }
    }

    /// How many events there are.
    pub fn len(&self) -> usize
        ensures { result ≡ length self.now }
    {
        match &self.source {
            Source::Phaser(_, _, tickets) => tickets.len(),
            Source::Finish(_, _, tickets, first) => tickets.len().saturating_sub(*first),
            Source::Log(log) => log.entries().len(),
        }
    }

    /// The event at this place, counted from 0, with its ticket.
    pub fn entry(&self, place: usize) -> (u64, TracedEvent)
        requires { place < length self.now }
        ensures { slice_get self.now place ≡ Some result }
    {
        match &self.source {
            Source::Phaser(phaser, history, tickets) => {
                phaser_entry(*phaser, history, tickets.as_slice(), place)
            }
            Source::Finish(finish, events, tickets, first) => {
                finish_entry(
                    *finish,
                    events.as_slice(),
                    tickets.as_slice(),
                    *first + place,
                )
            }
            Source::Log(log) => log.entries()[place],
        }
    }

    /// The ticket of the event at this place, counted from 0; the event isn't read.
    pub fn ticket(&self, place: usize) -> u64
        requires { place < length self.now }
        ensures { IfSome (slice_get self.now place) (λ e. result ≡ e.0) }
    {
        match &self.source {
            Source::Phaser(_, _, tickets) => tickets[place],
            Source::Finish(_, _, tickets, first) => tickets[*first + place],
            Source::Log(log) => log.entries()[place].0,
        }
    }

    /// Adds the event at this place, counted from 0, at the end of a trace, with its ticket. On
    /// `Memory` the trace is as it was.
    // An entry of a log is looked at where it stands: nearly all are kept in less room.
    pub fn add_to(&self, place: usize, trace: &mut Trace) -> Result<(), Refusal>
        requires { place < length self.now }
        ensures added { IfOk result (λ _. IfSome (slice_get self.now place)
            (λ e. trace.new ≡ with_event trace.old e)) }
        ensures memory { IfErr result (λ r. (r ≡ Refusal.Memory) × (trace.new ≡ trace.old)) }
    {
        if let Source::Log(log) = &self.source {
            let entry = &log.entries()[place];
            return trace.put(entry.0, &entry.1);
        }
        let (ticket, event) = self.entry(place);
        trace.push(ticket, event)
    }
}
