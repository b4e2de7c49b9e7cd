//! Merges the parts of a run's log to its trace, by rising ticket.
ghost use Rattle.std.specs.Prelude.{◌≡◌, ℕ, ◌++◌, true, IfOk};
ghost use Rattle.phase_modes.specs.Limits.{limits_fit};
ghost use Rattle.trace_model.specs.Parts.{rises, IsTraceOf};
ghost use Rattle.trace_replay.specs.Merging.{marked_after, all_marked, IsMerged, is_fault, Traces, Merges};

use crate::turns::merged_in_turn;
use phase_model::{Bound, Terms};
use phase_modes::{Limits, Refusal};
use std::alloc::{AllocError, Global};
use trace_model::{Part, Trace, TracedEvent, TracedStep};
use world_model::{Begun, Tried};

/// An event with its ticket, and whether it stands in its part after one with a greater ticket.
#[derive(Clone, Copy, Debug, PartialEq, Eq)]
struct Mark {
    ticket: u64,
    event: TracedEvent,
    late: bool,
}

/// Adds the events of a part, marked.
fn mark_part(marks: &mut Vec<Mark>, part: &Part) -> Result<(), AllocError>
    ensures { IfOk result (λ _. marks.new.items ≡ marks.old.items ++ marked_after 0 part.now) }
{
    // The prover has to be shown the types inside an event: it doesn't find them by itself.
    let _step: Option<TracedStep> = None;
    let _begun: Option<Begun> = None;
    let _tried: Option<Tried> = None;
    let _terms: Option<Terms> = None;
    let _bound: Option<Bound> = None;
    let mut most = 0;
    for place in 0..part.len() {
        let (ticket, event) = part.entry(place);
        let late = ticket < most;
        marks.push(Mark {
            ticket,
            event,
            late,
        })?;
        if !late {
            most = ticket;
        }
    }
    Ok(())
}

/// The events of all parts, marked.
fn all_marks(alloc: Global, parts: &[Part]) -> Result<Vec<Mark>, AllocError>
    ensures { IfOk result (λ marks. marks.items ≡ all_marked parts.now) }
{
    let mut marks = Vec::new(alloc);
    for part in parts {
        mark_part(&mut marks, part)?;
    }
    Ok(marks)
}

/// The same by rising ticket, those of one ticket in the order of the parts.
fn in_order(alloc: Global, parts: &[Part]) -> Result<Vec<Mark>, AllocError>
    ensures { IfOk result (λ marks. IsMerged parts.now marks.items) }
{
    let mut marks = all_marks(alloc, parts)?;
    marks.sort_by_key(|mark| mark.ticket)?;
    Ok(marks)
}

/// Whether the event is at fault after one with this ticket.
fn is_at_fault(last: Option<u64>, mark: &Mark) -> bool
    ensures { result ≡ is_fault last mark.now }
{
    match last {
        None => mark.late,
        Some(ticket) => ticket == mark.ticket || mark.late,
    }
}

/// The trace of the events in this order; `NotExplained` at the first that is at fault.
fn trace_of(alloc: Global, limits: Limits, marks: &[Mark]) -> Result<Trace, Refusal>
    requires { limits_fit limits ≡ true }
    ensures { Traces limits marks.now result }
{
    let mut trace = Trace::new(alloc, limits);
    let mut last = None;
    for (index, mark) in marks.iter().enumerate() {
        if is_at_fault(last, mark) {
            return Err(Refusal::NotExplained(index as u64 + 1));
        }
        trace.push(mark.ticket, mark.event)?;
        last = Some(mark.ticket);
    }
    Ok(trace)
}

/// The trace of the parts of a run's log: the events of all of them by rising ticket.
/// `NotExplained` at the first place, counted from 1, whose ticket is that of the one before, or
/// whose event stands in its part after one with a greater ticket; events of one ticket stand there
/// in the order of the parts. `Memory` if there is too little for the trace. Whether a run makes
/// these events is not asked.
pub fn merge(alloc: Global, limits: Limits, parts: &[Part]) -> Result<Trace, Refusal>
    requires { limits_fit limits ≡ true }
    ensures merged { Merges limits parts.now result }
    ensures of_parts { IfOk result (λ r. (r.limits ≡ limits) × IsTraceOf parts.now r.events) }
    ensures rising { IfOk result (λ r. rises r.events ≡ true) }
{
    if let Some(trace) = merged_in_turn(alloc, limits, parts)? {
        return Ok(trace);
    }
    let marks = in_order(alloc, parts)?;
    trace_of(alloc, limits, &marks)
}
