//! An entry of a trace as a value that tests compare.
ghost use Rattle.std.specs.Prelude.{◌<◌, length};

use trace_model::{Trace, TracedEvent};

/// The event at this place, with its ticket.
pub(crate) fn entry_of(trace: &Trace, place: usize) -> (u64, TracedEvent)
    requires { place < length trace.now.events }
{
    let (ticket, event) = trace.entry(place);
    (ticket, event.event())
}
