//! The log of a task that is run without a world.
use crate::asserted::holds_at;
use phase_modes::Refusal;
use std::alloc::Global;
use std::process::Abort;
use std::test::Fail;
use trace_model::{Log, TracedEvent};
use world_model::Begun;

/// The entry is added if the log has room, as it has.
fn adds(rt: &impl Abort, log: &mut Log, ticket: u64, entry: &TracedEvent) {
    holds_at(rt, entry, log.has_room());
    if log.has_room() {
        log.add(ticket, *entry);
    }
}

/// The log is full, of these entries.
fn is_full_of(rt: &impl Abort, log: &Log, entries: &[(u64, TracedEvent)]) {
    assert!(rt; !log.has_room());
    assert!(rt; log.entries() == entries);
}

/// All entries fit into a log for this many acts.
fn fill(
    rt: &impl Abort,
    alloc: Global,
    acts: u32,
    entries: &[(u64, TracedEvent)],
) -> Result<(), Refusal> {
    let mut log = Log::new(alloc, acts)?;
    for (ticket, entry) in entries {
        adds(rt, &mut log, *ticket, entry);
    }
    is_full_of(rt, &log, entries);
    Ok(())
}

#[test]
fn entries_of_a_task(rt: HostRuntime) -> Result<(), Fail> {
    const ENTRIES: [(u64, TracedEvent); 3] = [
        (4, TracedEvent::Begin(3, Begun::Next)),
        (9, TracedEvent::Begin(3, Begun::End)),
        (12, TracedEvent::Fail(3, 15)),
    ];
    fill(&rt, rt.alloc(), 1, &ENTRIES).map_err(|_| Fail::from("memory"))
}
