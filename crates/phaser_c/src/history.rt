//! The history of a phaser as the text of a trace.
ghost use Rattle.std.specs.Prelude.{◌≡◌, length, vec_len, string_bytes, true, IfOk, IfErr};
ghost use Rattle.phase_modes.specs.Limits.{limits_fit};
ghost use Rattle.trace_model.specs.Told.{phaser_told};
ghost use Rattle.phaser_c.specs.History.{history_text, IsHistory, IsHistoryTold};

use crate::answer::ExportAnswer;
use crate::handle::Handle;
use crate::room::tell;
use phase_model::History;
use phase_modes::{Limits, Refusal};
use std::alloc::Global;
use trace_model::{Part, Trace};
use trace_text::to_json;

/// The same history once more.
#[tactic(auto, using(phase_model::proofs::Reversed::reverse_take_more))]
fn copied(alloc: Global, history: &History) -> Result<History, Refusal>
    ensures same { IfOk result (λ h. h ≡ history.now) }
    ensures memory { IfErr result (λ r. r ≡ Refusal.Memory) }
{
    let mut copy = History::new(alloc, history.limits(), history.ops(), history.bound())?;
    let events = history.events();
    for i in 0..history.len() {
        copy.add(events[i as usize]);
    }
    Ok(copy)
}

/// The history as a part of a trace, under this number, with these tickets.
fn part_of(alloc: Global, number: u32, history: &History, tickets: &[u64]) -> Result<Part, Refusal>
    requires { length tickets.now ≡ length history.now.past }
    ensures part { IfOk result (λ p. p ≡ phaser_told number history.now tickets.now) }
    ensures memory { IfErr result (λ r. r ≡ Refusal.Memory) }
{
    let copy = copied(alloc, history)?;
    let tickets = Vec::from_slice(alloc, tickets)?;
    Ok(Part::of_phaser(number, copy, tickets))
}

/// The trace that has the events of a part alone.
fn trace_of(alloc: Global, limits: Limits, part: &Part) -> Result<Trace, Refusal>
    requires { limits_fit limits ≡ true }
    ensures trace { IfOk result (λ t. t ≡ record { limits = limits; events = part.now }) }
    ensures memory { IfErr result (λ r. r ≡ Refusal.Memory) }
{
    let mut trace = Trace::new(alloc, limits);
    for place in 0..part.len() {
        part.add_to(place, &mut trace)?;
    }
    Ok(trace)
}

/// The text of the trace that has the events of the history alone.
fn text_of(
    alloc: Global,
    number: u32,
    history: &History,
    tickets: &[u64],
) -> Result<String, Refusal>
    requires { length tickets.now ≡ length history.now.past }
    ensures text { IfOk result (λ text. string_bytes text ≡ history_text number history.now tickets.now) }
    ensures memory { IfErr result (λ r. r ≡ Refusal.Memory) }
{
    let part = part_of(alloc, number, history, tickets)?;
    let trace = trace_of(alloc, history.limits(), &part)?;
    to_json(alloc, &trace)
}

/// Writes the text of the history to the room, if there are as many tickets as events.
fn tell_history(
    alloc: Global,
    number: u32,
    history: &History,
    tickets: &[u64],
    room: &mut [u8],
    written: &mut usize,
) -> ExportAnswer
    ensures { IsHistory number history.now tickets.now room.old room.new written.old written.new result }
{
    if tickets.len() != history.len() as usize {
        return ExportAnswer::BadTickets;
    }
    match text_of(alloc, number, history, tickets) {
        Ok(text) if tell(text.as_bytes(), room, written) => ExportAnswer::Done,
        Ok(_) => ExportAnswer::Short,
        Err(refusal) => ExportAnswer::Refused(refusal),
    }
}

/// The history as the text of a trace, which is written to the room.
#[unsafe(no_mangle)]
pub extern "C" fn phaser_c_history_text(
    alloc: Global,
    phaser: &mut Handle,
    number: u32,
    tickets: &[u64],
    text: &mut [u8],
    written: &mut usize,
) -> u32
    ensures kept { phaser.new.state ≡ phaser.old.state }
    ensures told { IsHistoryTold phaser.old.state number tickets.now text.old text.new written.old written.new result }
{
    let Some(state) = phaser.take(alloc) else {
        return ExportAnswer::Closed.number();
    };
    let answer = tell_history(alloc, number, state.history(), tickets, text, written);
    phaser.put(alloc, state);
    answer.number()
}
