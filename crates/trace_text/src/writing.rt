//! Writes a trace as text, in version 2, with no blank.
ghost use Rattle.std.specs.Prelude.{◌≡◌, ◌++◌, ◌∷◌, [], map, string_bytes, nat_lt, IfOk, IfErr, decimal};
ghost use Rattle.trace_model.specs.Views.{long_event, short_step, viewed};
ghost use Rattle.trace_model.specs.declared.event.TracedEvent.TheVariants.{Phaser, Finish, Begin, Refuse, Fail};
ghost use Rattle.serde_json.specs.Written.{compact_text, comma_if};
ghost use Rattle.trace_text.specs.inner.Writing.{quoted, Appends};
ghost use Rattle.trace_text.specs.Text.{list, rest_text, mode_data, op_data, ops_data, bound_items, terms_items, step_items, finish_items, pair_data, pairs_data, begun_items, tried_items, event_items, entry_data, limits_data, trace_text};
ghost use Rattle.trace_text.specs.declared.version.Version.TheVariants.{Second};

use finish_core::FinishEvent;
use phase_model::{Bound, Op, Terms};
use phase_modes::{Limits, Mode, Pair, PhaserNumber, Refusal, TaskNumber};
use std::alloc::{AllocError, Global};
use trace_model::{EventView, LargeEvent, ShortStep, Trace, TracedStep};
use world_model::{Begun, Tried};

/// A comma, but before the first item.
fn write_comma(out: &mut String, index: usize) -> Result<(), AllocError>
    ensures { Appends result out.old out.new (comma_if (nat_lt 0 index)) }
{
    if index > 0 {
        out.push_str(",")?;
    }
    Ok(())
}

/// A name between quotes. It is written as it stands, so it is to be one in which nothing is escaped.
fn write_name(out: &mut String, name: &str) -> Result<(), AllocError>
    ensures { Appends result out.old out.new (quoted name.now) }
{
    out.push_str("\"")?;
    out.push_str(name)?;
    out.push_str("\"")?;
    Ok(())
}

fn write_mode(out: &mut String, mode: Mode) -> Result<(), AllocError>
    ensures { Appends result out.old out.new (compact_text (mode_data mode)) }
{
    write_name(out, mode.name())
}

fn write_op(out: &mut String, op: Op) -> Result<(), AllocError>
    ensures { Appends result out.old out.new (compact_text (op_data op)) }
{
    write_name(out, op.name())
}

fn write_ops(out: &mut String, ops: &[Op]) -> Result<(), AllocError>
    ensures { Appends result out.old out.new (compact_text (ops_data ops.now)) }
{
    out.push_str("[")?;
    for (index, op) in ops.iter().enumerate() {
        write_comma(out, index)?;
        write_op(out, *op)?;
    }
    out.push_str("]")?;
    Ok(())
}

/// A bound after a comma, or null for none, and the closing bracket.
fn write_bound(out: &mut String, bound: Option<Bound>) -> Result<(), AllocError>
    ensures { Appends result out.old out.new (rest_text (bound_items Second bound)) }
{
    match bound {
        None => out.push_str(",null]"),
        Some(bound) => {
            let phases = bound.phases();
            write!(out, ",{phases}]")
        }
    }
}

/// What a phaser is made with, each item after a comma, and the closing bracket.
#[tactic(auto, unfolding(json::specs::Print::escape_byte))]
fn write_terms(out: &mut String, mode: Mode, terms: &Terms) -> Result<(), AllocError>
    ensures { Appends result out.old out.new (rest_text (terms_items Second mode terms.now)) }
{
    out.push_str(",")?;
    write_mode(out, mode)?;
    out.push_str(",")?;
    write_ops(out, terms.ops.as_slice())?;
    write_bound(out, terms.bound)
}

/// The items of a short step, each after a comma, and the closing bracket; a look that saw nothing has
/// null.
#[tactic(auto, unfolding(json::specs::Print::escape_byte))]
fn write_step(out: &mut String, step: ShortStep) -> Result<(), AllocError>
    ensures { Appends result out.old out.new (rest_text (step_items Second (short_step step))) }
{
    match step {
        ShortStep::Reg(parent, child, mode) => {
            write!(out, ",\"reg\",{parent},{child},")?;
            write_mode(out, mode)?;
            out.push_str("]")
        }
        ShortStep::Sig(task, None) => write!(out, ",\"sig\",{task}]"),
        ShortStep::Sig(task, Some(number)) => write!(out, ",\"sig\",{task},{number}]"),
        ShortStep::Claim(task) => write!(out, ",\"claim\",{task}]"),
        ShortStep::Did(task) => write!(out, ",\"did\",{task}]"),
        ShortStep::Pass(task) => write!(out, ",\"pass\",{task}]"),
        ShortStep::Send(task, accumulator, value) => {
            write!(out, ",\"send\",{task},{accumulator},{value}]")
        }
        ShortStep::Saw(accumulator, task, value) => {
            write!(out, ",\"look\",{task},{accumulator},{value}]")
        }
        ShortStep::SawNothing(task, accumulator) => {
            write!(out, ",\"look\",{task},{accumulator},null]")
        }
        ShortStep::Drop(task) => write!(out, ",\"drop\",{task}]"),
    }
}

/// The items of a finish's event, each after a comma, and the closing bracket.
#[tactic(auto, unfolding(json::specs::Print::escape_byte))]
fn write_finish_event(out: &mut String, event: FinishEvent) -> Result<(), AllocError>
    ensures { Appends result out.old out.new (rest_text (finish_items event)) }
{
    match event {
        FinishEvent::Opened(task) => write!(out, ",\"opened\",{task}]"),
        FinishEvent::Spawned(task) => write!(out, ",\"spawned\",{task}]"),
        FinishEvent::Ended(task) => write!(out, ",\"ended\",{task}]"),
        FinishEvent::Shut => out.push_str(",\"shut\"]"),
    }
}

fn write_pair(out: &mut String, pair: &Pair) -> Result<(), AllocError>
    ensures { Appends result out.old out.new (compact_text (pair_data pair.now)) }
{
    let phaser = pair.phaser;
    write!(out, "[{phaser},")?;
    write_mode(out, pair.mode)?;
    out.push_str("]")
}

fn write_pairs(out: &mut String, pairs: &[Pair]) -> Result<(), AllocError>
    ensures { Appends result out.old out.new (compact_text (pairs_data pairs.now)) }
{
    out.push_str("[")?;
    for (index, pair) in pairs.iter().enumerate() {
        write_comma(out, index)?;
        write_pair(out, pair)?;
    }
    out.push_str("]")?;
    Ok(())
}

/// An act that takes more than one event.
#[tactic(auto, unfolding(json::specs::Print::escape_byte))]
fn write_begun(out: &mut String, act: &Begun) -> Result<(), AllocError>
    ensures { Appends result out.old out.new (compact_text (list (begun_items act.now))) }
{
    match act {
        Begun::Async(child, pairs) => {
            write!(out, "[\"async\",{child},")?;
            write_pairs(out, pairs.as_slice())?;
            out.push_str("]")
        }
        Begun::Signal => out.push_str("[\"signal\"]"),
        Begun::Wait => out.push_str("[\"wait\"]"),
        Begun::Next => out.push_str("[\"next\"]"),
        Begun::NextSingle(number) => write!(out, "[\"single\",{number}]"),
        Begun::Shut => out.push_str("[\"shut\"]"),
        Begun::End => out.push_str("[\"end\"]"),
    }
}

/// Any act.
#[tactic(auto, unfolding(json::specs::Print::escape_byte))]
fn write_tried(out: &mut String, act: &Tried) -> Result<(), AllocError>
    ensures { Appends result out.old out.new (compact_text (list (tried_items Second act.now))) }
{
    match act {
        Tried::Begun(act) => write_begun(out, act),
        Tried::New(phaser, mode, terms) => {
            write!(out, "[\"new\",{phaser}")?;
            write_terms(out, *mode, terms)
        }
        Tried::Open(finish) => write!(out, "[\"open\",{finish}]"),
        Tried::Send(phaser, accumulator, value) => {
            write!(out, "[\"send\",{phaser},{accumulator},{value}]")
        }
        Tried::Look(phaser, accumulator) => write!(out, "[\"look\",{phaser},{accumulator}]"),
    }
}

/// The items of an entry of a refusal, each after a comma, and the closing bracket.
#[tactic(auto, unfolding(json::specs::Print::escape_byte))]
fn write_refuse(out: &mut String, task: u32, act: &Tried, number: u8) -> Result<(), AllocError>
    ensures { Appends result out.old out.new (rest_text (event_items Second (Refuse task act.now number))) }
{
    write!(out, ",\"t\",{task},\"refuse\",")?;
    write_tried(out, act)?;
    write!(out, ",{number}]")?;
    Ok(())
}

/// The items of the making of a phaser, each after a comma, and the closing bracket.
#[tactic(auto, unfolding(json::specs::Print::escape_byte))]
fn write_make(
    out: &mut String,
    phaser: PhaserNumber,
    task: TaskNumber,
    mode: Mode,
    terms: &Terms,
) -> Result<(), AllocError>
    ensures { Appends result out.old out.new
        (rest_text (event_items Second (Phaser phaser (TracedStep.Make task mode terms.now)))) }
{
    let (phaser, task) = (phaser.get(), task.get());
    write!(out, ",\"p\",{phaser},\"make\",{task}")?;
    write_terms(out, mode, terms)
}

/// The items of a short step on a phaser, each after a comma, and the closing bracket.
#[tactic(auto, unfolding(json::specs::Print::escape_byte))]
fn write_on_phaser(out: &mut String, phaser: u32, step: ShortStep) -> Result<(), AllocError>
    ensures { Appends result out.old out.new (rest_text (event_items Second (Phaser phaser (short_step step)))) }
{
    write!(out, ",\"p\",{phaser}")?;
    write_step(out, step)
}

/// The items of an event of a finish, each after a comma, and the closing bracket.
#[tactic(auto, unfolding(json::specs::Print::escape_byte))]
fn write_in_finish(out: &mut String, finish: u32, event: FinishEvent) -> Result<(), AllocError>
    ensures { Appends result out.old out.new (rest_text (event_items Second (Finish finish event))) }
{
    write!(out, ",\"f\",{finish}")?;
    write_finish_event(out, event)
}

/// The items of an act that a task begins, each after a comma, and the closing bracket.
#[tactic(auto, unfolding(json::specs::Print::escape_byte))]
fn write_begin(out: &mut String, task: u32, act: &Begun) -> Result<(), AllocError>
    ensures { Appends result out.old out.new (rest_text (event_items Second (Begin task act.now))) }
{
    write!(out, ",\"t\",{task},\"begin\",")?;
    write_begun(out, act)?;
    out.push_str("]")
}

/// The items of a failure, each after a comma, and the closing bracket.
#[tactic(auto, unfolding(json::specs::Print::escape_byte))]
fn write_fail(out: &mut String, task: u32, number: u8) -> Result<(), AllocError>
    ensures { Appends result out.old out.new (rest_text (event_items Second (Fail task number))) }
{
    write!(out, ",\"t\",{task},\"fail\",{number}]")
}

/// The items of a long event, each after a comma, and the closing bracket.
fn write_long(out: &mut String, event: &LargeEvent) -> Result<(), AllocError>
    ensures { Appends result out.old out.new (rest_text (event_items Second (long_event event.now))) }
{
    match event {
        LargeEvent::Make(phaser, task, mode, terms) => {
            let (phaser, task) = (PhaserNumber::of(*phaser), TaskNumber::of(*task));
            write_make(out, phaser, task, *mode, terms)
        }
        LargeEvent::Async(task, child, pairs) => {
            write_begin(out, *task, &Begun::Async(*child, *pairs))
        }
        LargeEvent::Refuse(task, act, number) => write_refuse(out, *task, act, *number),
    }
}

/// The same of any event that a trace lends.
fn write_view(out: &mut String, event: EventView<'_>) -> Result<(), AllocError>
    ensures { Appends result out.old out.new (rest_text (event_items Second (viewed event.entry))) }
{
    match event {
        EventView::Phaser(phaser, step) => write_on_phaser(out, phaser, step),
        EventView::Finish(finish, event) => write_in_finish(out, finish, event),
        EventView::Begin(task, act) => write_begin(out, task, &act.act()),
        EventView::Fail(task, number) => write_fail(out, task, number),
        EventView::Long(event) => write_long(out, event),
    }
}

/// An event with its ticket.
fn write_entry(out: &mut String, ticket: u64, event: EventView<'_>) -> Result<(), AllocError>
    ensures { Appends result out.old out.new (compact_text (entry_data Second (ticket, viewed event.entry))) }
{
    write!(out, "[{ticket}")?;
    write_view(out, event)
}

fn write_entries(out: &mut String, trace: &Trace) -> Result<(), AllocError>
    ensures { Appends result out.old out.new (compact_text (list (map (entry_data Second) trace.now.events))) }
{
    out.push_str("[")?;
    for index in 0..trace.len() {
        write_comma(out, index)?;
        let (ticket, event) = trace.entry(index);
        write_entry(out, ticket, event)?;
    }
    out.push_str("]")?;
    Ok(())
}

/// A number after the text in front of it.
fn write_number(out: &mut String, front: &str, number: u32) -> Result<(), AllocError>
    ensures { Appends result out.old out.new (front.now ++ decimal number) }
{
    write!(out, "{front}{number}")
}

fn write_limits(out: &mut String, limits: Limits) -> Result<(), AllocError>
    ensures { Appends result out.old out.new (compact_text (limits_data limits)) }
{
    write_number(out, "{\"acts\":", limits.acts)?;
    write_number(out, ",\"finishes\":", limits.finishes)?;
    write_number(out, ",\"history\":", limits.history)?;
    write_number(out, ",\"phasers\":", limits.phasers)?;
    write_number(out, ",\"regs\":", limits.regs)?;
    write_number(out, ",\"tasks\":", limits.tasks)?;
    out.push_str("}")?;
    Ok(())
}

fn write_trace(out: &mut String, trace: &Trace) -> Result<(), AllocError>
    ensures { Appends result out.old out.new (trace_text trace.now) }
{
    out.push_str("{\"events\":")?;
    write_entries(out, trace)?;
    out.push_str(",\"limits\":")?;
    write_limits(out, trace.limits())?;
    out.push_str(",\"version\":2}")?;
    Ok(())
}

/// The text of the trace: version 2, no blank and no newline, all six limits. `Memory` if there
/// is too little for it. Any trace has a text. It is read back if the number of each refusal in it is
/// one (`REFUSALS`), as in each explained trace (`held_traces_are_read_back`).
pub fn to_json(alloc: Global, trace: &Trace) -> Result<String, Refusal>
    ensures text { IfOk result (λ text. string_bytes text ≡ trace_text trace.now) }
    ensures memory { IfErr result (λ r. r ≡ Refusal.Memory) }
{
    let mut text = String::new(alloc);
    write_trace(&mut text, trace)?;
    Ok(text)
}
