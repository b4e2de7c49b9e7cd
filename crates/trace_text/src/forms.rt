//! That what the code holds has a form: its types have the ranges that a form asks for. No program
//! calls these functions. Their contracts are laws, and they go through a value only so that the
//! check sees its types.
ghost use Rattle.std.specs.Prelude.{◌≡◌, true, Ok, nat_le, length};
ghost use Rattle.std.specs.List.{list_all};
ghost use Rattle.trace_model.specs.Explained.{is_explained};
ghost use Rattle.job_script.specs.Reading.{reading};
ghost use Rattle.trace_text.specs.Form.{form_of};
ghost use Rattle.trace_text.specs.Noted.{notes_refusal, notes_refusals};
ghost use Rattle.trace_text.specs.Text.{is_number, is_index, is_value, is_wide, seen_has_form, bound_has_form, terms_have_form, step_has_form, finish_has_form, begun_has_form, tried_has_form, event_has_form, entry_has_form, has_form, trace_text};

use finish_core::FinishEvent;
use phase_model::{Bound, Look, Terms};
use phase_modes::Phased;
use trace_model::{Trace, TracedEvent, TracedStep};
use world_model::{Begun, Tried};

// ---- numbers: the type of each is its range

fn number_fits(_number: u32)
    ensures { is_number _number ≡ true }
{}

fn index_fits(_accumulator: u8)
    ensures { is_index _accumulator ≡ true }
{}

fn value_fits(_value: i32)
    ensures { is_value _value ≡ true }
{}

fn sum_fits(_value: i64)
    ensures { is_wide _value ≡ true }
{}

// ---- what events are made of

fn seen_fits(seen: Look)
    ensures { seen_has_form seen ≡ true }
{
    if let Look::Value(value) = seen {
        sum_fits(value);
    }
}

fn bound_fits(bound: Option<Bound>)
    ensures { bound_has_form bound ≡ true }
{
    if let Some(bound) = bound {
        let _phases = bound.phases();
    }
}

fn terms_fit(terms: &Terms)
    ensures { terms_have_form terms.now ≡ true }
{
    let _few = terms.ops.len();
    bound_fits(terms.bound);
}

fn step_fits(step: &TracedStep)
    ensures { step_has_form step.now ≡ true }
{
    match step {
        TracedStep::Make(task, _, terms) => {
            number_fits(*task);
            terms_fit(terms);
        }
        TracedStep::Reg(parent, child, _) => {
            number_fits(*parent);
            number_fits(*child);
        }
        TracedStep::Sig(task, None) => number_fits(*task),
        TracedStep::Sig(task, Some(number)) => {
            number_fits(*task);
            number_fits(*number);
        }
        TracedStep::Claim(task)
        | TracedStep::Did(task)
        | TracedStep::Pass(task)
        | TracedStep::Drop(task) => number_fits(*task),
        TracedStep::Send(task, accumulator, value) => {
            number_fits(*task);
            index_fits(*accumulator);
            value_fits(*value);
        }
        TracedStep::Look(task, accumulator, seen) => {
            number_fits(*task);
            index_fits(*accumulator);
            seen_fits(*seen);
        }
    }
}

fn finish_event_fits(event: FinishEvent)
    ensures { finish_has_form event ≡ true }
{
    match event {
        FinishEvent::Opened(task) | FinishEvent::Spawned(task) | FinishEvent::Ended(task) => {
            number_fits(task);
        }
        FinishEvent::Shut => {}
    }
}

fn pairs_fit(pairs: &Phased)
    ensures few { nat_le (length pairs.now) 16 ≡ true }
    ensures phasers { list_all (λ p. is_number p.phaser) pairs.now ≡ true }
{
    let _few = pairs.len();
    for pair in pairs.as_slice() {
        number_fits(pair.phaser);
    }
}

fn begun_fits(act: &Begun)
    ensures { begun_has_form act.now ≡ true }
{
    match act {
        Begun::Async(child, pairs) => {
            number_fits(*child);
            pairs_fit(pairs);
        }
        Begun::NextSingle(number) => number_fits(*number),
        Begun::Signal | Begun::Wait | Begun::Next | Begun::Shut | Begun::End => {}
    }
}

fn tried_fits(act: &Tried)
    ensures { tried_has_form act.now ≡ true }
{
    match act {
        Tried::Begun(act) => begun_fits(act),
        Tried::New(phaser, _, terms) => {
            number_fits(*phaser);
            terms_fit(terms);
        }
        Tried::Open(finish) => number_fits(*finish),
        Tried::Send(phaser, accumulator, value) => {
            number_fits(*phaser);
            index_fits(*accumulator);
            value_fits(*value);
        }
        Tried::Look(phaser, accumulator) => {
            number_fits(*phaser);
            index_fits(*accumulator);
        }
    }
}

// ---- events: of a refusal's number the type says too little

fn event_fits(event: &TracedEvent)
    ensures { notes_refusal event.now ≡ true → event_has_form event.now ≡ true }
{
    match event {
        TracedEvent::Phaser(phaser, step) => {
            number_fits(*phaser);
            step_fits(step);
        }
        TracedEvent::Finish(finish, event) => {
            number_fits(*finish);
            finish_event_fits(*event);
        }
        TracedEvent::Begin(task, act) => {
            number_fits(*task);
            begun_fits(act);
        }
        TracedEvent::Refuse(task, act, _) => {
            number_fits(*task);
            tried_fits(act);
        }
        TracedEvent::Fail(task, _) => number_fits(*task),
    }
}

fn entry_fits(_ticket: u64, event: &TracedEvent)
    ensures { notes_refusal event.now ≡ true → entry_has_form (_ticket, event.now) ≡ true }
{
    event_fits(event);
}

/// A trace that the code holds has a form, and its text is read as that trace, if the number of each
/// refusal in it is one (`REFUSALS`). In an explained trace it is.
pub fn held_traces_are_read_back(trace: &Trace)
    ensures form { notes_refusals trace.now ≡ true → has_form trace.now ≡ true }
    ensures read_back { notes_refusals trace.now ≡ true
        → form_of (reading (trace_text trace.now)) ≡ Ok trace.now }
    ensures explained { is_explained trace.now ≡ true
        → form_of (reading (trace_text trace.now)) ≡ Ok trace.now }
{
    let _limits = trace.limits();
    for place in 0..trace.len() {
        let (ticket, event) = trace.entry(place);
        entry_fits(ticket, &event.event());
    }
}
