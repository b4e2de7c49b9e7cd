//! A judge is made for a handle, judges events, tells what it counted, and is freed.
ghost use Rattle.std.specs.Prelude.{◌≡◌, None};
ghost use Rattle.phaser_c.specs.Answers.{number_of_answer};
ghost use Rattle.phaser_c.specs.Judged.{answer_why, answer_said, IsJudged, IsJudgeMade, totals_given, AreTotals};
ghost use Rattle.phaser_c.specs.JudgedGiven.{event_given};
ghost use Rattle.phaser_c.specs.declared.answer.ExportAnswer.{ExportAnswer as Answered};

use crate::answer::ExportAnswer;
use crate::judge_given::GivenEvent;
use crate::judge_handle::JudgeHandle;
use phase_modes::Refusal;
use phaser_judge::{Judge, Refused, Totals};
use std::alloc::Global;

/// What a judge counted of the events that it accepted: `paldwosk_judged_totals`.
#[repr(C)]
#[derive(Clone, Copy, Debug, Drop)]
pub struct GivenTotals {
    pub events: u64,
    pub made: u64,
    pub there: u64,
    pub registrations: u64,
    pub signals: u64,
    pub passes: u64,
    pub drops: u64,
    pub sends: u64,
    pub over: u32,
}

impl GivenTotals {
    /// These totals, of a judge with so many phasers.
    fn of(totals: Totals, there: usize, over: bool) -> GivenTotals
        ensures { result ≡ totals_given totals there over }
    {
        GivenTotals {
            events: totals.events,
            made: totals.made,
            there: there as u64,
            registrations: totals.registrations,
            signals: totals.signals,
            passes: totals.passes,
            drops: totals.drops,
            sends: totals.sends,
            over: u32::from(over),
        }
    }
}

/// What is answered if an event is refused for this reason.
fn answer_why(why: Refused) -> ExportAnswer
    ensures { result ≡ answer_why why }
{
    match why {
        Refused::NotMade => ExportAnswer::NotMade,
        Refused::MadeAlready => ExportAnswer::MadeAlready,
        Refused::NotRegistered => ExportAnswer::Refused(Refusal::NotRegistered),
        Refused::RegisteredAlready => ExportAnswer::RegisteredAlready,
        Refused::Rule(refusal) => ExportAnswer::Refused(refusal),
        Refused::HadToWait => ExportAnswer::HadToWait,
        Refused::ClaimsInstead => ExportAnswer::ClaimsInstead,
        Refused::PassesInstead => ExportAnswer::PassesInstead,
        Refused::SawOther(_) => ExportAnswer::SawOther,
        Refused::Memory => ExportAnswer::Refused(Refusal::Memory),
        Refused::Over => ExportAnswer::Over,
    }
}

/// What is answered if a judge says this of an event.
pub(crate) fn answer_said(said: Result<(), Refused>) -> ExportAnswer
    ensures { result ≡ answer_said said }
{
    match said {
        Ok(()) => ExportAnswer::Done,
        Err(why) => answer_why(why),
    }
}

/// Makes a judge for a handle that holds none.
fn make_new(alloc: Global, judge: &mut JudgeHandle) -> ExportAnswer
    ensures { IsJudgeMade judge.old.state judge.new.state result }
{
    if let Some(held) = judge.take(alloc) {
        judge.put(alloc, held);
        return ExportAnswer::Open;
    }
    match Box::new(alloc, Judge::new(alloc)) {
        Ok(held) => {
            judge.put(alloc, held);
            ExportAnswer::Done
        }
        Err(_) => ExportAnswer::Refused(Refusal::Memory),
    }
}

/// Has the judge that the handle holds judge an event.
fn judged(alloc: Global, judge: &mut JudgeHandle, event: &GivenEvent) -> ExportAnswer
    ensures { IsJudged (event_given event.now) judge.old.state judge.new.state result }
{
    let event = match event.event() {
        Ok(event) => event,
        Err(answer) => return answer,
    };
    let Some(mut held) = judge.take(alloc) else {
        return ExportAnswer::Closed;
    };
    let said = held.event(&event);
    judge.put(alloc, held);
    answer_said(said)
}

/// `Judge::new`, for a handle that holds no judge.
#[unsafe(no_mangle)]
pub extern "C" fn phaser_c_judge_new(alloc: Global, judge: &mut JudgeHandle) -> u32
    ensures { (a : Answered) × (result ≡ number_of_answer a) × IsJudgeMade judge.old.state judge.new.state a }
{
    make_new(alloc, judge).number()
}

/// Frees the judge that the handle holds, if it holds one. The handle holds none from then on.
#[unsafe(no_mangle)]
pub extern "C" fn phaser_c_judge_free(alloc: Global, judge: &mut JudgeHandle)
    ensures { judge.new.state ≡ None }
{
    drop(judge.take(alloc));
}

/// `Judge::event`.
#[unsafe(no_mangle)]
pub extern "C" fn phaser_c_judge_event(
    alloc: Global,
    judge: &mut JudgeHandle,
    event: &GivenEvent,
) -> u32
    ensures { (a : Answered) × (result ≡ number_of_answer a)
        × IsJudged (event_given event.now) judge.old.state judge.new.state a }
{
    judged(alloc, judge, event).number()
}

/// `Judge::totals`, `Judge::phasers` and `Judge::is_over`.
#[unsafe(no_mangle)]
pub extern "C" fn phaser_c_judge_totals(
    alloc: Global,
    judge: &mut JudgeHandle,
    totals: &mut GivenTotals,
) -> u32
    ensures kept { judge.new.state ≡ judge.old.state }
    ensures told { AreTotals judge.old.state totals.old totals.new result }
{
    let Some(held) = judge.take(alloc) else {
        return ExportAnswer::Closed.number();
    };
    *totals = GivenTotals::of(held.totals(), held.phasers(), held.is_over());
    judge.put(alloc, held);
    ExportAnswer::Done.number()
}
