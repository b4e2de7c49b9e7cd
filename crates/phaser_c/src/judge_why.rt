//! A judge says for whom an event had to wait.
ghost use Rattle.std.specs.Prelude.{◌≡◌, Some};
ghost use Rattle.phaser_judge.specs.Owing.{IsOwingTo};
ghost use Rattle.phaser_judge.specs.Standings.{Standing};
ghost use Rattle.phaser_c.specs.Answers.{number_of_answer};
ghost use Rattle.phaser_c.specs.Judged.{IsJudged};
ghost use Rattle.phaser_c.specs.JudgedGiven.{event_given};
ghost use Rattle.phaser_c.specs.JudgedWhy.{first_tasks, nobody, why_at, why_told};
ghost use Rattle.phaser_c.specs.declared.answer.ExportAnswer.{ExportAnswer as Answered};

use crate::answer::ExportAnswer;
use crate::judge::answer_said;
use crate::judge_given::GivenEvent;
use crate::judge_handle::JudgeHandle;
use phaser_judge::{Named, Owing, Refused};
use std::alloc::Global;

/// For whom an event had to wait: `paldwosk_judged_why`.
#[repr(C)]
#[derive(Clone, Copy, Debug, Drop)]
pub struct GivenWhy {
    pub phase: u64,
    pub count: u64,
    pub tasks: [u64; 16],
}

/// The first sixteen of these tasks. Behind fewer stand zeros.
fn first_tasks(tasks: &[u64]) -> [u64; 16]
    ensures { result ≡ first_tasks tasks.now }
{
    let mut first = [0; 16];
    let count = tasks.len().min(16);
    first[..count].copy_from_slice(&tasks[..count]);
    first
}

impl GivenWhy {
    /// Nobody is named.
    fn nobody() -> GivenWhy
        ensures { result ≡ nobody }
    {
        GivenWhy {
            phase: 0,
            count: 0,
            tasks: [0; 16],
        }
    }

    /// For whom this event had to wait, as a judge said.
    fn of(event: &Named, owing: &Owing) -> GivenWhy
        ensures { (s : Standing) → IsOwingTo (Some s) event.now owing.now → result ≡ why_at (Some s) event.now }
    {
        match *event {
            Named::Pass(_) | Named::Claim(_) => GivenWhy {
                phase: owing.phase,
                count: owing.tasks.len() as u64,
                tasks: first_tasks(&owing.tasks),
            },
            _ => GivenWhy::nobody(),
        }
    }
}

/// Has the judge that the handle holds judge an event, and says for whom that had to wait.
fn judged_why(
    alloc: Global,
    judge: &mut JudgeHandle,
    event: &GivenEvent,
    why: &mut GivenWhy,
) -> ExportAnswer
    ensures answer { IsJudged (event_given event.now) judge.old.state judge.new.state result }
    ensures why { why.new ≡ why_told (event_given event.now) judge.old.state result }
{
    *why = GivenWhy::nobody();
    let event = match event.event() {
        Ok(event) => event,
        Err(answer) => return answer,
    };
    let Some(mut held) = judge.take(alloc) else {
        return ExportAnswer::Closed;
    };
    let mut owing = Owing::none(alloc);
    let said = held.event_with_owing(&event, &mut owing);
    judge.put(alloc, held);
    if let Err(Refused::HadToWait) = said {
        *why = GivenWhy::of(&event.event, &owing);
    }
    answer_said(said)
}

/// `Judge::event_with_owing`.
#[unsafe(no_mangle)]
pub extern "C" fn phaser_c_judge_event_with_owing(
    alloc: Global,
    judge: &mut JudgeHandle,
    event: &GivenEvent,
    why: &mut GivenWhy,
) -> u32
    ensures { (a : Answered) × (result ≡ number_of_answer a)
        × IsJudged (event_given event.now) judge.old.state judge.new.state a
        × (why.new ≡ why_told (event_given event.now) judge.old.state a) }
{
    judged_why(alloc, judge, event, why).number()
}
