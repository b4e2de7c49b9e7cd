//! What is judged of a log: each event by the judge, and the tickets by the one before.
ghost use Rattle.std.specs.Prelude.{◌≡◌, ◌∷◌, Some, Ok, false, is_some, IfErr, OnOk};
ghost use Rattle.phaser_judge.specs.Courses.{totals_of};
ghost use Rattle.judge_job.specs.Logs.{rises, after_event, after_spelled, nothing};
ghost use Rattle.judge_job.specs.Standing.{judged_of, IsOfLine, IsOwed, IsReportOf};
ghost use Rattle.judge_job.specs.inner.Steps.{IsAddedTo};

use crate::line::Line;
use crate::report::Report;
use crate::stop::{Reason, Stop};
use job_ends::Failure;
use phase_modes::Refusal;
use phaser_judge::{Judge, NamedEvent, Owing, Refused};
use std::alloc::Global;

/// A judge, the ticket of the last line, and for which tasks the event that was refused had to wait.
#[derive(Drop)]
pub(crate) struct Judging {
    pub(crate) judge: Judge,
    pub(crate) last: Option<u64>,
    pub(crate) owing: Owing,
}

impl Judging {
    /// Before the first event.
    pub(crate) fn new(alloc: Global) -> Judging
        ensures judged { judged_of result ≡ nothing }
        ensures over { result.judge.over ≡ false }
    {
        Judging {
            judge: Judge::new(alloc),
            last: None,
            owing: Owing::none(alloc),
        }
    }

    /// Whether the ticket is greater than that of the line before.
    fn rises(&self, ticket: u64) -> bool
        ensures { result ≡ rises self.now.last ticket }
    {
        match self.last {
            None => true,
            Some(last) => last < ticket,
        }
    }

    /// Judges the event of a line.
    fn event(&mut self, place: u64, ticket: u64, event: &NamedEvent) -> Result<(), Stop>
        requires { self.old.judge.over ≡ false }
        ensures judged { OnOk result
            (after_event place ticket (judged_of self.old) (Some event.now) ≡ Ok (judged_of self.new)) }
        ensures stop { IfErr result
            (IsOfLine (after_event place ticket (judged_of self.old) (Some event.now)) (judged_of self.old)) }
        ensures owed { IfErr result (λ s. IsOwed (judged_of self.old) s self.new.owing) }
        ensures kept { IfErr result (λ _. judged_of self.new ≡ judged_of self.old) }
        ensures over { OnOk result (self.new.judge.over ≡ false) }
        ensures added { OnOk result (self.new.judge.events ≡ event.now ∷ self.old.judge.events) }
    {
        match self.judge.event_with_owing(event, &mut self.owing) {
            Ok(()) => {
                self.last = Some(ticket);
                Ok(())
            }
            Err(Refused::Memory) => Err(Stop::Failed(Failure::Refused(Refusal::Memory))),
            Err(refused) => Err(Stop::Line(place, Reason::Event(*event, refused))),
        }
    }

    /// Judges a line.
    pub(crate) fn line(&mut self, place: u64, line: &Line) -> Result<(), Stop>
        requires { self.old.judge.over ≡ false }
        ensures judged { OnOk result
            (after_spelled place (judged_of self.old) (Some line.now) ≡ Ok (judged_of self.new)) }
        ensures stop { IfErr result
            (IsOfLine (after_spelled place (judged_of self.old) (Some line.now)) (judged_of self.old)) }
        ensures owed { IfErr result (λ s. IsOwed (judged_of self.old) s self.new.owing) }
        ensures kept { IfErr result (λ _. judged_of self.new ≡ judged_of self.old) }
        ensures over { OnOk result (self.new.judge.over ≡ false) }
        ensures added { OnOk result (IsAddedTo (is_some line.now.event) self.old.judge.events self.new.judge.events) }
    {
        if !self.rises(line.ticket) {
            return Err(Stop::Line(place, Reason::Ticket(line.ticket)));
        }
        match &line.event {
            Some(event) => self.event(place, line.ticket, event),
            None => {
                self.last = Some(line.ticket);
                Ok(())
            }
        }
    }

    /// How many events were counted.
    pub(crate) fn events(&self) -> u64
        ensures { result ≡ (totals_of self.now.judge.events).events }
    {
        self.judge.totals().events
    }

    /// What is reported of what was judged.
    #[tactic(auto, using(crate::proofs::Reporting::report_is))]
    pub(crate) fn report(&self) -> Report
        ensures { IsReportOf self.now.judge.events result }
    {
        Report::new(&self.judge.totals(), self.judge.phasers())
    }
}
