//! The lines of the report, and when they are told while judging goes on.
ghost use Rattle.std.specs.Prelude.{◌≡◌, true};
ghost use Rattle.std.specs.Fmt.{WritesOnOk};
ghost use Rattle.judge_job.specs.Standing.{phasers_text, registrations_text, report_of, turns_text};
ghost use Rattle.judge_job.specs.Endings.{IsDue, TellsAfter};

use crate::judging::Judging;
use crate::writes::Writes;
use phaser_judge::Totals;
use std::alloc::Global;
use std::fmt;
use std::io::Write;
use std::time::{Clock, Duration, Instant};

/// What is reported: the totals, and how many phasers are there.
#[derive(Clone, Copy)]
pub(crate) struct Report {
    pub(crate) events: u64,
    pub(crate) made: u64,
    pub(crate) there: usize,
    pub(crate) registrations: u64,
    pub(crate) signals: u64,
    pub(crate) passes: u64,
    pub(crate) drops: u64,
    pub(crate) sends: u64,
}

impl Report {
    /// Of these totals, if so many phasers are there.
    pub(crate) fn new(totals: &Totals, there: usize) -> Report
        ensures { result ≡ report_of totals.now there }
    {
        Report {
            events: totals.events,
            made: totals.made,
            there,
            registrations: totals.registrations,
            signals: totals.signals,
            passes: totals.passes,
            drops: totals.drops,
            sends: totals.sends,
        }
    }
}

impl fmt::Display for Report {
    ghost use Rattle.std.specs.Prelude.{Some};
    ghost use Rattle.judge_job.specs.Standing.{text_of};

    ghost output = { λ r. Some (text_of r) };

    fn fmt<W: fmt::Write>(&self, f: &mut fmt::Formatter<W>) -> fmt::Result {
        write_phasers(f, self)?;
        write_registrations(f, self)?;
        write_turns(f, self)
    }
}

fn write_phasers<W: fmt::Write>(f: &mut fmt::Formatter<W>, report: &Report) -> fmt::Result
    ensures { WritesOnOk W.write_str_gives f.old result (phasers_text report.now) f.new }
{
    write!(
        f,
        "events {}\nphasers made {} there {}\n",
        report.events, report.made, report.there
    )
}

fn write_registrations<W: fmt::Write>(f: &mut fmt::Formatter<W>, report: &Report) -> fmt::Result
    ensures { WritesOnOk W.write_str_gives f.old result (registrations_text report.now) f.new }
{
    write!(
        f,
        "totals registered {} signals {}",
        report.registrations, report.signals
    )
}

fn write_turns<W: fmt::Write>(f: &mut fmt::Formatter<W>, report: &Report) -> fmt::Result
    ensures { WritesOnOk W.write_str_gives f.old result (turns_text report.now) f.new }
{
    write!(
        f,
        " passes {} drops {} sends {}\n",
        report.passes, report.drops, report.sends
    )
}

/// After what the report is told each time while judging goes on. A number of 0 is taken as 1.
#[derive(Clone, Copy, Debug, PartialEq, Eq)]
pub enum Every {
    /// So many events.
    Events(u64),
    /// So many seconds. They are looked at when an event has come, so nothing is told while none comes.
    Seconds(u64),
}

/// When the report is told while judging goes on.
#[derive(Drop)]
pub(crate) struct Telling<'a, C> {
    alloc: Global,
    clock: &'a C,
    pub(crate) every: Option<Every>,
    /// When it was told, at first when judging began; none if the clock couldn't be read.
    last: Option<Instant>,
}

impl<'a, C: Clock> Telling<'a, C> {
    /// Before the first event.
    pub(crate) fn new(alloc: Global, every: Option<Every>, clock: &'a C) -> Telling<'a, C>
        ensures { result.every ≡ every }
    {
        let last = match every {
            Some(Every::Seconds(_)) => Instant::now(clock).ok(),
            _ => None,
        };
        Telling {
            alloc,
            clock,
            every,
            last,
        }
    }

    /// Whether so many seconds have gone by. If the clock can't be read, they haven't.
    fn have_gone_by(&mut self, seconds: u64) -> bool
        ensures { self.new.every ≡ self.old.every }
    {
        let Ok(now) = Instant::now(self.clock) else {
            return false;
        };
        let last = self.last.unwrap_or(now);
        let is_due = Duration::from_secs(seconds) <= now.duration_since(last);
        self.last = Some(if is_due { now } else { last });
        is_due
    }

    /// Whether the report is told after the event with which so many were counted.
    fn is_due(&mut self, count: u64) -> bool
        ensures every { self.new.every ≡ self.old.every }
        ensures due { IsDue self.old.every count result }
    {
        match self.every {
            None => false,
            Some(Every::Events(events)) => count % events.max(1) == 0,
            Some(Every::Seconds(seconds)) => self.have_gone_by(seconds),
        }
    }

    /// After an event. If the report can't be written, judging goes on without it.
    pub(crate) fn event<F: Write>(&mut self, judging: &Judging, writes: &mut Writes, faults: &mut F)
        ensures every { self.new.every ≡ self.old.every }
        ensures told { TellsAfter self.old.every writes.new judging.now.judge.events (F.contents faults.old) (F.contents faults.new) }
        ensures whole { writes.new ≡ true → writes.old ≡ true }
    {
        if self.is_due(judging.events()) {
            let _ = writes.report(self.alloc, &judging.report(), faults);
        }
    }
}
