//! Prints the result of a kernel's run, or why there is none.
ghost use Rattle.std.specs.Prelude.{◌≡◌, ◌≢◌, ◌⊎◌, ◌++◌, Ok, Err, None, IfOk, IfErr, IfSome, OnOk, flat_map, codes};
ghost use Rattle.std.specs.Io.KnownBytes.{Appends, Keeps};
ghost use Rattle.std.specs.String.{string_bytes};
ghost use Rattle.world_model.specs.Report.{Report};
ghost use Rattle.world_model.specs.ReportLines.{totals_row};
ghost use Rattle.job_kernels.specs.Results.{refusal_of};
ghost use Rattle.job_ends.specs.Ends.{status_of, ReportsStatus};
ghost use Rattle.run_jobs.specs.Printed.{word_of, values_of, value_text, kernel_text, IsOfReport, IsOfEnd};

use job_ends::{Failure, Status, put_text};
use job_kernels::{cells_of, items_of, refusal_of};
use phase_modes::Refusal;
use std::alloc::Global;
use std::io::Write;
use world_model::{TotalsLine, WorldReport};

/// Which kernel was run.
#[derive(Clone, Copy, Debug, PartialEq, Eq)]
pub enum Kernel {
    /// A stencil of so many steps.
    Stencil(u32),
    /// A pipeline of so many stages.
    Pipeline(u32),
}

impl Kernel {
    /// The word before the values.
    pub(crate) fn word(self) -> &'static str
        ensures { result.now ≡ word_of self }
    {
        match self {
            Kernel::Stencil(_) => "cells",
            Kernel::Pipeline(_) => "items",
        }
    }

    /// What the run gave.
    fn values(self, alloc: Global, report: &WorldReport) -> Result<Vec<i64>, Refusal>
        ensures values { IfOk result (λ v. v.items ≡ values_of self report.now) }
        ensures memory { IfErr result (λ e. e ≡ Refusal.Memory) }
    {
        match self {
            Kernel::Stencil(steps) => cells_of(alloc, report, steps),
            Kernel::Pipeline(stages) => items_of(alloc, report, stages),
        }
    }
}

/// Adds a text.
pub(crate) fn push_text(text: &mut String, more: &str) -> Result<(), Refusal>
    ensures text { OnOk result (string_bytes text.new ≡ string_bytes text.old ++ more.now) }
    ensures memory { IfErr result (λ e. e ≡ Refusal.Memory) }
{
    match text.push_str(more) {
        Ok(()) => Ok(()),
        Err(_) => Err(Refusal::Memory),
    }
}

/// Adds a value, after a blank.
fn push_value(alloc: Global, text: &mut String, value: i64) -> Result<(), Refusal>
    ensures text { OnOk result (string_bytes text.new ≡ string_bytes text.old ++ value_text value) }
    ensures memory { IfErr result (λ e. e ≡ Refusal.Memory) }
{
    match format!(in alloc; " {value}") {
        Ok(more) => push_text(text, more.as_str()),
        Err(_) => Err(Refusal::Memory),
    }
}

/// Adds the values, each after a blank.
pub(crate) fn push_values(alloc: Global, text: &mut String, values: &[i64]) -> Result<(), Refusal>
    ensures text { OnOk result (string_bytes text.new ≡ string_bytes text.old ++ flat_map value_text values.now) }
    ensures memory { IfErr result (λ e. e ≡ Refusal.Memory) }
{
    for value in values {
        push_value(alloc, text, *value)?;
    }
    Ok(())
}

/// Ends the line, and adds that of the totals.
fn push_totals(alloc: Global, text: &mut String, totals: &TotalsLine) -> Result<(), Refusal>
    ensures text { OnOk result (string_bytes text.new ≡ string_bytes text.old ++ (codes "\n" ++ totals_row totals.now)) }
    ensures memory { IfErr result (λ e. e ≡ Refusal.Memory) }
{
    match format!(in alloc; "\n{totals}\n") {
        Ok(more) => push_text(text, more.as_str()),
        Err(_) => Err(Refusal::Memory),
    }
}

/// The lines of a report.
fn lines_of(alloc: Global, kernel: Kernel, report: &WorldReport) -> Result<String, Refusal>
    ensures lines { IfOk result (λ text. string_bytes text ≡ kernel_text kernel report.now) }
    ensures memory { IfErr result (λ e. e ≡ Refusal.Memory) }
{
    let values = kernel.values(alloc, report)?;
    let mut text = String::new(alloc);
    push_text(&mut text, kernel.word())?;
    push_values(alloc, &mut text, &values)?;
    push_totals(alloc, &mut text, &report.totals)?;
    Ok(text)
}

/// Prints what the run gave: `cells 11 30`, or `items 4 5 6`, and the totals. Nothing is written
/// before the whole text is there, and nothing if a task was refused.
pub fn print_report<W: Write>(
    alloc: Global,
    kernel: Kernel,
    report: &WorldReport,
    out: &mut W,
) -> Result<(), Failure>
    ensures done { OnOk result (Appends (W.contents out.old) (W.contents out.new) (kernel_text kernel report.now)) }
    // A task that was refused is told first.
    ensures task { IfSome (refusal_of report.now) (λ refusal. result ≡ Err (Failure.Refused refusal)) }
    ensures refused { IfErr result (λ f. status_of f ≡ Status.Refused → Keeps (W.contents out.old) (W.contents out.new)) }
    ensures failure { IfErr result (IsOfReport report.now) }
{
    if let Some(refusal) = refusal_of(report) {
        return Err(Failure::Refused(refusal));
    }
    let lines = lines_of(alloc, kernel, report)?;
    put_text(out, lines.as_str())
}

/// Ends the command whose run gave this. The line of a failure goes to `faults`; if it can't be
/// written, the status stays what it is.
pub fn end_kernel<W: Write, F: Write>(
    alloc: Global,
    kernel: Kernel,
    ran: Result<WorldReport, Refusal>,
    out: &mut W,
    faults: &mut F,
) -> Status
    ensures done { result ≡ Status.Done → (r : Report) × (ran ≡ Ok r) × (refusal_of r ≡ None)
        × Appends (W.contents out.old) (W.contents out.new) (kernel_text kernel r) }
    ensures quiet { result ≡ Status.Done → Keeps (F.contents faults.old) (F.contents faults.new) }
    ensures refused { result ≡ Status.Refused → Keeps (W.contents out.old) (W.contents out.new) }
    // What is reported is the line of a failure of this run with this status, or that of want of memory.
    ensures reported { result ≢ Status.Done → ReportsStatus (IsOfEnd ran) result
        (F.contents faults.old) (F.contents faults.new) }
    ensures usage { result ≢ Status.Usage }
{
    let report = match ran {
        Ok(report) => report,
        Err(refusal) => return Failure::Refused(refusal).end(alloc, faults).status,
    };
    match print_report(alloc, kernel, &report, out) {
        Ok(()) => Status::Done,
        Err(failure) => failure.end(alloc, faults).status,
    }
}
