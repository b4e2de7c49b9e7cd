//! What was written of all that was to be written.
ghost use Rattle.std.specs.Prelude.{◌≡◌, true, OnOk, IfErr};
ghost use Rattle.std.specs.Io.KnownBytes.{Appends};
ghost use Rattle.job_ends.specs.Ends.{AppendsFront};
ghost use Rattle.judge_job.specs.Standing.{text_of, IsOfReport};

use crate::report::Report;
use job_ends::{Failure, write_text};
use phase_modes::Refusal;
use std::alloc::Global;
use std::io::Write;
use std::marker::Model;

/// The writes that were made. Contracts see whether each text was written whole: one isn't if a write
/// failed, or if there was no memory to form it.
#[derive(Drop)]
pub struct Writes {
    whole: bool,
}

impl Model for Writes {
    ghost use Rattle.std.specs.Prelude.{Bool};

    ghost Value = { Bool };

    ghost view = { λ w. w.whole };
}

impl Writes {
    /// No write.
    pub fn none() -> Writes
        ensures { result ≡ true }
    {
        Writes { whole: true }
    }

    /// Writes the text. Returns whether all was written.
    pub(crate) fn put<W: Write>(&mut self, text: &str, out: &mut W) -> bool
        ensures front { AppendsFront self.new (W.contents out.old) (W.contents out.new) text.now }
        ensures done { result ≡ true → Appends (W.contents out.old) (W.contents out.new) text.now }
        ensures before { self.new ≡ true → self.old ≡ true }
    {
        let written = write_text(out, text);
        self.whole = self.whole && written;
        written
    }

    /// Writes the lines of the report, and flushes. Nothing is written before they are there.
    pub(crate) fn report<W: Write>(
        &mut self,
        alloc: Global,
        report: &Report,
        out: &mut W,
    ) -> Result<(), Failure>
        ensures front { AppendsFront self.new (W.contents out.old) (W.contents out.new) (text_of report.now) }
        ensures done { OnOk result (Appends (W.contents out.old) (W.contents out.new) (text_of report.now)) }
        ensures failure { IfErr result IsOfReport }
        ensures before { self.new ≡ true → self.old ≡ true }
    {
        let Ok(text) = report.to_string(alloc) else {
            self.whole = false;
            return Err(Failure::Refused(Refusal::Memory));
        };
        if self.put(text.as_str(), out) && out.flush().is_ok() {
            Ok(())
        } else {
            Err(Failure::Write)
        }
    }
}
