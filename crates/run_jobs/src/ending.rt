//! Why there is no certificate, and the line that reports it.
ghost use Rattle.std.specs.Prelude.{◌≡◌, ◌⊎◌};
ghost use Rattle.job_ends.specs.Ends.{AppendsFront};
ghost use Rattle.run_jobs.specs.Certificate.{Reports, line_of, status_of};

use job_ends::{Ending, Failure, Status, write_text};
use phase_modes::Refusal;
use run_laws::{LuckAt, NoAnswer};
use std::alloc::Global;
use std::io::Write;

/// Why there is no certificate.
#[derive(Clone, Copy, Debug, PartialEq, Eq)]
pub enum NoCertificate {
    /// The job failed, as any other does.
    Failure(Failure),
    /// Luck has a part in the program's run.
    Luck(LuckAt),
}

impl From<Failure> for NoCertificate {
    ghost use Rattle.std.specs.Prelude.{◌≡◌};
    ghost use Rattle.run_jobs.specs.declared.ending.NoCertificate.TheVariants.{Failure};

    ghost from_gives = { λ failure why. why ≡ Failure failure };

    fn from(failure: Failure) -> NoCertificate {
        NoCertificate::Failure(failure)
    }
}

impl From<Refusal> for NoCertificate {
    ghost use Rattle.std.specs.Prelude.{◌≡◌};
    ghost use Rattle.job_ends.specs.declared.failure.Failure.TheVariants.{Refused};
    ghost use Rattle.run_jobs.specs.declared.ending.NoCertificate.TheVariants.{Failure};

    ghost from_gives = { λ refusal why. why ≡ Failure (Refused refusal) };

    fn from(refusal: Refusal) -> NoCertificate {
        NoCertificate::Failure(Failure::Refused(refusal))
    }
}

impl From<NoAnswer> for NoCertificate {
    ghost use Rattle.std.specs.Prelude.{◌≡◌};
    ghost use Rattle.run_jobs.specs.Certificate.{without_answer};

    ghost from_gives = { λ answer why. why ≡ without_answer answer };

    fn from(answer: NoAnswer) -> NoCertificate {
        match answer {
            NoAnswer::Luck(at) => NoCertificate::Luck(at),
            NoAnswer::Memory => NoCertificate::Failure(Failure::Refused(Refusal::Memory)),
        }
    }
}

impl NoCertificate {
    /// Ends the job for this reason, and writes its line: `luck at 12: task 3 refused 14 RegsFull`,
    /// or a failure's. If the line can't be written, the status stays what it is.
    pub fn end<F: Write>(self, alloc: Global, faults: &mut F) -> Ending
        ensures status { result.status ≡ status_of self }
        // Luck whose line gets no memory is reported as want of memory.
        ensures reported { Reports (λ n. (n ≡ self) ⊎ (n ≡ NoCertificate.Failure (Failure.Refused Refusal.Memory)))
            result (F.contents faults.old) (F.contents faults.new) }
    {
        match self {
            NoCertificate::Failure(failure) => failure.end(alloc, faults),
            NoCertificate::Luck(at) => match format!(in alloc; "{at}\n") {
                Ok(line) => refused_with(line.as_str(), faults),
                Err(_) => Failure::Refused(Refusal::Memory).end(alloc, faults),
            },
        }
    }
}

/// The ending of what is refused by this line.
fn refused_with<F: Write>(line: &str, faults: &mut F) -> Ending
    ensures status { result.status ≡ Status.Refused }
    ensures line { AppendsFront result.reported (F.contents faults.old) (F.contents faults.new) line.now }
{
    let reported = write_text(faults, line);
    Ending {
        status: Status::Refused,
        reported,
    }
}
