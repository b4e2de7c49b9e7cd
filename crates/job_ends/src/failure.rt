//! Why a job was not done, the line that reports it, and the exit statuses.
ghost use Rattle.std.specs.Prelude.{◌≡◌, ◌⊎◌};
ghost use Rattle.job_ends.specs.Ends.{AppendsFront, Reports, code_of, status_of};

use crate::output::write_text;
use phase_modes::Refusal;
use std::alloc::Global;
use std::io::Write;

/// How the program ends.
#[derive(Clone, Copy, Debug, PartialEq, Eq)]
pub enum Status {
    /// All was done. Refused calls are among what was done.
    Done,
    /// The text was refused, or memory ran out.
    Refused,
    /// The arguments were bad, or asked for help or the version.
    Usage,
    /// A read or a write failed.
    Fault,
}

impl Status {
    /// The exit status of the process, 0 to 3.
    pub fn code(self) -> u8
        ensures { result ≡ code_of self }
    {
        match self {
            Status::Done => 0,
            Status::Refused => 1,
            Status::Usage => 2,
            Status::Fault => 3,
        }
    }
}

/// How a job ended.
#[derive(Clone, Copy, Debug, PartialEq, Eq)]
pub struct Ending {
    /// How the program ends.
    pub status: Status,
    /// Whether the line of a failure was written whole.
    pub reported: bool,
}

/// Why a job was not done.
#[derive(Clone, Copy, Debug, PartialEq, Eq)]
pub enum Failure {
    /// The text was refused, or memory ran out.
    Refused(Refusal),
    /// The file couldn't be opened, or a read failed.
    Read,
    /// A write failed.
    Write,
}

impl From<Refusal> for Failure {
    ghost use Rattle.std.specs.Prelude.{◌≡◌};
    ghost use Rattle.job_ends.specs.declared.failure.Failure.TheVariants.{Refused};

    ghost from_gives = { λ refusal failure. failure ≡ Refused refusal };

    fn from(refusal: Refusal) -> Failure {
        Failure::Refused(refusal)
    }
}

impl Failure {
    /// Ends the job with this failure, and writes its line: `refused 24 BadText at 2`,
    /// `fault read`, `fault write`. If the line can't be written, the status stays what it is.
    pub fn end<F: Write>(self, alloc: Global, faults: &mut F) -> Ending
        ensures status { result.status ≡ status_of self }
        // A refusal whose line gets no memory is reported as want of memory.
        ensures reported { Reports (λ f. (f ≡ self) ⊎ (f ≡ Failure.Refused Refusal.Memory)) result
            (F.contents faults.old) (F.contents faults.new) }
    {
        match self {
            Failure::Refused(refusal) => match format!(in alloc; "{refusal}\n") {
                Ok(line) => report(Status::Refused, line.as_str(), faults),
                Err(_) => report(Status::Refused, "refused 23 Memory\n", faults),
            },
            Failure::Read => report(Status::Fault, "fault read\n", faults),
            Failure::Write => report(Status::Fault, "fault write\n", faults),
        }
    }
}

/// The ending with this status, whose line this is.
fn report<F: Write>(status: Status, line: &str, faults: &mut F) -> Ending
    ensures status { result.status ≡ status }
    ensures line { AppendsFront result.reported (F.contents faults.old) (F.contents faults.new) line.now }
{
    let reported = write_text(faults, line);
    Ending { status, reported }
}
