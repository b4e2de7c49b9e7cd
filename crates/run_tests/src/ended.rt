//! How commands are to end.
use job_ends::Status;

/// How a command is to end: its status, the lines that it writes, and what it reports.
#[derive(Clone, Copy)]
pub(crate) struct Ended<'a> {
    pub(crate) status: Status,
    pub(crate) lines: &'a str,
    pub(crate) faults: &'a str,
}

impl<'a> Ended<'a> {
    /// All was done, and these lines were written.
    pub(crate) fn done(lines: &'a str) -> Ended<'a> {
        Ended {
            status: Status::Done,
            lines,
            faults: "",
        }
    }

    /// It was refused, as this says, and no line was written.
    pub(crate) fn refused(faults: &'a str) -> Ended<'a> {
        Ended {
            status: Status::Refused,
            lines: "",
            faults,
        }
    }
}
