//! OUT, the file into which a trace is written.
use job_ends::Failure;
use phase_modes::Refusal;
use std::fs::{File, metadata};
use std::io::ErrorKind;
use std::os::unix::fs::MetadataExt;

/// By what the system knows a file, whatever its names are: a device, and the file's number there.
#[derive(Clone, Copy, PartialEq, Eq)]
struct Identity {
    device: u64,
    number: u64,
}

/// What stands under a name, links followed.
#[derive(Clone, Copy)]
enum Found {
    File(Identity),
    /// A folder, a device or a pipe, which nobody can empty.
    Other,
    Nothing,
}

/// What is there under this name. A fault if that can't be told.
fn found_under(rt: &HostRuntime, name: &str) -> Result<Found, Failure> {
    match metadata(rt, name) {
        Ok(found) if found.is_file() => Ok(Found::File(Identity {
            device: found.dev(),
            number: found.ino(),
        })),
        Ok(_) => Ok(Found::Other),
        Err(error) => match error.kind() {
            ErrorKind::OutOfMemory => Err(Failure::Refused(Refusal::Memory)),
            ErrorKind::NotFound | ErrorKind::NotADirectory => Ok(Found::Nothing),
            _ => Err(Failure::Write),
        },
    }
}

/// Whether FILE and OUT are one file, by whatever names.
fn are_one(rt: &HostRuntime, file: &str, out: &str) -> Result<bool, Failure> {
    match (found_under(rt, file)?, found_under(rt, out)?) {
        (Found::File(one), Found::File(other)) => Ok(one == other),
        _ => Ok(false),
    }
}

/// Whether OUT is the file that this stream, as `/dev/stdin`, comes from or goes to. If the system
/// has no such name that can't be told, and a file that is there is taken for it.
fn is_of_stream(rt: &HostRuntime, stream: &str, out: &str) -> Result<bool, Failure> {
    match (found_under(rt, stream)?, found_under(rt, out)?) {
        (Found::Nothing, Found::File(_)) => Ok(true),
        (Found::File(one), Found::File(other)) => Ok(one == other),
        _ => Ok(false),
    }
}

/// Whether OUT is FILE itself; `-` is the file that standard input is read from.
fn is_file_itself(rt: &HostRuntime, file: &str, out: &str) -> Result<bool, Failure> {
    if file == "-" {
        is_of_stream(rt, "/dev/stdin", out)
    } else {
        are_one(rt, file, out)
    }
}

/// Whether OUT is the file that standard output goes to: the report and the trace would overwrite
/// each other there.
pub(crate) fn takes_report(rt: &HostRuntime, out: &str) -> Result<bool, Failure> {
    is_of_stream(rt, "/dev/stdout", out)
}

/// Makes or empties OUT. A fault if that can't be done, and if OUT is FILE, or the file that
/// the report goes to: nothing of the user's is lost.
pub(crate) fn make_out(rt: &HostRuntime, file: &str, out: &str) -> Result<File, Failure> {
    if is_file_itself(rt, file, out)? || takes_report(rt, out)? {
        return Err(Failure::Write);
    }
    match File::create(rt, out) {
        Ok(made) => Ok(made),
        Err(_) => Err(Failure::Write),
    }
}
