//! The lines of a reader, one after the other.
ghost use Rattle.std.specs.Prelude.{◌≡◌, ◌≢◌, ◌<◌, ◌≤◌, ◌-◌, ◌⊎◌, length, take, All, OnSome, IfErr, IfSome, Ok, true, false};
ghost use Rattle.std.specs.Io.KnownBytes.{Consumes, IsAtEnd};
ghost use Rattle.std.specs.Io.{StartsWith, StopsAt, IsEmptyOrEndsWith, appended_bytes};
ghost use Rattle.judge_job.specs.Lines.{IsOfTaking, TakesLine, IsOfLongLine};

use crate::line::MOST_LINE_BYTES;
use job_ends::Failure;
use phase_modes::Refusal;
use std::io::{BufRead, Error, ErrorKind};

/// What ends a line.
const NEWLINE: u8 = b'\n';

/// How many parts of a line are read at most.
const MOST_PARTS: u32 = 100_000_000;

/// The length up to and including the first newline, or the whole length.
fn len_through(bytes: &[u8]) -> usize
    ensures bound { result ≤ length bytes.now }
    ensures some { 0 < length bytes.now → 0 < result }
    ensures before { All (λ x. x ≢ 10) (take (result - 1) bytes.now) }
{
    let mut i = 0;
    while i < bytes.len() {
        if bytes[i] == NEWLINE {
            return i + 1;
        }
        i += 1;
    }
    i
}

/// Appends what the reader has at hand, up to and including the first newline. Returns whether it
/// met a newline or the end of the input.
fn append_through<B: BufRead>(reader: &mut B, line: &mut Vec<u8>) -> Result<bool, Failure>
    ensures appends { StartsWith line.new.items line.old.items }
    ensures stops { StopsAt (appended_bytes line.old.items line.new.items) 10 }
    ensures bytes { Consumes (B.remaining reader.old) (B.remaining reader.new)
        (appended_bytes line.old.items line.new.items) }
    ensures end { result ≡ Ok true → length (appended_bytes line.old.items line.new.items) ≡ 0
        → OnSome (B.remaining reader.old) (IsAtEnd (B.remaining reader.new)) }
    ensures no_newline_unless_done { result ≢ Ok true
        → All (λ x. x ≢ 10) (appended_bytes line.old.items line.new.items) }
    ensures done_at_newline_or_end { result ≡ Ok true
        → IsEmptyOrEndsWith (appended_bytes line.old.items line.new.items) 10 }
    ensures failure { IfErr result IsOfTaking }
{
    let available = match reader.fill_buf() {
        Ok(available) => available,
        Err(error) => {
            return if error.kind() == ErrorKind::Interrupted {
                Ok(false)
            } else {
                Err(Failure::Read)
            };
        }
    };
    let end = len_through(available);
    if line.extend_from_slice(&available[..end]).is_err() {
        return Err(Failure::Refused(Refusal::Memory));
    }
    let is_done = end == 0 || available[end - 1] == NEWLINE;
    reader.consume(end);
    Ok(is_done)
}

/// Takes the next line with its newline, if it has one, in place of what `line` held. If it then is empty,
/// no line is left. Returns whether the line is whole: one that has more bytes than a line may have
/// needn't be.
pub(crate) fn take_line<B: BufRead>(reader: &mut B, line: &mut Vec<u8>) -> Result<bool, Failure>
    ensures whole { result ≡ Ok true → TakesLine (B.remaining reader.old) (B.remaining reader.new) line.new.items }
    ensures cut { result ≡ Ok false → IfSome (B.remaining reader.old) (IsOfLongLine MOST_LINE_BYTES) }
    ensures failure { IfErr result IsOfTaking }
{
    line.clear();
    for _ in 0..MOST_PARTS {
        if append_through(reader, line)? {
            return Ok(true);
        }
        if line.len() > MOST_LINE_BYTES + 1 {
            return Ok(false);
        }
    }
    Err(Failure::Read)
}
