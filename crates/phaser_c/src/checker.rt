//! The checker: a trace's text is replayed, and an events file is answered.
ghost use Rattle.std.specs.Prelude.{◌≡◌};
ghost use Rattle.phaser_c.specs.Checked.{without_write, IsEnd, IsReplayed, IsAnswered, IsHanded, if_told};
ghost use Rattle.phaser_c.specs.Told.{IsTold};
ghost use Rattle.phaser_c.specs.declared.checker.Checked.{Checked as Outcome};

use crate::answer::ExportAnswer;
use crate::room::tell;
use job_ends::Failure;
use phase_modes::Refusal;
use std::alloc::Global;
use text_jobs::{answer, replay_bytes};

/// What checking a text gave.
#[derive(Drop)]
enum Checked {
    /// The lines.
    Done(Vec<u8>),
    /// The line of the refusal.
    Refused(Vec<u8>),
    /// There is no memory for the line of a refusal.
    Lacking,
}

/// The failure of lines that are written to a list of bytes, which takes every write but for want
/// of memory.
fn without_write(failure: Failure) -> Failure
    ensures { result ≡ without_write failure }
{
    match failure {
        Failure::Write => Failure::Refused(Refusal::Memory),
        other => other,
    }
}

/// What a check gave that wrote these lines, or failed.
fn end(alloc: Global, lines: Vec<u8>, outcome: Result<(), Failure>) -> Checked
    ensures { IsEnd lines.items outcome result }
{
    match outcome {
        Ok(()) => Checked::Done(lines),
        Err(failure) => {
            let mut line = Vec::new(alloc);
            if without_write(failure).end(alloc, &mut line).reported {
                Checked::Refused(line)
            } else {
                Checked::Lacking
            }
        }
    }
}

/// Replays a trace's text.
#[tactic(auto, using(crate::proofs::Refusals::replay_refused))]
fn replayed(alloc: Global, trace: &[u8]) -> Checked
    ensures { IsReplayed trace.now result }
{
    let mut lines = Vec::new(alloc);
    let outcome = replay_bytes(alloc, trace, &mut lines, &mut None::<Vec<u8>>);
    end(alloc, lines, outcome)
}

/// Answers an events file.
#[tactic(auto, using(crate::proofs::Refusals::answer_refused))]
fn answered(alloc: Global, file: &[u8]) -> Checked
    ensures { IsAnswered file.now result }
{
    let mut lines = Vec::new(alloc);
    let outcome = answer(alloc, file, &mut lines);
    end(alloc, lines, outcome)
}

/// Writes the text to the room. The number, if the room is large enough.
fn give(text: &[u8], number: u32, room: &mut [u8], written: &mut usize) -> u32
    ensures told { IsTold text.now room.old room.new written.new }
    ensures number { result ≡ if_told text.now room.old number }
{
    if tell(text, room, written) {
        number
    } else {
        ExportAnswer::Short.number()
    }
}

/// Writes what a check gave to the room. The number that answers the check.
fn hand(ended: &Checked, room: &mut [u8], written: &mut usize) -> u32
    ensures { IsHanded ended.now room.old room.new written.new result }
{
    match ended {
        Checked::Done(text) => give(text.as_slice(), 0, room, written),
        Checked::Refused(text) => give(text.as_slice(), 1, room, written),
        Checked::Lacking => give("refused 23 Memory\n".as_bytes(), 1, room, written),
    }
}

/// `text_jobs::replay_bytes`, whose report, or the line of whose failure, is written to the room.
#[unsafe(no_mangle)]
pub extern "C" fn phaser_c_replay(
    alloc: Global,
    trace: &[u8],
    report: &mut [u8],
    written: &mut usize,
) -> u32
    ensures { (c : Outcome) × IsReplayed trace.now c × IsHanded c report.old report.new written.new result }
{
    hand(&replayed(alloc, trace), report, written)
}

/// `text_jobs::answer`, whose lines, or the line of whose failure, are written to the room.
#[unsafe(no_mangle)]
pub extern "C" fn phaser_c_events(
    alloc: Global,
    file: &[u8],
    lines: &mut [u8],
    written: &mut usize,
) -> u32
    ensures { (c : Outcome) × IsAnswered file.now c × IsHanded c lines.old lines.new written.new result }
{
    hand(&answered(alloc, file), lines, written)
}
