//! A program's text, within the most bytes that it may have.
ghost use Rattle.std.specs.Prelude.{◌≡◌, length, nat_le};
ghost use Rattle.job_script.specs.Reading.{Gives};
ghost use Rattle.text_jobs.specs.Texts.{program_spelled};

use job_script::{Program, read_program};
use phase_modes::Refusal;
use std::alloc::Global;

/// How many bytes a program's text has at most.
pub const MOST_PROGRAM_BYTES: usize = 1_048_576;

/// Whether there are no more bytes than a program's text may have.
fn fits(input: &[u8]) -> bool
    ensures { result ≡ nat_le (length input.now) MOST_PROGRAM_BYTES }
{
    input.len() <= MOST_PROGRAM_BYTES
}

/// The program that the bytes spell. A text is refused at its first fault, and more than 1,048,576
/// bytes at place 0.
pub fn program_of(alloc: Global, input: &[u8]) -> Result<Program, Refusal>
    ensures { Gives (λ p. p) result (program_spelled input.now) }
{
    if !fits(input) {
        return Err(Refusal::BadText(0));
    }
    read_program(alloc, input)
}
