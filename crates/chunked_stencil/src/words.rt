//! What the program's words ask for.
ghost use Rattle.std.specs.Prelude.{◌≡◌, ◌≤◌, ◌<◌, IfOk};
ghost use Rattle.std.specs.Range.{range_inclusive_start, range_inclusive_end};

use anyhow::{bail, ensure};
use std::ops::RangeInclusive;

/// What is printed if the words ask for nothing that can be done.
pub const USAGE: &str = "
usage: chunked_stencil WORKERS [CELLS PIECES STEPS [ROUNDS]]
    WORKERS threads, 1 to 16, take a row of CELLS cells, 1 to 1000000, in PIECES pieces of as many
    cells each, 1 to 64, through STEPS steps, 0 to 100000; left out they are 64000, 16 and 200. The
    same is computed by the plain function, and each cell is compared. With ROUNDS, 1 to 1000, the
    threads do it so often, and the shortest time is printed on standard error.
    Status: 0 all cells are equal, 1 they are not, 2 bad words, 3 no memory, no thread, or a write
    failed";

/// What there is to do.
#[derive(Clone, Copy)]
pub struct Job {
    pub workers: usize,
    pub cells: usize,
    /// How many cells a piece has.
    pub size: usize,
    pub pieces: usize,
    pub steps: u32,
    /// How often it is done, if its time is asked for.
    pub rounds: Option<u32>,
    ghost some_workers: { 0 < workers },
    ghost some_size: { 0 < size },
}

/// The number that the word is. An error if it is none of the range.
fn number(name: &str, word: &str, range: RangeInclusive<u32>) -> anyhow::Result<u32>
    ensures { IfOk result (λ n. (range_inclusive_start range ≤ n) × (n ≤ range_inclusive_end range)) }
{
    let (least, most) = range.into_inner();
    match word.parse::<u32>() {
        Ok(number) if least <= number && number <= most => Ok(number),
        _ => bail!("{name} is a number from {least} to {most}, and not {word}"),
    }
}

/// The job of these words, which come behind the program's name.
pub fn job_of(words: &[&str]) -> anyhow::Result<Job> {
    let (workers, cells, pieces, steps, rounds) = match words {
        [workers] => (*workers, "64000", "16", "200", None),
        [workers, cells, pieces, steps] => (*workers, *cells, *pieces, *steps, None),
        [workers, cells, pieces, steps, rounds] => (
            *workers,
            *cells,
            *pieces,
            *steps,
            Some(*rounds),
        ),
        _ => bail!("there are {} words", words.len()),
    };
    let workers = number("WORKERS", workers, 1..=16)?;
    let cells = number("CELLS", cells, 1..=1_000_000)?;
    let pieces = number("PIECES", pieces, 1..=64)?;
    let steps = number("STEPS", steps, 0..=100_000)?;
    let size = cells / pieces;
    ensure!(
        size > 0 && cells % pieces == 0,
        "{cells} cells make no {pieces} pieces of as many each"
    );
    let rounds = match rounds {
        Some(rounds) => Some(number("ROUNDS", rounds, 1..=1_000)?),
        None => None,
    };
    Ok(Job {
        workers: workers as usize,
        cells: cells as usize,
        size: size as usize,
        pieces: pieces as usize,
        steps,
        rounds,
    })
}
