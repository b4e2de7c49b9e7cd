//! A stencil: eight cells in a ring. In each step a cell sends its value to its own phaser, and becomes the sum
//! of its two neighbours' and its own, below 1,000.
ghost use Rattle.std.specs.Prelude.{◌<◌, ◌≤◌};

use crate::ROOM;
use live_rt::{Act, Answer, Body, Ends, OpenGate, Phased, run_live};
use phase_model::{Bound, Look, Op, Ops};
use phase_modes::{Mode, Pair, Refusal};
use std::alloc::Global;
use std::sync::Wait;
use std::sync::atomic::{AtomicI64, Ordering};
use std::thread::Threads;

/// How many cells there are.
const CELLS: usize = 8;

/// Their first values.
const FIRST: [i64; 8] = [1, 2, 3, 4, 5, 6, 7, 8];

/// All values stay below it.
const MODULUS: i64 = 1_000;

/// What a task does next.
#[derive(Clone, Copy)]
enum Step {
    /// The root makes the phaser of this cell, and after the last starts the cells.
    Makes(usize),
    Starts(usize),
    /// A cell sends its value if so many steps are left, turns, and looks at its neighbours.
    Sends(u32),
    Turns(u32),
    LooksLeft(u32),
    LooksRight(u32),
    Ends,
}

/// A task's program: the phasers of all cells that it knows, and for a cell its place and value.
#[derive(Clone, Copy, Drop)]
struct Cell {
    step: Step,
    steps: u32,
    phasers: [u32; 8],
    place: usize,
    value: i64,
    sum: i64,
}

fn one_sum() -> Ops {
    let mut ops = Ops::none();
    ops.push(Op::Sum);
    ops
}

/// The neighbours of a cell in the ring.
fn left_of(place: usize) -> usize {
    place.wrapping_add(CELLS - 1) % CELLS
}

fn right_of(place: usize) -> usize {
    place.wrapping_add(1) % CELLS
}

impl Cell {
    fn phaser(&self, place: usize) -> u32 {
        self.phasers.get(place).copied().unwrap_or(0)
    }

    /// A cell's own phaser, on which it signals, and its neighbours', for which it waits.
    fn pairs(&self, place: usize) -> Phased {
        let mut pairs = Phased::none();
        pairs.push(Pair {
            phaser: self.phaser(place),
            mode: Mode::SigWait,
        });
        pairs.push(Pair {
            phaser: self.phaser(left_of(place)),
            mode: Mode::Wait,
        });
        pairs.push(Pair {
            phaser: self.phaser(right_of(place)),
            mode: Mode::Wait,
        });
        pairs
    }

    /// Takes in what the last act brought.
    fn hear(&mut self, answer: Answer) {
        match (answer, self.step) {
            (Answer::Made(phaser), Step::Makes(place)) if 0 < place && place <= CELLS => {
                self.phasers[place - 1] = phaser;
            }
            (Answer::Made(phaser), Step::Starts(_)) => self.phasers[CELLS - 1] = phaser,
            (Answer::Saw(Look::Value(value)), _) => self.sum = self.sum.saturating_add(value),
            _ => {}
        }
    }

    /// What it becomes by the sums of a step.
    fn become_sum(&mut self) {
        self.value = self.sum % MODULUS;
        self.sum = self.value;
    }
}

impl Body for Cell {
    fn step(&mut self, answer: Answer) -> Result<Act<Cell>, Refusal> {
        self.hear(answer);
        let (act, next) = match self.step {
            Step::Makes(place) => {
                let after = place.saturating_add(1);
                let next = if after < CELLS {
                    Step::Makes(after)
                } else {
                    Step::Starts(0)
                };
                (Act::New(Mode::SigWait, one_sum(), Bound::of(2)), next)
            }
            Step::Starts(place) if place < CELLS => {
                let value = FIRST[place];
                let cell = Cell {
                    step: Step::Sends(self.steps),
                    place,
                    value,
                    sum: value,
                    ..*self
                };
                let act = Act::Async(cell, self.pairs(place));
                (act, Step::Starts(place.saturating_add(1)))
            }
            Step::Sends(left) => {
                self.become_sum();
                if left > 0 {
                    let phaser = self.phaser(self.place);
                    (
                        Act::Send(phaser, 0, i32::try_from(self.value).unwrap_or(0)),
                        Step::Turns(left - 1),
                    )
                } else {
                    (Act::End, Step::Ends)
                }
            }
            Step::Turns(left) => (Act::Next, Step::LooksLeft(left)),
            Step::LooksLeft(left) => {
                let phaser = self.phaser(left_of(self.place));
                (Act::Look(phaser, 0), Step::LooksRight(left))
            }
            Step::LooksRight(left) => {
                let phaser = self.phaser(right_of(self.place));
                (Act::Look(phaser, 0), Step::Sends(left))
            }
            _ => (Act::End, Step::Ends),
        };
        self.step = next;
        Ok(act)
    }

    fn single(&mut self, _number: u32) {}
}

/// The cells' last values, each at its place.
#[derive(Drop)]
struct Row {
    cells: [AtomicI64; 8],
}

impl Ends<Cell> for Row {
    fn ended(&self, body: Cell, _refused: Option<Refusal>) {
        if let Some(cell) = self.cells.get(body.place) {
            cell.store(body.value, Ordering::SeqCst);
        }
    }
}

/// So many steps of the ring.
pub fn play<R: Threads + Wait + Sync>(
    rt: &R,
    alloc: Global,
    steps: u32,
    workers: u32,
) -> anyhow::Result<String>
    requires { (0 < workers) × (workers ≤ 16) }
{
    let row = Row {
        cells: [
            AtomicI64::new(0),
            AtomicI64::new(0),
            AtomicI64::new(0),
            AtomicI64::new(0),
            AtomicI64::new(0),
            AtomicI64::new(0),
            AtomicI64::new(0),
            AtomicI64::new(0),
        ],
    };
    let root = Cell {
        step: Step::Makes(0),
        steps,
        phasers: [0; 8],
        place: CELLS,
        value: 0,
        sum: 0,
    };
    let _ended = run_live(rt, alloc, root, ROOM, workers, &row, &OpenGate)?;
    let mut text = format!(in alloc; "{steps} steps, cells")?;
    for cell in &row.cells {
        let value = cell.load(Ordering::SeqCst);
        let word = format!(in alloc; " {value}")?;
        text.push_str(word.as_str())?;
    }
    Ok(text)
}
