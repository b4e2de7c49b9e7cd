//! The stencil as tasks: one for each cell, which has a phaser of its own and looks at those of its
//! neighbours.
ghost use Rattle.std.specs.Prelude.{◌≡◌, ◌≤◌, ◌<◌, length, Ok, IfErr};
ghost use Rattle.job_kernels.specs.StencilTasks.{cell_held, right_of, left_of, sends, turns, looks_left, looks_right, weighs, cell_next, cell_task, phasers_of, root_next, root_task, stencil_next};

use crate::heard::{operator, pair, value_of};
use crate::stencil::{cell_at, weighed};
use job_script::{Act, Answer};
use phase_model::Op;
use phase_modes::{Mode, Phased, Refusal};
use tasks_in_flight::Body;
use trace_walk::Goes;

/// The most that a cell holds.
const GREATEST: u32 = 1_000_000;

/// The root: it makes a phaser for each cell, then spawns a task for each, and ends.
#[derive(Clone, Copy)]
struct Root {
    first: [u32; 16],
    cells: u32,
    steps: u32,
    made: u32,
    spawned: u32,
}

/// What the task of a cell does next.
#[derive(Clone, Copy)]
enum Moment {
    /// It sends its value.
    Sends,
    /// It ends its turn, or ends if no step is left.
    Turns,
    /// It looks at the cell on its left, if there is one.
    LooksLeft,
    /// It hears what is on its left, and looks at the cell on its right, if there is one.
    LooksRight,
    /// It hears what is on its right, weighs, and sends its value.
    Weighs,
}

/// The task of a cell.
#[derive(Clone, Copy)]
struct Cell {
    place: u32,
    cells: u32,
    steps: u32,
    value: u32,
    left: u32,
    moment: Moment,
}

/// A task of the stencil.
#[derive(Clone, Copy)]
pub struct StencilBody {
    role: Role,
}

/// Which task it is.
#[derive(Clone, Copy)]
enum Role {
    Root(Root),
    Cell(Cell),
}

impl Root {
    /// The next act.
    fn next(&mut self) -> Act<StencilBody>
        ensures does { result ≡ (root_next self.old).0 }
        ensures is { self.new ≡ (root_next self.old).1 }
    {
        if self.made < self.cells {
            self.made += 1;
            return Act::New(Mode::SigWait, operator(Op::Sum), None);
        }
        let place = self.spawned;
        if place < self.cells {
            self.spawned += 1;
            return Act::Async(self.cell(place), self.phasers(place));
        }
        Act::End
    }

    /// The task of the cell at this place.
    fn cell(&self, place: u32) -> StencilBody
        ensures { result ≡ cell_task self.now.first self.now.cells self.now.steps place }
    {
        let value = cell_at(&self.first, place as usize);
        StencilBody {
            role: Role::Cell(Cell {
                place,
                cells: self.cells,
                steps: self.steps,
                value: value.min(GREATEST),
                left: 0,
                moment: Moment::Sends,
            }),
        }
    }

    /// The phasers of the task of the cell at this place: its own, and those of its neighbours, on
    /// which it only waits.
    fn phasers(&self, place: u32) -> Phased
        requires { place < self.now.cells }
        ensures { result ≡ phasers_of self.now.cells place }
    {
        let mut phasers = Phased::none();
        phasers.push(pair(place, Mode::SigWait));
        if place > 0 {
            phasers.push(pair(place - 1, Mode::Wait));
        }
        if self.cells - place > 1 {
            phasers.push(pair(place + 1, Mode::Wait));
        }
        phasers
    }
}

impl Cell {
    /// The next act, after the answer to the one before.
    fn next(&mut self, answer: Answer) -> Act<StencilBody>
        ensures does { result ≡ (cell_next answer self.old).0 }
        ensures is { self.new ≡ (cell_next answer self.old).1 }
    {
        match self.moment {
            Moment::Sends => self.send(),
            Moment::Turns => self.turn(),
            Moment::LooksLeft => self.look_left(),
            Moment::LooksRight => {
                self.left = value_of(answer, GREATEST);
                self.look_right()
            }
            Moment::Weighs => self.weigh(value_of(answer, GREATEST)),
        }
    }

    /// It sends its value.
    fn send(&mut self) -> Act<StencilBody>
        ensures does { result ≡ (sends self.old).0 }
        ensures is { self.new ≡ (sends self.old).1 }
    {
        self.moment = Moment::Turns;
        Act::Send(self.place, 0, self.value.min(GREATEST) as i32)
    }

    /// It ends its turn; if no step is left, it ends.
    fn turn(&mut self) -> Act<StencilBody>
        ensures does { result ≡ (turns self.old.steps self.old).0 }
        ensures is { self.new ≡ (turns self.old.steps self.old).1 }
    {
        if self.steps == 0 {
            return Act::End;
        }
        self.steps -= 1;
        self.moment = Moment::LooksLeft;
        Act::Next
    }

    /// It looks at the cell on its left, if there is one.
    fn look_left(&mut self) -> Act<StencilBody>
        ensures does { result ≡ (looks_left (left_of self.old.place) self.old).0 }
        ensures is { self.new ≡ (looks_left (left_of self.old.place) self.old).1 }
    {
        if self.place == 0 {
            self.left = 0;
            return self.look_right();
        }
        self.moment = Moment::LooksRight;
        Act::Look(self.place - 1, 0)
    }

    /// It looks at the cell on its right, if there is one.
    fn look_right(&mut self) -> Act<StencilBody>
        ensures does { result ≡ (looks_right (right_of self.old.cells self.old.place) self.old).0 }
        ensures is { self.new ≡ (looks_right (right_of self.old.cells self.old.place) self.old).1 }
    {
        let right = u64::from(self.place) + 1;
        if right < u64::from(self.cells) {
            self.moment = Moment::Weighs;
            return Act::Look(right as u32, 0);
        }
        self.weigh(0)
    }

    /// It weighs its value with those on both sides, and sends it.
    fn weigh(&mut self, right: u32) -> Act<StencilBody>
        ensures does { result ≡ (weighs right self.old).0 }
        ensures is { self.new ≡ (weighs right self.old).1 }
    {
        self.value = weighed(self.left, self.value, right);
        self.send()
    }
}

impl StencilBody {
    /// The root of a stencil over these cells, of which each is at most 1,000,000, that goes so many
    /// steps.
    pub fn root(cells: &[u32], steps: u32) -> StencilBody
        requires few { length cells.now ≤ 16 }
        ensures { result ≡ root_task cells.now steps }
    {
        let mut first = [0; 16];
        first[..cells.len()].copy_from_slice(cells);
        StencilBody {
            role: Role::Root(Root {
                first,
                cells: cells.len() as u32,
                steps,
                made: 0,
                spawned: 0,
            }),
        }
    }
}

/// A cell of the row.
#[derive(Clone, Copy, Debug, PartialEq, Eq)]
pub struct StencilCell {
    pub place: u32,
    pub value: u32,
}

impl StencilBody {
    /// The cell of its task, as it is by now; none of the root.
    pub fn cell(&self) -> Option<StencilCell>
        ensures { result ≡ cell_held self.now }
    {
        match self.role {
            Role::Cell(Cell { place, value, .. }) => Some(StencilCell { place, value }),
            Role::Root(_) => None,
        }
    }
}

impl Body for StencilBody {
    fn step(&mut self, answer: Answer) -> Result<Act<StencilBody>, Refusal>
        ensures memory { IfErr result (λ e. e ≡ Refusal.Memory) }
        ensures does { result ≡ Ok (stencil_next answer self.old).0 }
        ensures is { self.new ≡ (stencil_next answer self.old).1 }
    {
        Ok(match &mut self.role {
            Role::Root(root) => root.next(),
            Role::Cell(cell) => cell.next(answer),
        })
    }

    /// There is none.
    fn single(&mut self, _number: u32)
        ensures { self.new ≡ self.old }
    {}
}

impl Goes for StencilBody {
    ghost next = { stencil_next };

    fn go(&mut self, heard: Answer) -> Act<StencilBody> {
        let Ok(act) = self.step(heard) else {
            unreachable!()
        };
        act
    }
}
