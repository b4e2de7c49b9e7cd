//! The slot of a task.
ghost use Rattle.std.specs.Prelude.{◌≡◌, ◌<◌, ◌+◌, ◌&&◌, ◌∷◌, ◌==◌, [], true, false, OnOk, OnErr, IfErr, Ok, Err};
ghost use Rattle.phase_modes.specs.Lists.{is_empty};
ghost use Rattle.live_world.specs.Live.{blank_task, is_free, inner_at};

use crate::at::FinishAt;
use crate::course::Course;
use phase_modes::Refusal;
use std::alloc::Global;
use std::marker::Model;

/// How many acts a task may begin.
pub(crate) const MOST_ACTS: u64 = 1 << 62;

/// The slot of a task. Contracts see a `TaskLine`.
#[derive(Drop)]
pub(crate) struct TaskRow {
    number: u64,
    taken: bool,
    parked: bool,
    course: Course,
    /// Its own open finishes, the innermost last.
    finishes: Vec<FinishAt>,
    home: FinishAt,
    acts: u64,
    /// The slot that is free after this one, if this one is free.
    next_free: u32,
}

impl Model for TaskRow {
    ghost use Rattle.std.specs.Prelude.{reverse};
    ghost use Rattle.live_world.specs.Live.{TaskLine};

    ghost Value = { TaskLine };

    ghost view = { λ r. record {
      number = r.number;
      taken = r.taken;
      parked = r.parked;
      course = r.course;
      finishes = reverse r.finishes.items;
      home = r.home;
      acts = r.acts;
    } };
}

impl TaskRow {
    /// A slot that nobody ever took.
    pub(crate) fn blank(alloc: Global) -> TaskRow
        ensures { result ≡ blank_task }
    {
        TaskRow {
            number: 0,
            taken: false,
            parked: false,
            course: Course::Idle,
            finishes: Vec::new(alloc),
            home: FinishAt { slot: 0, number: 0 },
            acts: 0,
            next_free: 0,
        }
    }

    /// A task that was just born.
    pub(crate) fn born(alloc: Global, number: u64, home: FinishAt) -> TaskRow
        ensures { result ≡ record blank_task { number = number; taken = true; home = home } }
    {
        TaskRow {
            number,
            taken: true,
            parked: false,
            course: Course::Idle,
            finishes: Vec::new(alloc),
            home,
            acts: 0,
            next_free: 0,
        }
    }

    /// Whether a task is there.
    pub(crate) fn is_taken(&self) -> bool
        ensures { result ≡ self.now.taken }
    {
        self.taken
    }

    /// Whether the task of this number is there.
    pub(crate) fn has(&self, number: u64) -> bool
        ensures { result ≡ (self.now.taken && self.now.number == number) }
    {
        self.taken && self.number == number
    }

    /// Whether it may begin an act, if there are acts left.
    pub(crate) fn is_free(&self) -> bool
        ensures { result ≡ is_free self.now }
    {
        matches!(self.course, Course::Idle) && !self.parked
    }

    /// How many acts it has begun.
    pub(crate) fn acts(&self) -> u64
        ensures { result ≡ self.now.acts }
    {
        self.acts
    }

    /// Its innermost finish.
    pub(crate) fn inner(&self) -> FinishAt
        ensures { result ≡ inner_at self.now }
    {
        self.finishes.last().copied().unwrap_or(self.home)
    }

    /// Notes that it opened this finish, by an act of one event. `Memory` if there is none to keep
    /// it, and then it stays as it was.
    pub(crate) fn note_opening(&mut self, finish: FinishAt) -> Result<(), Refusal>
        requires { self.old.acts < 4611686018427387904 }
        ensures opened { OnOk result (self.new
            ≡ record self.old { finishes = finish ∷ self.old.finishes; acts = self.old.acts + 1 }) }
        ensures stays { OnErr result (self.new ≡ self.old) }
        ensures memory { IfErr result (λ r. r ≡ Refusal.Memory) }
    {
        if self.finishes.push(finish).is_err() {
            return Err(Refusal::Memory);
        }
        self.acts += 1;
        Ok(())
    }

    /// Notes that it began an act that is over.
    pub(crate) fn note_act(&mut self)
        requires { self.old.acts < 4611686018427387904 }
        ensures { self.new ≡ record self.old { acts = self.old.acts + 1 } }
    {
        self.acts += 1;
    }

    /// Whether it has no finish of its own open.
    pub(crate) fn has_shut_all(&self) -> bool
        ensures { result ≡ is_empty self.now.finishes }
    {
        self.finishes.is_empty()
    }

    /// The finish in which it was spawned.
    pub(crate) fn home(&self) -> FinishAt
        ensures { result ≡ self.now.home }
    {
        self.home
    }

    /// Notes that it need not wait any more.
    pub(crate) fn unpark(&mut self)
        ensures { self.new ≡ record self.old { parked = false } }
    {
        self.parked = false;
    }

    /// Notes that it has ended: its slot is free, and the slot `next` after it.
    pub(crate) fn leave(&mut self, next: u32)
        ensures { self.new ≡ record self.old { taken = false } }
    {
        self.taken = false;
        self.next_free = next;
    }

    /// The slot that is free after this one, if this one is free.
    pub(crate) fn next_free(&self) -> u32 {
        self.next_free
    }
}
