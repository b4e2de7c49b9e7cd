//! Notes of who waits where: while nothing is done there, a task's event needn't be tried again.
ghost use Rattle.std.specs.Prelude.{ℕ, ◌≡◌, ◌+◌, ◌∷◌, List, [], length, set, slice_get, None, Some, Ok, true, IfOk, IfErr, IfSome};
ghost use Rattle.phase_modes.specs.declared.limits.Limits.{Limits as RunLimits};
ghost use Rattle.phase_modes.specs.declared.refusal.Refusal.TheVariants.{Memory as NoMemory};
ghost use Rattle.world_model.specs.declared.event.WorldEvent.{WorldEvent as Event};
ghost use Rattle.world_model.specs.declared.reply.Reply.TheVariants.{NotYet};
ghost use Rattle.world_model.specs.Actors.{actor};
ghost use Rattle.world_model.specs.Continuing.{next_done};
ghost use Rattle.world_model.specs.Due.{next_event};
ghost use Rattle.schedule_run.specs.inner.Notes.{is_at, is_quiet, last_at, note_at, NotesStand, WaitsSomewhere};

use phase_modes::{Limits, Refusal};
use std::alloc::Global;
use world_model::WorldEvent;

/// The phaser or the finish of this number.
#[derive(Clone, Copy, Debug, PartialEq, Eq)]
pub(crate) enum Place {
    Phaser(u32),
    Finish(u32),
}

/// A task waits there: its event was not yet made when the run had so many events.
#[derive(Clone, Copy, Debug, PartialEq, Eq)]
pub(crate) struct Note {
    pub place: Place,
    pub asked: u64,
}

/// The notes of the tasks, and how many events the run had with the last one of each place.
#[derive(Drop)]
pub(crate) struct Notes {
    pub phasers: Vec<u64>,
    pub finishes: Vec<u64>,
    pub tasks: Vec<Option<Note>>,
}

/// The place of the event, if it has one.
fn place_of(event: &WorldEvent) -> Option<Place>
    ensures { IfSome result (λ at. is_at at event.now ≡ true) }
{
    match event {
        WorldEvent::Phaser(phaser, _) => Some(Place::Phaser(*phaser)),
        WorldEvent::Finish(finish, _) => Some(Place::Finish(*finish)),
        _ => None,
    }
}

/// Whether nothing was done at the place after the first so many events.
fn is_quiet(last: &[u64], number: u32, asked: u64) -> bool
    ensures { result ≡ is_quiet (slice_get last.now number) asked }
{
    let place = number as usize;
    if place >= last.len() {
        return false;
    }
    last[place] <= asked
}

/// The last event of the place is the newest of so many.
fn mark(last: &mut Vec<u64>, number: u32, events: u64)
    ensures { last.new.items ≡ set last.old.items number events }
{
    let place = number as usize;
    if place < last.len() {
        last[place] = events;
    }
}

impl Notes {
    /// The notes before the first event: nobody waits. `Memory` if there is too little for one
    /// of each task, and for a count for each place.
    pub(crate) fn new(alloc: Global, limits: Limits) -> Result<Notes, Refusal>
        ensures stand { IfOk result (λ n. (l : RunLimits) → NotesStand l [] n) }
        ensures memory { IfErr result (λ e. e ≡ NoMemory) }
    {
        let phasers = vec![in alloc; 0; limits.phasers as usize]?;
        let finishes = vec![in alloc; 0; limits.finishes as usize]?;
        let tasks = vec![in alloc; None; limits.tasks as usize]?;
        Ok(Notes {
            phasers,
            finishes,
            tasks,
        })
    }

    /// Whether nothing was done where the task waits since its event was tried last.
    pub(crate) fn holds(&self, task: u32) -> bool
        ensures { result ≡ true → (l : RunLimits) (w : List Event) → NotesStand l w self.now
            → WaitsSomewhere l task w }
    {
        let place = task as usize;
        if place >= self.tasks.len() {
            return false;
        }
        match self.tasks[place] {
            None => false,
            Some(note) => self.is_current(note),
        }
    }

    fn is_current(&self, note: Note) -> bool
        ensures { result ≡ is_quiet (last_at self.now note.place) note.asked }
    {
        match note.place {
            Place::Phaser(phaser) => is_quiet(self.phasers.as_slice(), phaser, note.asked),
            Place::Finish(finish) => is_quiet(self.finishes.as_slice(), finish, note.asked),
        }
    }

    /// The task tries its event: what was noted of it is over.
    pub(crate) fn forget(&mut self, task: u32)
        ensures none { note_at self.new task ≡ None }
        ensures stand { (l : RunLimits) (w : List Event) → NotesStand l w self.old → NotesStand l w self.new }
    {
        let place = task as usize;
        if place < self.tasks.len() {
            self.tasks[place] = None;
        }
    }

    /// The task's event was not yet made, and the run has so many events.
    pub(crate) fn hold(&mut self, task: u32, event: &WorldEvent, events: u64)
        ensures stand { (l : RunLimits) (w : List Event) → NotesStand l w self.old → events ≡ length w
            → next_event l task w ≡ Some event.now → next_done l w event.now ≡ Ok NotYet
            → NotesStand l w self.new }
    {
        let Some(at) = place_of(event) else {
            return;
        };
        let place = task as usize;
        if place < self.tasks.len() {
            self.tasks[place] = Some(Note {
                place: at,
                asked: events,
            });
        }
    }

    /// The event was made by a task without a note, and the run has so many events with it.
    pub(crate) fn renew(&mut self, event: &WorldEvent, events: u64)
        ensures stand { (l : RunLimits) (w : List Event) (t : ℕ) → NotesStand l w self.old
            → note_at self.old t ≡ None → actor w event.now ≡ t → events ≡ length w + 1
            → NotesStand l (event.now ∷ w) self.new }
    {
        match event {
            WorldEvent::Phaser(phaser, _) => mark(&mut self.phasers, *phaser, events),
            WorldEvent::Finish(finish, _) => mark(&mut self.finishes, *finish, events),
            _ => {}
        }
    }
}
