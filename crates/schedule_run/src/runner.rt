//! A program's run: its tasks are picked one after the other,
//! and each pick makes at most one event.
ghost use Rattle.std.specs.Prelude.{ℕ, ◌≡◌, ◌∷◌, ◌<◌, List, [], length, IfOk, IfErr, true, false};
ghost use Rattle.phase_modes.specs.declared.limits.Limits as limits;
ghost use Rattle.phase_modes.specs.declared.phased.Pair.{Pair};
ghost use Rattle.phase_modes.specs.declared.refusal.Refusal.TheVariants.{Memory as NoMemory};
ghost use Rattle.phase_modes.specs.Refusal.{number_of};
ghost use Rattle.job_script.specs.Program as programs;
ghost use Rattle.job_script.specs.Steps.{begun, next_for};
ghost use Rattle.world_records.specs.StandsFor.{StandsFor};
ghost use Rattle.world_model.specs.declared.event.Begun.TheVariants.{Async};
ghost use Rattle.world_model.specs.declared.event.WorldEvent.{WorldEvent as Event};
ghost use Rattle.world_model.specs.declared.event.WorldEvent.TheVariants.{Begin, Refuse};
ghost use Rattle.world_model.specs.Actors.{actor};
ghost use Rattle.world_model.specs.Due.{is_idle};
ghost use Rattle.world_model.specs.Replies.{after, is_accepted, reply};
ghost use Rattle.world_model.specs.Drawing.{own_pairs};
ghost use Rattle.world_model.specs.Numbers.{is_named};
ghost use Rattle.world_model.specs.Tasks.{is_born, is_ended};
ghost use Rattle.trace_walk.specs.Picks.{unused, event_of, pick, picked, round_from, rounds, run_within};
ghost use Rattle.trace_walk.specs.Scripts.{body_of, meanings, next_act, tried};
ghost use Rattle.trace_walk.specs.Given.{numbers_view, tried_of};
ghost use Rattle.schedule_run.specs.inner.Bodies.{BodiesStand, IsAsked};
ghost use Rattle.schedule_run.specs.inner.Records.{outcome_of};
ghost use Rattle.schedule_run.specs.inner.Ended.{HaveEnded};
ghost use Rattle.schedule_run.specs.inner.Running.{Kept, RoundStands, RunStands};

use crate::bodies::Bodies;
use crate::ended::Ended;
use crate::notes::Notes;
use crate::record::{Outcome, Record};
use job_script::{Act, Program, ScriptBody};
use phase_modes::{Phased, PhaserNumber, Refusal, TaskNumber};
use std::alloc::Global;
use trace_model::Trace;
use trace_walk::{Numbers, event_of, tried_of};
use world_model::{Begun, Condition, Step, Tried, WorldEvent};

/// A run under way: its record, its tasks' bodies, and the notes of those that wait.
#[derive(Drop)]
pub(crate) struct Runner<'p> {
    pub recorded: Record,
    pub bodies: Bodies<'p>,
    pub notes: Notes,
}

/// The event by which a task makes the act.
#[inline(never)]
fn made(task: u32, act: &Tried) -> WorldEvent
    ensures { result ≡ event_of task act.now }
{
    event_of(task, *act)
}

/// The entry by which a task reports that the act was refused.
#[inline(never)]
fn refused(task: u32, act: &Tried, refusal: Refusal) -> WorldEvent
    ensures { result ≡ Refuse task act.now (number_of refusal) }
{
    WorldEvent::Refuse(task, *act, refusal.number())
}

/// The task's act was made: a phaser gets its name, and a child its seat.
fn settle<'p>(bodies: &mut Bodies<'p>, task: u32, new: Numbers, act: Act<ScriptBody<'p>>)
    ensures stand { (p : programs.Program) (w : List Event) → IsAsked p w task bodies.old.seats.items
        → length bodies.old.seats.items ≡ p.limits.tasks
        → act.entry ≡ next_for (meanings p w task) (next_act p w task)
        → is_accepted p.limits w (event_of task (tried p w task (numbers_view new))) ≡ true
        → BodiesStand p (event_of task (tried p w task (numbers_view new)) ∷ w) bodies.new.seats.items }
    ensures places { length bodies.new.seats.items ≡ length bodies.old.seats.items }
{
    match act {
        Act::Async(body, _) => seat(bodies, new.task, body),
        Act::AsyncAll(body) => seat(bodies, new.task, body),
        Act::New(_, _, _) => {
            bodies.report_made(PhaserNumber::of(new.phaser), TaskNumber::of(task));
        }
        _ => {}
    }
}

/// Gives a child its seat.
fn seat<'p>(bodies: &mut Bodies<'p>, child: u32, body: ScriptBody<'p>)
    ensures stand { (p : programs.Program) (w : List Event) (t : ℕ) (pairs : List Pair)
        → IsAsked p w t bodies.old.seats.items → child < length bodies.old.seats.items
        → body.entry ≡ begun (body_of (next_act p w t)) (meanings p w t)
        → BodiesStand p (Begin t (Async child pairs) ∷ w) bodies.new.seats.items }
    ensures places { length bodies.new.seats.items ≡ length bodies.old.seats.items }
{
    if (child as usize) < bodies.seats.len() {
        bodies.seat_child(child, body);
    }
}

/// The task makes the event, if the world lets it. Nothing is noted of the task then.
#[inline(never)]
fn try_event(
    recorded: &mut Record,
    notes: &mut Notes,
    task: u32,
    event: &WorldEvent,
) -> Result<Outcome, Refusal>
    ensures outcome { IfOk result (λ o. (l : limits.Limits) (w : List Event) → Kept l w recorded.old notes.old
        → o ≡ outcome_of (reply l w event.now)) }
    ensures kept { IfOk result (λ _. (l : limits.Limits) (w : List Event) → Kept l w recorded.old notes.old
        → actor w event.now ≡ task → Kept l (after w event.now (reply l w event.now)) recorded.new notes.new) }
    ensures memory { IfErr result (λ e. e ≡ NoMemory) }
{
    notes.forget(task);
    let outcome = recorded.make(event)?;
    if matches!(outcome, Outcome::Made) {
        notes.renew(event, recorded.trace.len() as u64);
    }
    Ok(outcome)
}

impl<'p> Runner<'p> {
    /// The run before its first event. `Memory` if there is too little for the world, for a
    /// place for each task, or for the notes.
    pub(crate) fn new(alloc: Global, program: &'p Program) -> Result<Runner<'p>, Refusal>
        ensures stands { IfOk result (λ r. RunStands program.now [] r) }
        ensures memory { IfErr result (λ e. e ≡ NoMemory) }
    {
        let recorded = Record::new(alloc, program.limits())?;
        let bodies = Bodies::new(alloc, program)?;
        let notes = Notes::new(alloc, program.limits())?;
        Ok(Runner {
            recorded,
            bodies,
            notes,
        })
    }

    /// The least numbers that aren't in use.
    fn unused(&self) -> Numbers
        ensures { (l : limits.Limits) (w : List Event) → StandsFor w self.now.recorded.world
            → self.now.recorded.world.limits ≡ l → numbers_view result ≡ unused l w }
    {
        let least = self.recorded.world.unused();
        Numbers {
            phaser: least.phaser,
            task: least.task,
            finish: least.finish,
        }
    }

    /// The numbers that the act draws, the least that aren't in use; any for an act that draws none, since
    /// the world looks for them from 0 on.
    fn drawn_by(&self, act: &Act<ScriptBody<'p>>) -> Numbers
        ensures { (l : limits.Limits) (w : List Event) → StandsFor w self.now.recorded.world
            → self.now.recorded.world.limits ≡ l
            → (own : List Pair) → tried_of own (numbers_view result) act.now ≡ tried_of own (unused l w) act.now }
    {
        match act {
            Act::New(_, _, _) | Act::Async(_, _) | Act::AsyncAll(_) | Act::OpenFinish => {
                self.unused()
            }
            _ => Numbers {
                phaser: 0,
                task: 0,
                finish: 0,
            },
        }
    }

    /// The act as the task tries it, with these numbers. Its phasers are asked for only if it hands on
    /// all of them.
    #[inline(never)]
    fn tried_by(&self, task: u32, new: Numbers, act: &Act<ScriptBody<'p>>) -> Tried
        ensures { (w : List Event) → StandsFor w self.now.recorded.world
            → result ≡ tried_of (own_pairs task w) (numbers_view new) act.now }
    {
        match act {
            Act::AsyncAll(_) => tried_of(self.recorded.world.own_pairs(task), new, act),
            _ => tried_of(Phased::none(), new, act),
        }
    }

    /// The event by which the task makes an act that may hand on phasers.
    #[inline(never)]
    fn long_event_by(&self, task: u32, new: Numbers, act: &Act<ScriptBody<'p>>) -> WorldEvent
        ensures { (w : List Event) → StandsFor w self.now.recorded.world
            → result ≡ event_of task (tried_of (own_pairs task w) (numbers_view new) act.now) }
    {
        made(task, &self.tried_by(task, new, act))
    }

    /// The event by which the task makes the act. The acts that tasks repeat most are told apart here:
    /// they need no room for phasers.
    #[inline(never)]
    fn event_by(&self, task: u32, new: Numbers, act: &Act<ScriptBody<'p>>) -> WorldEvent
        ensures { (w : List Event) → StandsFor w self.now.recorded.world
            → result ≡ event_of task (tried_of (own_pairs task w) (numbers_view new) act.now) }
    {
        match act {
            Act::Next => WorldEvent::Begin(task, Begun::Next),
            Act::Signal => WorldEvent::Begin(task, Begun::Signal),
            Act::Wait => WorldEvent::Begin(task, Begun::Wait),
            Act::Send(phaser, accumulator, value) => {
                WorldEvent::Phaser(*phaser, Step::Send(task, *accumulator, *value))
            }
            Act::Look(phaser, accumulator) => {
                WorldEvent::Phaser(*phaser, Step::Look(task, *accumulator))
            }
            _ => self.long_event_by(task, new, act),
        }
    }

    /// The act was refused. The task's log says so, and it ends.
    #[inline(never)]
    fn report(
        &mut self,
        task: u32,
        new: Numbers,
        act: &Act<ScriptBody<'p>>,
        refusal: Refusal,
    ) -> Result<(), Refusal>
        ensures kept { IfOk result (λ _. (l : limits.Limits) (w : List Event)
            → Kept l w self.old.recorded self.old.notes
            → Kept l (after w (Refuse task (tried_of (own_pairs task w) (numbers_view new) act.now) (number_of refusal))
            (reply l w (Refuse task (tried_of (own_pairs task w) (numbers_view new) act.now) (number_of refusal))))
            self.new.recorded self.new.notes) }
        ensures bodies { self.new.bodies ≡ self.old.bodies }
        ensures memory { IfErr result (λ e. e ≡ NoMemory) }
    {
        let tried = self.tried_by(task, new, act);
        let entry = refused(task, &tried, refusal);
        try_event(&mut self.recorded, &mut self.notes, task, &entry)?;
        Ok(())
    }

    /// An idle task begins its next act. If that is refused, its log says so, and it ends.
    #[inline(never)]
    fn begin(&mut self, task: u32) -> Result<(), Refusal>
        ensures stands { IfOk result (λ _. (p : programs.Program) (w : List Event) → RunStands p w self.old
            → is_idle task w ≡ true → RunStands p (pick p w task) self.new) }
        ensures memory { IfErr result (λ e. e ≡ NoMemory) }
    {
        let act = self.bodies.next_act(task);
        let new = self.drawn_by(&act);
        let event = self.event_by(task, new, &act);
        match try_event(&mut self.recorded, &mut self.notes, task, &event)? {
            Outcome::Made => {
                settle(&mut self.bodies, task, new, act);
                Ok(())
            }
            Outcome::Waits => Ok(()),
            Outcome::Refused(refusal) => {
                self.report(task, new, &act, refusal)?;
                Ok(())
            }
        }
    }

    /// A task goes on with its act. If its event is not yet made, that is noted, and if it is
    /// refused, the task gives up, and ends.
    fn go_on(&mut self, task: u32) -> Result<(), Refusal>
        ensures stands { IfOk result (λ _. (p : programs.Program) (w : List Event) → RunStands p w self.old
            → is_idle task w ≡ false → is_born task w ≡ true → is_ended task w ≡ false
            → RunStands p (pick p w task) self.new) }
        ensures memory { IfErr result (λ e. e ≡ NoMemory) }
    {
        let next = self.recorded.world.next_event(task);
        let Some(event) = &next else {
            return Ok(());
        };
        match try_event(&mut self.recorded, &mut self.notes, task, event)? {
            Outcome::Made => Ok(()),
            Outcome::Waits => {
                self.notes
                    .hold(task, event, self.recorded.trace.len() as u64);
                Ok(())
            }
            Outcome::Refused(refusal) => {
                let entry = WorldEvent::Fail(task, refusal.number());
                try_event(&mut self.recorded, &mut self.notes, task, &entry)?;
                Ok(())
            }
        }
    }

    /// The task is asked for its next event: it makes at most one. One that has to wait, has ended,
    /// or was never spawned makes none. `Memory` if the trace can't grow.
    fn ask(&mut self, task: u32) -> Result<(), Refusal>
        ensures stands { IfOk result (λ _. (p : programs.Program) (w : List Event) → RunStands p w self.old
            → RunStands p (pick p w task) self.new) }
        ensures memory { IfErr result (λ e. e ≡ NoMemory) }
    {
        let Some(condition) = self.recorded.world.condition(task) else {
            return Ok(());
        };
        match condition {
            Condition::Idle => self.begin(task),
            Condition::Ended => Ok(()),
            _ => self.go_on(task),
        }
    }

    /// The task is picked: it is asked, unless it waits where nothing was done since.
    pub(crate) fn pick(&mut self, task: u32) -> Result<(), Refusal>
        ensures stands { IfOk result (λ _. (p : programs.Program) (w : List Event) → RunStands p w self.old
            → RunStands p (pick p w task) self.new) }
        ensures memory { IfErr result (λ e. e ≡ NoMemory) }
    {
        if self.notes.holds(task) {
            return Ok(());
        }
        self.ask(task)
    }

    /// The tasks are picked in this order.
    fn picks(&mut self, picks: &[u32]) -> Result<(), Refusal>
        ensures stands { IfOk result (λ _. (p : programs.Program) (w : List Event) → RunStands p w self.old
            → RunStands p (picked p w picks.now) self.new) }
        ensures memory { IfErr result (λ e. e ≡ NoMemory) }
    {
        for task in picks {
            self.pick(*task)?;
        }
        Ok(())
    }

    /// Each task is picked once, by number, up to the first number that no task has. Those that are
    /// known to have ended are passed over.
    fn round(&mut self, ended: &mut Ended) -> Result<(), Refusal>
        ensures stands { IfOk result (λ _. (p : programs.Program) (w : List Event) → RunStands p w self.old
            → HaveEnded w ended.old.runs.items → RoundStands p (round_from p.limits.tasks 0 p w) self.new ended.new) }
        ensures memory { IfErr result (λ e. e ≡ NoMemory) }
    {
        let tasks = self.recorded.trace.limits().tasks;
        let mut task = 0u32;
        for _step in 0..tasks {
            if task >= tasks {
                return Ok(());
            }
            let next = ended.first_left(task, tasks);
            if next > task {
                task = next;
                continue;
            }
            if !self.notes.holds(task) {
                if !self.recorded.world.is_named(task) {
                    return Ok(());
                }
                self.ask_or_note(task, ended)?;
            }
            task += 1;
        }
        Ok(())
    }

    /// The task is asked; if it has ended, that is noted.
    fn ask_or_note(&mut self, task: u32, ended: &mut Ended) -> Result<(), Refusal>
        ensures stands { IfOk result (λ _. (p : programs.Program) (w : List Event) → RunStands p w self.old
            → HaveEnded w ended.old.runs.items → RoundStands p (pick p w task) self.new ended.new) }
        ensures memory { IfErr result (λ e. e ≡ NoMemory) }
    {
        if self.has_ended(task) {
            ended.note_one(task);
            return Ok(());
        }
        self.ask(task)
    }

    /// Whether the task has ended. With the root the run has.
    fn has_ended(&self, task: u32) -> bool
        ensures { (w : List Event) → StandsFor w self.now.recorded.world → result ≡ is_ended task w }
    {
        matches!(self.recorded.world.condition(task), Some(Condition::Ended))
    }

    /// The tasks are picked by number, round after round, until the root has ended. In each round
    /// some task moves, so the rounds end before they can't be counted any more.
    fn rounds(&mut self, ended: &mut Ended) -> Result<(), Refusal>
        requires stands { (p : programs.Program) × (w : List Event) × RunStands p w self.old }
        requires ended { (w : List Event) → HaveEnded w ended.old.runs.items }
        ensures ended { IfOk result (λ _. (p : programs.Program) (w : List Event) → RunStands p w self.old
            → (n : ℕ) × (is_ended 0 (rounds n p w) ≡ true) × RunStands p (rounds n p w) self.new) }
        ensures memory { IfErr result (λ e. e ≡ NoMemory) }
    {
        for _round in 0..u64::MAX {
            if self.has_ended(0) {
                return Ok(());
            }
            self.round(ended)?;
        }
        let _events = self.recorded.trace.len();
        unreachable!()
    }

    /// The trace of the run.
    pub(crate) fn into_trace(self) -> Trace
        ensures { result ≡ self.entry.recorded.trace }
    {
        let Runner {
            recorded,
            bodies: _,
            notes: _,
        } = self;
        let Record { world: _, trace } = recorded;
        trace
    }
}

/// The run by these picks, and then by rounds until the root has ended. `Memory` if there is too
/// little for it.
pub(crate) fn played<'p>(
    alloc: Global,
    program: &'p Program,
    picks: &[u32],
) -> Result<Runner<'p>, Refusal>
    ensures run { IfOk result (λ r. (n : ℕ) × (is_ended 0 (run_within n program.now picks.now) ≡ true)
        × RunStands program.now (run_within n program.now picks.now) r) }
    ensures memory { IfErr result (λ e. e ≡ NoMemory) }
{
    let mut runner = Runner::new(alloc, program)?;
    let mut ended = Ended::new(alloc, program.limits())?;
    runner.picks(picks)?;
    runner.rounds(&mut ended)?;
    Ok(runner)
}
