//! A world driven from outside: a table has each event beside its reply, and each question beside
//! its answer.
use crate::asserted::equal_at;
use finish_core::FinishEvent;
use phase_model::{Look, Op, Ops, Terms};
use phase_modes::{Limits, Mode, Pair, Phased, Refusal, TaskNumber};
use std::alloc::Global;
use std::process::Abort;
use world_core::World;
use world_model::{
    Begun, Condition, FoldLine, PhaserLines, Reply, Step, TotalsLine, Tried, WorldEvent,
    WorldReport,
};

mod examples;
mod limits;
mod reports;

/// The phasers of a spawn, each with the child's mode there.
#[derive(Clone, Copy)]
enum Places {
    Nowhere,
    At(u32, Mode),
    AtTwo((u32, Mode), (u32, Mode)),
}

/// An event as a table names it. A constant can't call what makes the lists of an event, so that
/// events with a list have variants of their own.
#[derive(Clone, Copy)]
enum TableEvent {
    /// The phaser is made by the task in this mode, with no accumulators.
    Make(u32, u32, Mode),
    /// The same with one accumulator, a sum.
    MakeSum(u32, u32, Mode),
    On(u32, Step),
    Within(u32, FinishEvent),
    Begin(u32, Begun),
    /// The task begins to spawn the child there.
    Spawn(u32, u32, Places),
    /// The task notes by this number that it was refused the act.
    Refuse(u32, Tried, u8),
    /// The same for a phaser that the task was to make, in this mode and with no accumulators.
    RefuseMake(u32, u32, Mode, u8),
    /// The same for a child that it was to spawn there.
    RefuseSpawn(u32, u32, Places, u8),
    Fail(u32, u8),
}

/// A row of a table: an event with the reply that a world gives to it, or a question about a task
/// with its answer.
#[derive(Clone, Copy)]
enum Row {
    /// The event is made.
    Done(TableEvent),
    /// The event has to wait.
    NotYet(TableEvent),
    /// The event is refused.
    Refused(TableEvent, Refusal),
    /// On the phaser the task passes the phase.
    Passed(u32, u32, u32),
    /// In the phaser's first accumulator the task sees the value.
    Saw(u32, u32, Look),
    /// What the task is about.
    Is(u32, Option<Condition>),
    /// Whether a spawn has named the task.
    Named(u32, bool),
    /// How many turns the task has completed.
    Clock(u32, u32),
    /// Whether the task can go on.
    Able(u32, bool),
    /// No event of the task is due.
    NoneDue(u32),
}

/// A world in which nothing has happened; `NotNow` if the limits are none.
fn fresh(alloc: Global, limits: Limits) -> Result<World, Refusal> {
    if !limits.fits() {
        return Err(Refusal::NotNow);
    }
    World::new(alloc, limits)
}

/// The pairs of a spawn, the first 16 of these.
fn named(pairs: &[(u32, Mode)]) -> Phased {
    let mut list = Phased::none();
    for (phaser, mode) in pairs {
        if list.len() < 16 {
            list.push(Pair {
                phaser: *phaser,
                mode: *mode,
            });
        }
    }
    list
}

/// The act that spawns the child there.
fn spawn(child: u32, places: Places) -> Begun {
    let pairs = match places {
        Places::Nowhere => Phased::none(),
        Places::At(phaser, mode) => named(&[(phaser, mode)]),
        Places::AtTwo(first, second) => named(&[first, second]),
    };
    Begun::Async(child, pairs)
}

/// One accumulator, a sum.
fn one_sum() -> Terms {
    let mut ops = Ops::none();
    if ops.len() < 4 {
        ops.push(Op::Sum);
    }
    Terms { ops, bound: None }
}

/// The event that is named.
fn event_of(event: TableEvent) -> WorldEvent {
    match event {
        TableEvent::Make(phaser, task, mode) => {
            WorldEvent::Phaser(phaser, Step::Make(task, mode, Terms::none()))
        }
        TableEvent::MakeSum(phaser, task, mode) => {
            WorldEvent::Phaser(phaser, Step::Make(task, mode, one_sum()))
        }
        TableEvent::On(phaser, step) => WorldEvent::Phaser(phaser, step),
        TableEvent::Within(finish, event) => WorldEvent::Finish(finish, event),
        TableEvent::Begin(task, begun) => WorldEvent::Begin(task, begun),
        TableEvent::Spawn(task, child, places) => WorldEvent::Begin(task, spawn(child, places)),
        TableEvent::Refuse(task, tried, number) => WorldEvent::Refuse(task, tried, number),
        TableEvent::RefuseMake(task, phaser, mode, number) => {
            WorldEvent::Refuse(task, Tried::New(phaser, mode, Terms::none()), number)
        }
        TableEvent::RefuseSpawn(task, child, places, number) => {
            WorldEvent::Refuse(task, Tried::Begun(spawn(child, places)), number)
        }
        TableEvent::Fail(task, number) => WorldEvent::Fail(task, number),
    }
}

/// The world gives this reply to the event.
fn replies(rt: &impl Abort, world: &mut World, event: TableEvent, reply: Result<Reply, Refusal>) {
    let event = event_of(event);
    equal_at(rt, event, world.step(&event), reply);
}

/// The row's event and its reply; none if the row is a question.
fn event_in(row: &Row) -> Option<(TableEvent, Result<Reply, Refusal>)> {
    match *row {
        Row::Done(event) => Some((event, Ok(Reply::Done))),
        Row::NotYet(event) => Some((event, Ok(Reply::NotYet))),
        Row::Refused(event, refusal) => Some((event, Err(refusal))),
        Row::Passed(phaser, task, phase) => {
            Some((
                TableEvent::On(phaser, Step::Pass(task)),
                Ok(Reply::Phase(phase)),
            ))
        }
        Row::Saw(phaser, task, value) => {
            Some((
                TableEvent::On(phaser, Step::Look(task, 0)),
                Ok(Reply::Value(value)),
            ))
        }
        Row::Is(_, _) | Row::Named(_, _) | Row::Clock(_, _) | Row::Able(_, _) | Row::NoneDue(_) =>
            None,
    }
}

fn is_about(rt: &impl Abort, world: &World, task: u32, condition: Option<Condition>) {
    equal_at(rt, ("task", task), world.condition(task), condition);
}

fn is_named(rt: &impl Abort, world: &World, task: u32, named: bool) {
    equal_at(rt, ("task", task), world.is_named(task), named);
}

fn has_turned(rt: &impl Abort, world: &World, task: TaskNumber, turns: u32) {
    let task = task.get();
    equal_at(rt, ("task", task), world.clock(task), turns);
}

fn is_able(rt: &impl Abort, world: &World, task: u32, able: bool) {
    equal_at(rt, ("task", task), world.able(task), able);
}

fn has_none_due(rt: &impl Abort, world: &World, task: u32) {
    equal_at(rt, ("task", task), world.next_event(task), None);
}

/// The world answers the row's question so.
fn answers(rt: &impl Abort, world: &World, row: &Row) {
    match *row {
        Row::Is(task, condition) => is_about(rt, world, task, condition),
        Row::Named(task, named) => is_named(rt, world, task, named),
        Row::Clock(task, turns) => has_turned(rt, world, TaskNumber::of(task), turns),
        Row::Able(task, able) => is_able(rt, world, task, able),
        Row::NoneDue(task) => has_none_due(rt, world, task),
        Row::Done(_)
        | Row::NotYet(_)
        | Row::Refused(_, _)
        | Row::Passed(_, _, _)
        | Row::Saw(_, _, _) => {}
    }
}

/// The world replies or answers as the row says.
fn agrees(rt: &impl Abort, world: &mut World, row: &Row) {
    match event_in(row) {
        Some((event, reply)) => replies(rt, world, event, reply),
        None => answers(rt, world, row),
    }
}

/// The world that the tables leave, one after the other.
fn play(
    rt: &impl Abort,
    alloc: Global,
    limits: Limits,
    tables: &[&[Row]],
) -> Result<World, Refusal> {
    let mut world = fresh(alloc, limits)?;
    for table in tables {
        for row in *table {
            agrees(rt, &mut world, row);
        }
    }
    Ok(world)
}
