//! What the thread of a task knows, and the rule over what all threads know and what they share.
use crate::state::LevelState;
use atomic_table::{Seat, Shared, Table, TableRule};
use phase_model::Event;
use std::alloc::Global;
use std::collections::LinkedList;

/// What a task did itself: so many signals, and these sends.
pub struct Deeds {
    pub signals: u64,
    pub sends: LinkedList<Event>,
}

/// A task that a seat stands for. Its row shows what it sends in this phase.
pub struct SeatedTask {
    pub task: u64,
    pub deeds: Deeds,
    pub pending: LinkedList<Event>,
    /// Whether it has told nothing since it went on.
    pub fresh: bool,
}

/// Where a seat's tasks stand: they haven't come in their phase; they have; they came last, have
/// what is shared, and find these words; they haven't come, and hold what is shared out of turn;
/// there is none any more. A seat without tasks that holds it is of who closes the table, and never
/// gives it back.
pub enum Role<S> {
    Stands,
    Came,
    Last(S, LinkedList<u64>),
    Holder(S),
    Gone,
}

/// What a seat knows: its tasks, their phase and role, and the beginning of the history that it has
/// seen. Only contracts speak of it: no value of it is made.
pub struct SeatView<S> {
    pub tasks: LinkedList<SeatedTask>,
    pub phase: u64,
    pub role: Role<S>,
    pub seen: LinkedList<Event>,
    /// A phase that was reached, as others told it.
    pub heard: u64,
    /// So many accumulators there are, or more.
    pub width: u64,
}

/// What a table begins with that is open at once: its first task, and how many accumulators there
/// are.
#[derive(Clone, Copy)]
pub struct Opening {
    pub task: u64,
    pub width: u64,
}

/// The rule.
pub struct Level;

impl<S: LevelState> TableRule<S, SeatView<S>, Option<Opening>> for Level {
    ghost use Rattle.level_phaser.specs.Views.{first_of_all};
    ghost use Rattle.level_phaser.specs.inner.Board.{IsBoard};

    ghost holds = { λ _. IsBoard S.events S.registered S.count S.width S.replies S.ready };

    ghost first = { λ o. first_of_all o };
}

/// The table that the tasks share.
pub type LevelTable<S> = Table<S, SeatView<S>, Option<Opening>, Level, Global>;

/// What a thread makes its steps on.
pub type LevelShared<S> = Shared<S, SeatView<S>, Option<Opening>, Level>;

/// A token of no bytes, with which a thread makes its steps on the table.
pub type LevelSeat<S> = Seat<S, SeatView<S>>;
