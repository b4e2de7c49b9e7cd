//! What opens a table to tasks that stand level, and closes it.
ghost use Rattle.std.specs.Prelude.{◌≡◌, ◌≢◌, ◌+◌, ◌^◌, ◌<◌, ◌≤◌, [], ◌∷◌, IfOk, IfSome, IsTrue, IsFalse, MatchBool, MatchOption, None, Some, true, vec_len, slice_get, length, ℕ};
ghost use Rattle.std.specs.Option.{ForSome};
ghost use Rattle.std.specs.Arc.{arc_value};
ghost use Rattle.phase_modes.specs.Limits.{is_between};
ghost use Rattle.level_phaser.specs.declared.keeper.Door.TheVariants.{Unopened, Open as IsOpen, Closed};
ghost use Rattle.level_phaser.specs.declared.stage.Stage.TheVariants.{Stands};
ghost use Rattle.level_phaser.specs.declared.view.Role.TheVariants.{Stands as StandsIn, Gone};
ghost use Rattle.level_phaser.specs.Views.{seats_in, view_of};
ghost use Rattle.level_phaser.specs.RoundLaws.{AreApart};
ghost use Rattle.level_phaser.specs.Keeping.{Holds, HasOpened, HasClosed};
ghost use Rattle.level_phaser.specs.inner.Steps.{IsSized};
ghost use Rattle.level_phaser.specs.inner.Keeping.{IsBehind, AreUntaken, HasSeized};

use crate::member::Member;
use crate::phaser::LevelPhaser;
use crate::plays::{Deal, Note, Open, Seize, Shut, Take};
use crate::stage::Stage;
use crate::state::LevelState;
use crate::steps::{BUSY, COUNT, SHUT, WORDS};
use crate::view::{LevelSeat, LevelShared, LevelTable};
use atomic_table::Table;
use phaser_core::LongPhaser;
use std::alloc::{AllocError, Global};
use std::mem::{replace, swap};
use std::sync::Arc;

/// Whether the table was opened, and closed. While it is open the tasks have what lies in it, else
/// the keeper does.
#[derive(Clone, Copy, PartialEq, Eq, Debug)]
pub enum Door {
    Unopened,
    Open,
    Closed,
}

/// What makes a table for tasks that stand level, hands out a `Member` for each, and closes it.
#[derive(Drop)]
pub struct Keeper<S: LevelState> {
    board: Arc<LevelTable<S>, Global>,
    /// What contracts know of the keeper.
    pub seat: LevelSeat<S>,
    pub door: Door,
    /// The seat of the tasks that nobody has taken.
    rest: Option<LevelSeat<S>>,
    /// The tasks' numbers, and how many of them were taken.
    pub numbers: Vec<u64>,
    pub taken: usize,
    /// The phase in which all stood when the table was opened, or closed.
    pub phase: u64,
    /// How many accumulators there are.
    pub width: u64,
    ghost seated: { seat.table_id ≡ (arc_value board).shared.table_id },
    ghost sized: { IsSized (arc_value board).shared.table_id },
    ghost behind: { IsBehind door seat.me },
    ghost untaken: { (door ≡ IsOpen) → ForSome rest (λ r. (r.table_id ≡ (arc_value board).shared.table_id)
        × AreUntaken phase width taken numbers.items seat.me.0.seen r.me) },
}

/// Takes what is shared, unless others hold it, or all have come.
fn seize<S: LevelState>(shared: &LevelShared<S>, seat: &mut LevelSeat<S>) -> bool
    requires table { (seat.old.table_id ≡ shared.now.table_id) × IsSized shared.now.table_id }
    requires gone { (seat.old.me.0.role ≡ Gone) × (seat.old.me.0.tasks ≡ []) × (seat.old.me.1 ≡ []) }
    ensures same { seat.new.table_id ≡ seat.old.table_id }
    ensures seized { IsTrue result → HasSeized S.events S.count S.ready seat.old.me seat.new.me }
    ensures kept { IsFalse result → seat.new.me ≡ seat.old.me }
{
    let missing = shared.peek(COUNT);
    if missing == 0 || missing >= BUSY {
        return false;
    }
    shared.compare_exchange::<Seize>(seat, COUNT, missing, missing + BUSY) == missing
}

impl<S: LevelState> Keeper<S> {
    /// A table that nobody has opened, with a value that nobody uses.
    pub fn new(alloc: Global, spare: S) -> Result<Keeper<S>, AllocError>
        ensures { IfOk result (λ k. k.door ≡ Unopened) }
    {
        let words = Vec::from_elem(alloc, 0u64, WORDS)?;
        let mut slots = Vec::with_capacity(alloc, 1)?;
        slots.push_reserved(spare);
        let Ok((table, mut seat)) = Table::new(alloc, words.as_slice(), slots, &None) else {
            return Err(AllocError);
        };
        let board: Arc<LevelTable<S>, Global> = Arc::new(alloc, table)?;
        board.shared.load::<Take>(&mut seat, COUNT);
        Ok(Keeper {
            board,
            seat,
            door: Door::Unopened,
            rest: None,
            numbers: Vec::new(alloc),
            taken: 0,
            phase: 0,
            width: 0,
        })
    }

    /// Opens the table: what lies in it is shared by its tasks from now on, which stand level, and
    /// nobody has taken one yet.
    pub fn open(&mut self, numbers: Vec<u64>)
        requires unopened { self.old.door ≡ Unopened }
        requires level { (y : S) × Holds y self.old.seat.me × ((p : ℕ) × S.ready p y) × (0 < S.count y)
            × (numbers.items ≡ S.tasks y) }
        ensures open { (self.new.door ≡ IsOpen) × (self.new.numbers ≡ numbers) × (self.new.taken ≡ 0)
            × (self.new.seat.table_id ≡ self.old.seat.table_id) }
        ensures seen { (y : S) → Holds y self.old.seat.me
            → HasOpened S.events S.width S.ready y self.new.phase self.new.width self.new.seat.me.0 }
    {
        let shared = &self.board.shared;
        let value = self.seat.slot_mut(shared, 0);
        let count = value.count();
        self.phase = value.phase();
        self.width = value.width();
        shared.store::<Open>(&mut self.seat, COUNT, count);
        let mine = shared.split_seat::<Note>(&mut self.seat);
        self.rest = Some(replace(&mut self.seat, mine));
        self.numbers = numbers;
        self.taken = 0;
        self.door = Door::Open;
    }

    /// The next task that nobody has taken. None once all are, or if there is no room for one more
    /// that shares the table.
    pub fn take(&mut self) -> Option<Member<S>>
        requires { self.old.door ≡ IsOpen }
        ensures same { (self.new.door ≡ self.old.door) × (self.new.numbers ≡ self.old.numbers)
            × (self.new.seat ≡ self.old.seat) × (self.new.phase ≡ self.old.phase)
            × (self.new.width ≡ self.old.width) }
        ensures taken { MatchOption result (self.new.taken ≡ self.old.taken)
            (λ m. (self.new.taken ≡ self.old.taken + 1) × (slice_get self.old.numbers.items self.old.taken ≡ Some m.task)) }
        ensures stands { IfSome result (λ m. let seen = self.old.seat.me.0.seen in
            (m.seat.me.0 ≡ view_of (seats_in seen (m.task ∷ [])) self.old.phase StandsIn seen 0 self.old.width)
            × (m.kept ≡ None) × (m.stage ≡ Stands) × (m.seat.table_id ≡ self.old.seat.table_id)) }
    {
        let board = Arc::try_clone(&self.board).ok()?;
        let Some(task) = self.numbers.get(self.taken) else {
            return None;
        };
        let task = *task;
        let Some(rest) = &mut self.rest else {
            return None;
        };
        let seat = board.shared.split_seat::<Deal>(rest);
        self.taken += 1;
        Some(Member {
            board,
            seat,
            task,
            phase: self.phase,
            stage: Stage::Stands,
            kept: None,
            width: self.width,
            is_shown: false,
            is_fresh: false,
        })
    }

    /// Closes the table, whoever has come: those haven't signalled. Whether it did: it doesn't if all
    /// have come, or others hold what is shared; then it can be asked again. What was shared is the
    /// keeper's then.
    pub fn close(&mut self) -> bool
        requires { self.old.door ≡ IsOpen }
        ensures same { self.new.seat.table_id ≡ self.old.seat.table_id }
        ensures outcome { MatchBool result
            ((self.new.door ≡ Closed) × HasClosed S.events S.ready self.new.phase self.old.seat.me.0 self.new.seat.me)
            ((self.new.door ≡ IsOpen) × (self.new.seat.me ≡ self.old.seat.me) × (self.new.numbers ≡ self.old.numbers)
            × (self.new.taken ≡ self.old.taken) × (self.new.phase ≡ self.old.phase)
            × (self.new.width ≡ self.old.width)) }
    {
        let shared = &self.board.shared;
        if !seize(shared, &mut self.seat) {
            return false;
        }
        let phase = self.seat.slot_mut(shared, 0).phase();
        shared.store::<Shut>(&mut self.seat, SHUT, phase.wrapping_add(1));
        self.phase = phase;
        self.door = Door::Closed;
        true
    }
}

impl Keeper<LevelPhaser> {
    /// While the table isn't open: the phaser that lies in it, and its tasks, are changed for these.
    pub fn trade(&mut self, phaser: &mut LongPhaser, tasks: &mut Vec<u64>)
        requires shut { self.old.door ≢ IsOpen }
        requires few { vec_len tasks.old ≤ 256 }
        requires regs { is_between 1 phaser.old.story.limits.regs 256 ≡ true }
        ensures same { (self.new.door ≡ self.old.door) × (self.new.seat.table_id ≡ self.old.seat.table_id)
            × (self.new.seat.me.0 ≡ self.old.seat.me.0) × (self.new.phase ≡ self.old.phase) }
        ensures regs { is_between 1 phaser.new.story.limits.regs 256 ≡ true }
        ensures given { (d : LevelPhaser) → Holds d self.old.seat.me → (phaser.new ≡ d.phaser) × (tasks.new ≡ d.tasks) }
        ensures taken { (d : LevelPhaser) × Holds d self.new.seat.me × (d.phaser ≡ phaser.old) × (d.tasks ≡ tasks.old) }
    {
        let value = self.seat.slot_mut(&self.board.shared, 0);
        let LevelPhaser {
            phaser: old_phaser,
            tasks: old_tasks,
        } = value;
        swap(old_phaser, phaser);
        swap(old_tasks, tasks);
    }
}
