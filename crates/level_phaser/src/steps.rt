//! The calls of a task.
ghost use Rattle.std.specs.Prelude.{◌≡◌, ◌≢◌, ◌+◌, ◌^◌, ◌<◌, ◌≤◌, [], ◌∷◌, ◌⊎◌, IfOk, true, IsTrue, IsFalse, ℕ, false, None, Some, Ok, is_some, MatchBool, MatchOption, MatchResult, IfSome, Err, if◌then◌else◌, length};
ghost use Rattle.std.specs.Arc.{arc_value};
ghost use Rattle.std.specs.Option.{ForSome};
ghost use Rattle.told_history.specs.Tails.{IsTail};
ghost use Rattle.phase_model.specs.declared.call.Call.TheVariants.{Send as send, Look as look};
ghost use Rattle.phase_model.specs.declared.history.Event.TheVariants.{Send as Sent};
ghost use Rattle.phase_model.specs.Replies.{done_result};
ghost use Rattle.phase_model.specs.Answers.{look_result};
ghost use Rattle.level_phaser.specs.declared.stage.Stage.TheVariants.{Stands, Waits, Gone, Stuck, Closed};
ghost use Rattle.level_phaser.specs.declared.view.Role.TheVariants.{Came, Stands as StandsIn};
ghost use Rattle.level_phaser.specs.Deeds.{deeds, kept_in};
ghost use Rattle.level_phaser.specs.Views.{pending_in, fresh_in, seated, seated_as, view_of, first_view, with_role, with_pending, note_of, told};
ghost use Rattle.level_phaser.specs.Seen.{GoneOn, IsClosed, HasKept, HasToldKept, HasSent, HasLeft, HasNoRoom, IsReplied};
ghost use Rattle.level_phaser.specs.inner.Plays.{Claimed, IsLast};
ghost use Rattle.level_phaser.specs.inner.Steps.{IsSized, deeds_in};
ghost use Rattle.level_phaser.specs.inner.Board.{sent_in, IsSound, accumulator_in};
ghost use Rattle.level_phaser.specs.inner.Tellings.{Tells, HasToldAll};

use crate::folds::{FOLDS, fold_of, write_folds};
use crate::member::Member;
use crate::plays::{
    Claim, Come, Cut, End, Fetch, Find, Hear, Heed, Join, Leave, Look, LookShut, Note, Put, Raise,
    Release, Show,
};
use crate::round::GivenSend;
use crate::stage::Stage;
use crate::state::LevelState;
use crate::view::{LevelSeat, LevelShared, LevelTable, Opening};
use atomic_table::Table;
use phase_model::LongLook;
use phase_modes::Refusal;
use std::alloc::{AllocError, Global};
use std::sync::Arc;

/// The word that counts the tasks that haven't come, and that of the rounds whose tasks may go on:
/// each in a line of memory of its own.
pub(crate) const COUNT: usize = 0;

const OVER: usize = 16;

/// Beside it lies the word that says if the table was closed: it is 1 more than the phase, or 0.
pub(crate) const SHUT: usize = 17;

/// From here on each task whose number is below `MOST_ROWS` has a row, in a line of memory of its
/// own. It shows a value in the first word of it.
const ROWS: usize = 32;

const ROW: usize = 8;

pub(crate) const MOST_ROWS: u64 = 256;

pub(crate) const WORDS: usize = 2080;

/// It is added to the count while somebody holds what is shared.
pub(crate) const BUSY: u64 = 1 << 62;

/// A word of a row has the accumulator from this bit on.
const SHIFT: u64 = 1 << 32;

/// A word stands for the value and its accumulator; 0 for no value.
fn word_of(sent: GivenSend) -> u64
    ensures sent { (task : ℕ) → sent_in task result ≡ Sent task sent.accumulator sent.value ∷ [] }
    ensures sound { (most : ℕ) → sent.accumulator < most → IsSound most result }
{
    sent.accumulator as u64 * SHIFT + sent.value.cast_unsigned() as u64 + 1
}

/// The value that a word stands for.
fn value_of(word: u64) -> i32
    requires { 0 < word }
    ensures { (task : ℕ) → IsSound 4 word → sent_in task word ≡ Sent task (accumulator_in word) result ∷ [] }
{
    (((word - 1) % SHIFT) as u32).cast_signed()
}

/// Its accumulator.
fn accumulator_of(word: u64) -> u8
    requires { (0 < word) × IsSound 4 word }
    ensures { result ≡ accumulator_in word }
{
    ((word - 1) / SHIFT) as u8
}

/// Holds what is shared, unless others do, or all have come.
fn claim<S: LevelState>(shared: &LevelShared<S>, seat: &mut LevelSeat<S>) -> bool
    requires table { (seat.old.table_id ≡ shared.now.table_id) × IsSized shared.now.table_id }
    requires stands { (seat.old.me.0.role ≡ StandsIn) × (seat.old.me.1 ≡ []) × (0 < length seat.old.me.0.tasks) }
    ensures same { seat.new.table_id ≡ seat.old.table_id }
    ensures claimed { IsTrue result → Claimed S.events S.registered S.ready seat.old.me seat.new.me }
    ensures kept { IsFalse result → seat.new.me ≡ seat.old.me }
{
    let missing = shared.peek(COUNT);
    if missing == 0 || missing >= BUSY {
        return false;
    }
    shared.compare_exchange::<Claim>(seat, COUNT, missing, missing + BUSY) == missing
}

/// The task's row shows the value that is kept. Whether it shows one.
fn show<S: LevelState>(
    shared: &LevelShared<S>,
    seat: &mut LevelSeat<S>,
    task: u64,
    kept: Option<GivenSend>,
    is_shown: bool,
) -> bool
    requires table { (seat.old.table_id ≡ shared.now.table_id) × IsSized shared.now.table_id }
    requires stands { (seat.old.me.0.role ≡ StandsIn) × (seat.old.me.1 ≡ []) }
    requires alone { seat.old.me.0.tasks
        ≡ seated_as task (deeds_in seat.old.me.0.tasks) (pending_in seat.old.me.0.tasks) (fresh_in seat.old.me.0.tasks)
        ∷ [] }
    requires kept { ForSome kept (λ k. (k.accumulator < seat.old.me.0.width) × (task < 256)) }
    requires shown { is_shown ≡ true → task < 256 }
    requires clear { is_shown ≡ false → pending_in seat.old.me.0.tasks ≡ [] }
    ensures same { seat.new.table_id ≡ seat.old.table_id }
    ensures shows { seat.new.me ≡ (with_pending seat.old.me.0 (kept_in task kept), []) }
    ensures flag { result ≡ is_some kept }
{
    if let Some(sent) = kept {
        shared.store::<Put>(seat, ROWS + ROW * task as usize, word_of(sent));
        return true;
    }
    if is_shown {
        shared.store::<Put>(seat, ROWS + ROW * task as usize, 0);
    }
    false
}

/// The last tells what the row of the task at this place shows. Whether it did: there may be no
/// room.
fn tell_row<S: LevelState>(
    shared: &LevelShared<S>,
    seat: &mut LevelSeat<S>,
    phase: u64,
    place: u64,
) -> bool
    requires table { (seat.old.table_id ≡ shared.now.table_id) × IsSized shared.now.table_id }
    requires tells { Tells S.events S.registered S.count S.width S.tasks S.ready place phase seat.old.me }
    ensures same { (seat.new.table_id ≡ seat.old.table_id) × (seat.new.me.0 ≡ seat.old.me.0) }
    ensures tells { IsTrue result → Tells S.events S.registered S.count S.width S.tasks S.ready (place + 1) phase
        seat.new.me }
    ensures full { IsFalse result → HasNoRoom S.events S.full seat.old.me.0 }
{
    let Some(task) = seat.slot_mut(shared, 0).task_at(place, phase) else {
        return true;
    };
    if task >= MOST_ROWS {
        return true;
    }
    let word = shared.load::<Find>(seat, ROWS + ROW * task as usize);
    if word == 0 {
        return true;
    }
    let value = seat.slot_mut(shared, 0);
    match value.send(task, accumulator_of(word), value_of(word), phase) {
        Ok(()) => true,
        Err(_) => false,
    }
}

/// The last tells what all rows show. Whether it did: there may be no room.
fn tell_all<S: LevelState>(shared: &LevelShared<S>, seat: &mut LevelSeat<S>, phase: u64) -> bool
    requires table { (seat.old.table_id ≡ shared.now.table_id) × IsSized shared.now.table_id }
    requires last { IsLast S.events S.ready phase seat.old.me }
    ensures same { (seat.new.table_id ≡ seat.old.table_id) × (seat.new.me.0 ≡ seat.old.me.0) }
    ensures told { IsTrue result → HasToldAll S.events S.registered S.count S.width S.tasks S.ready phase seat.new.me }
    ensures full { IsFalse result → HasNoRoom S.events S.full seat.old.me.0 }
{
    let count = seat.slot_mut(shared, 0).count();
    for place in 0..count {
        if !tell_row(shared, seat, phase, place) {
            return false;
        }
    }
    true
}

/// The last tells what the rows show, makes the round, and gives back what is shared. Whether it
/// did: there may be no room.
fn end_round<S: LevelState>(shared: &LevelShared<S>, seat: &mut LevelSeat<S>, phase: u64) -> bool
    requires table { (seat.old.table_id ≡ shared.now.table_id) × IsSized shared.now.table_id }
    requires small { phase + 1 < 2 ^ 64 }
    requires last { IsLast S.events S.ready phase seat.old.me }
    ensures same { seat.new.table_id ≡ seat.old.table_id }
    ensures ended { IsTrue result → GoneOn S.events S.registered S.ready seat.old.me.0 seat.new.me.0
        × (seat.new.me.1 ≡ []) }
    ensures full { IsFalse result → HasNoRoom S.events S.full seat.old.me.0
        × (seat.new.me.0 ≡ seat.old.me.0) }
{
    if !tell_all(shared, seat, phase) {
        return false;
    }
    let value = seat.slot_mut(shared, 0);
    if !value.make_round(phase) {
        return false;
    }
    write_folds(shared, seat, phase + 1);
    let state = seat.slot_mut(shared, 0);
    let count = state.count();
    shared.store::<End>(seat, COUNT, count);
    true
}

impl<S: LevelState> Member<S> {
    /// The first task, and what all share.
    pub fn new(alloc: Global, mut value: S) -> Result<Member<S>, AllocError>
        requires ready { S.ready 0 value }
        requires nobody { S.count value ≡ 0 }
        ensures { IfOk result (λ m. (m.seat.me.0 ≡ first_view m.task m.width) × (m.stage ≡ Stands)
            × (m.kept ≡ None)) }
    {
        let width = value.width();
        let Some(task) = value.join(0) else {
            return Err(AllocError);
        };
        let mut words = Vec::from_elem(alloc, 0u64, WORDS)?;
        words[COUNT] = 1;
        let mut slots = Vec::with_capacity(alloc, 1)?;
        slots.push_reserved(value);
        let Ok((table, seat)) = Table::new(
            alloc,
            words.as_slice(),
            slots,
            &Some(Opening { task, width }),
        ) else {
            return Err(AllocError);
        };
        let board: Arc<LevelTable<S>, Global> = Arc::new(alloc, table)?;
        Ok(Member {
            board,
            seat,
            task,
            phase: 0,
            stage: Stage::Stands,
            kept: None,
            width,
            is_shown: false,
            is_fresh: false,
        })
    }

    /// The task comes. Whether it came last: then it has made the round, and stands in the next
    /// phase. Else it waits, and `look` says when it may go on. It is stuck if it came last, and
    /// the history has no room for the round. The value that it keeps is sent in that round.
    pub fn come(&mut self) -> bool
        requires { (self.old.stage ≡ Stands) × (self.old.phase + 1 < 2 ^ 64) }
        ensures same { (self.new.seat.table_id ≡ self.old.seat.table_id) × (self.new.task ≡ self.old.task) }
        ensures outcome { MatchBool result
            ((self.new.stage ≡ Stands) × GoneOn S.events S.registered S.ready
            (with_pending self.old.seat.me.0 (kept_in self.old.task self.old.kept)) self.new.seat.me.0)
            (((self.new.stage ≡ Waits) × (self.new.seat.me.0
            ≡ with_role (with_pending self.old.seat.me.0 (kept_in self.old.task self.old.kept)) Came))
            ⊎ ((self.new.stage ≡ Stuck) × HasNoRoom S.events S.full self.old.seat.me.0)) }
        ensures kept { self.new.kept ≡ (if result then None else self.old.kept) }
    {
        let shared = &self.board.shared;
        self.is_shown = show(shared, &mut self.seat, self.task, self.kept, self.is_shown);
        if shared.fetch_sub::<Come>(&mut self.seat, COUNT, 1) != 1 {
            self.stage = Stage::Waits;
            return false;
        }
        if !end_round(shared, &mut self.seat, self.phase) {
            self.stage = Stage::Stuck;
            return false;
        }
        self.phase += 1;
        self.is_fresh = true;
        self.kept = None;
        shared.store::<Raise>(&mut self.seat, OVER, self.phase);
        true
    }

    /// The same by the word that says if the table was closed: it comes after that of the rounds, since
    /// whoever ends a round raises that a little later.
    fn look_shut(&mut self) -> bool
        requires { (self.old.stage ≡ Waits) × (self.old.phase + 1 < 2 ^ 64) }
        ensures same { (self.new.seat.table_id ≡ self.old.seat.table_id) × (self.new.task ≡ self.old.task) }
        ensures outcome { MatchBool result
            ((self.new.stage ≡ Stands) × GoneOn S.events S.registered S.ready self.old.seat.me.0
            self.new.seat.me.0)
            ((self.new.seat.me.0 ≡ self.old.seat.me.0) × ((self.new.stage ≡ Waits)
            ⊎ ((self.new.stage ≡ Closed) × IsClosed S.events S.registered S.ready self.old.seat.me.0))) }
        ensures kept { self.new.kept ≡ (if result then None else self.old.kept) }
    {
        let shared = &self.board.shared;
        let shut = shared.load::<LookShut>(&mut self.seat, SHUT);
        if shut == 0 {
            return false;
        }
        if shut <= self.phase + 1 {
            self.stage = Stage::Closed;
            return false;
        }
        self.phase += 1;
        self.is_fresh = true;
        self.kept = None;
        self.stage = Stage::Stands;
        true
    }

    /// Whether the round in which the task came is over: then it stands in the next phase. Or the
    /// table was closed, and the task hasn't signalled: what it kept isn't sent. It reads two words,
    /// and may be called again and again.
    pub fn look(&mut self) -> bool
        requires { (self.old.stage ≡ Waits) × (self.old.phase + 1 < 2 ^ 64) }
        ensures same { (self.new.seat.table_id ≡ self.old.seat.table_id) × (self.new.task ≡ self.old.task) }
        ensures outcome { MatchBool result
            ((self.new.stage ≡ Stands) × GoneOn S.events S.registered S.ready self.old.seat.me.0
            self.new.seat.me.0)
            ((self.new.seat.me.0 ≡ self.old.seat.me.0) × ((self.new.stage ≡ Waits)
            ⊎ ((self.new.stage ≡ Closed) × IsClosed S.events S.registered S.ready self.old.seat.me.0))) }
        ensures kept { self.new.kept ≡ (if result then None else self.old.kept) }
    {
        let shared = &self.board.shared;
        if shared.load::<Look>(&mut self.seat, OVER) <= self.phase {
            return self.look_shut();
        }
        self.phase += 1;
        self.is_fresh = true;
        self.kept = None;
        self.stage = Stage::Stands;
        true
    }

    /// The value that the task keeps, which it keeps no more. None if it keeps none.
    pub fn take_kept(&mut self) -> Option<GivenSend>
        ensures kept { (result ≡ self.old.kept) × (self.new.kept ≡ None) }
        ensures same { (self.new.seat.table_id ≡ self.old.seat.table_id) × (self.new.task ≡ self.old.task)
            × (self.new.seat.me.0 ≡ self.old.seat.me.0) × (self.new.stage ≡ self.old.stage)
            × (self.new.phase ≡ self.old.phase) }
    {
        self.kept.take()
    }

    /// A new task joins, which stands where this one does. None if others hold what is shared, or
    /// have all come: then it can be asked again. None as well if there is no room or no memory.
    pub fn join(&mut self) -> Option<Member<S>>
        requires { self.old.stage ≡ Stands }
        ensures same { (self.new.seat.table_id ≡ self.old.seat.table_id) × (self.new.task ≡ self.old.task) }
        ensures this { (self.new.seat.me.0 ≡ self.old.seat.me.0) × (self.new.stage ≡ Stands)
            × (self.new.phase ≡ self.old.phase) × (self.new.kept ≡ self.old.kept) }
        ensures other { IfSome result (λ m. let old = self.old.seat.me.0 in
            (m.seat.me.0 ≡ view_of (seated m.task (deeds self.old.phase []) (pending_in m.seat.me.0.tasks) ∷ [])
            self.old.phase StandsIn old.seen old.heard old.width)
            × (m.kept ≡ None) × (m.task ≢ self.old.task) × (m.stage ≡ Stands) × (m.seat.table_id ≡ self.old.seat.table_id)) }
    {
        let board = Arc::try_clone(&self.board).ok()?;
        let shared = &board.shared;
        if !claim(shared, &mut self.seat) {
            return None;
        }
        let Some(task) = self.seat.slot_mut(shared, 0).join(self.phase) else {
            shared.fetch_sub::<Release>(&mut self.seat, COUNT, BUSY);
            return None;
        };
        shared.fetch_sub::<Join>(&mut self.seat, COUNT, BUSY - 1);
        let seat = shared.split_seat::<Cut>(&mut self.seat);
        Some(Member {
            board,
            seat,
            task,
            phase: self.phase,
            stage: Stage::Stands,
            kept: None,
            width: self.width,
            is_shown: task < MOST_ROWS,
            is_fresh: false,
        })
    }

    /// The phaser is told at once that the task sends a value, and the task sees it in the history.
    /// None if others hold what is shared.
    fn tell(&mut self, accumulator: u8, value: i32) -> Option<Result<(), Refusal>>
        requires { self.old.stage ≡ Stands }
        ensures same { (self.new.seat.table_id ≡ self.old.seat.table_id) × (self.new.task ≡ self.old.task)
            × (self.new.phase ≡ self.old.phase) }
        ensures stage { (self.new.stage ≡ Stands) × (self.new.kept ≡ self.old.kept) }
        ensures sent { MatchOption result
            (self.new.seat.me.0 ≡ self.old.seat.me.0)
            (λ r. MatchResult r
            (λ _. HasSent S.events S.registered S.ready (Sent self.old.task accumulator value)
            self.old.seat.me.0 self.new.seat.me.0)
            (λ why. (self.new.seat.me.0 ≡ self.old.seat.me.0)
            × IsReplied S.events S.replies (λ reply. done_result reply ≡ Err why)
            (send self.old.task accumulator value) self.old.seat.me.0)) }
    {
        let shared = &self.board.shared;
        if !claim(shared, &mut self.seat) {
            return None;
        }
        let state = self.seat.slot_mut(shared, 0);
        match state.send(self.task, accumulator, value, self.phase) {
            Ok(()) => {
                shared.fetch_sub::<Show>(&mut self.seat, COUNT, BUSY);
                self.is_fresh = false;
                Some(Ok(()))
            }
            Err(why) => {
                shared.fetch_sub::<Release>(&mut self.seat, COUNT, BUSY);
                Some(Err(why))
            }
        }
    }

    /// The task sends a value, which counts for its phase. It keeps it until it comes, if it may:
    /// it keeps one at a time. Else it sees it in the history. None if others hold what is shared:
    /// then it can be asked again. A refusal is the phaser's.
    pub fn send(&mut self, accumulator: u8, value: i32) -> Option<Result<(), Refusal>>
        requires { self.old.stage ≡ Stands }
        ensures same { (self.new.seat.table_id ≡ self.old.seat.table_id) × (self.new.task ≡ self.old.task)
            × (self.new.phase ≡ self.old.phase) }
        ensures stage { self.new.stage ≡ Stands }
        ensures sent { MatchOption result
            ((self.new.seat.me.0 ≡ self.old.seat.me.0) × (self.new.kept ≡ self.old.kept))
            (λ r. MatchResult r
            (λ _. HasKept self.old.task accumulator value self.old.kept self.new.kept self.old.seat.me.0 self.new.seat.me.0
            ⊎ ((self.new.kept ≡ self.old.kept) × HasSent S.events S.registered S.ready (Sent self.old.task accumulator value)
            self.old.seat.me.0 self.new.seat.me.0))
            (λ why. (self.new.seat.me.0 ≡ self.old.seat.me.0) × (self.new.kept ≡ self.old.kept)
            × IsReplied S.events S.replies (λ reply. done_result reply ≡ Err why)
            (send self.old.task accumulator value) self.old.seat.me.0)) }
    {
        let can_keep = self.kept.is_none() && self.task < MOST_ROWS;
        if can_keep && (accumulator as u64) < self.width {
            self.kept = Some(GivenSend {
                task: self.task,
                value,
                accumulator,
            });
            return Some(Ok(()));
        }
        self.tell(accumulator, value)
    }

    /// What the word of an accumulator's fold says, if anything: it reads one word. A task that has
    /// joined or told something in this phase reads none.
    fn read(&mut self, accumulator: u8) -> Option<LongLook>
        requires { self.old.stage ≡ Stands }
        ensures same { (self.new.seat.table_id ≡ self.old.seat.table_id) × (self.new.task ≡ self.old.task)
            × (self.new.phase ≡ self.old.phase) }
        ensures kept { (self.new.stage ≡ Stands) × (self.new.seat.me.0 ≡ self.old.seat.me.0)
            × (self.new.kept ≡ self.old.kept) }
        ensures seen { IfSome result (λ l. IsReplied S.events S.replies (λ reply. look_result reply ≡ Ok l)
            (look self.old.task accumulator) self.old.seat.me.0) }
    {
        if !self.is_fresh || accumulator as u64 >= self.width {
            return None;
        }
        let shared = &self.board.shared;
        let word = shared.load::<Fetch>(&mut self.seat, FOLDS + accumulator as usize);
        fold_of(word)
    }

    /// The phaser is asked what an accumulator holds. None if others hold what is shared.
    fn ask(&mut self, accumulator: u8) -> Option<Result<LongLook, Refusal>>
        requires { self.old.stage ≡ Stands }
        ensures same { (self.new.seat.table_id ≡ self.old.seat.table_id) × (self.new.task ≡ self.old.task)
            × (self.new.phase ≡ self.old.phase) }
        ensures kept { (self.new.stage ≡ Stands) × (self.new.seat.me.0 ≡ self.old.seat.me.0)
            × (self.new.kept ≡ self.old.kept) }
        ensures seen { IfSome result (λ r. IsReplied S.events S.replies (λ reply. r ≡ look_result reply)
            (look self.old.task accumulator) self.old.seat.me.0) }
    {
        let shared = &self.board.shared;
        if !claim(shared, &mut self.seat) {
            return None;
        }
        let state = self.seat.slot_mut(shared, 0);
        let seen = state.look(self.task, accumulator, self.phase);
        shared.fetch_sub::<Release>(&mut self.seat, COUNT, BUSY);
        Some(seen)
    }

    /// What an accumulator holds of the values that were sent for the phase before: one word says
    /// it, if the task has neither joined nor told anything in this phase. Else the phaser is asked.
    /// None if others hold what is shared: then it can be asked again. A refusal is the phaser's.
    pub fn look_at(&mut self, accumulator: u8) -> Option<Result<LongLook, Refusal>>
        requires { self.old.stage ≡ Stands }
        ensures same { (self.new.seat.table_id ≡ self.old.seat.table_id) × (self.new.task ≡ self.old.task)
            × (self.new.phase ≡ self.old.phase) }
        ensures kept { (self.new.stage ≡ Stands) × (self.new.seat.me.0 ≡ self.old.seat.me.0)
            × (self.new.kept ≡ self.old.kept) }
        ensures seen { IfSome result (λ r. IsReplied S.events S.replies (λ reply. r ≡ look_result reply)
            (look self.old.task accumulator) self.old.seat.me.0) }
    {
        if let Some(seen) = self.read(accumulator) {
            return Some(Ok(seen));
        }
        self.ask(accumulator)
    }

    /// The task leaves, and keeps no value. Whether it did: it doesn't if others hold what is shared.
    fn leave_now(&mut self) -> bool
        requires { (self.old.stage ≡ Stands) × (self.old.phase + 1 < 2 ^ 64) }
        ensures same { (self.new.seat.table_id ≡ self.old.seat.table_id) × (self.new.task ≡ self.old.task) }
        ensures outcome { MatchBool result
            (HasLeft S.events S.registered S.ready self.old.task self.old.seat.me.0 self.new.seat.me.0
            × ((self.new.stage ≡ Gone)
            ⊎ ((self.new.stage ≡ Stuck) × HasNoRoom S.events S.full self.old.seat.me.0)))
            ((self.new.stage ≡ Stands) × ((self.new.seat.me.0 ≡ self.old.seat.me.0)
            × (self.new.kept ≡ self.old.kept))) }
    {
        let shared = &self.board.shared;
        if !claim(shared, &mut self.seat) {
            return false;
        }
        if !self.seat.slot_mut(shared, 0).leave(self.task, self.phase) {
            shared.fetch_sub::<Release>(&mut self.seat, COUNT, BUSY);
            return false;
        }
        self.stage = Stage::Gone;
        self.is_fresh = false;
        if shared.fetch_sub::<Leave>(&mut self.seat, COUNT, BUSY + 1) != BUSY + 1 {
            return true;
        }
        if !end_round(shared, &mut self.seat, self.phase) {
            self.stage = Stage::Stuck;
            return true;
        }
        self.phase += 1;
        shared.fetch_max::<Raise>(&mut self.seat, OVER, self.phase);
        true
    }

    /// The task leaves. Whether it did: it doesn't if others hold what is shared; then it can be
    /// asked again. A task that keeps a value sends it, and is to be asked again. If nobody else was
    /// missing it makes the round of those who have come. It is stuck if the history has no room
    /// for that.
    pub fn leave(&mut self) -> bool
        requires { (self.old.stage ≡ Stands) × (self.old.phase + 1 < 2 ^ 64) }
        ensures same { (self.new.seat.table_id ≡ self.old.seat.table_id) × (self.new.task ≡ self.old.task) }
        ensures outcome { MatchBool result
            ((self.old.kept ≡ None) × HasLeft S.events S.registered S.ready self.old.task self.old.seat.me.0 self.new.seat.me.0
            × ((self.new.stage ≡ Gone)
            ⊎ ((self.new.stage ≡ Stuck) × HasNoRoom S.events S.full self.old.seat.me.0)))
            ((self.new.stage ≡ Stands) × (((self.new.seat.me.0 ≡ self.old.seat.me.0)
            × (self.new.kept ≡ self.old.kept)) ⊎ HasToldKept S.events S.registered S.ready self.old.task
            self.old.kept self.new.kept self.old.seat.me.0 self.new.seat.me.0)) }
    {
        let Some(sent) = self.kept else {
            return self.leave_now();
        };
        if let Some(Ok(())) = self.tell(sent.accumulator, sent.value) {
            self.kept = None;
        }
        false
    }

    /// While this task hasn't come, the other stands and waits in no later phase. It does nothing
    /// but let the one thread that has both know so.
    pub fn hear(&mut self, other: &mut Member<S>)
        requires { (self.old.stage ≡ Stands) × (other.old.stage ≢ Stuck)
            × (other.old.seat.table_id ≡ self.old.seat.table_id) }
        ensures level { other.old.phase ≤ self.old.phase }
        ensures this { (self.new.stage ≡ self.old.stage) × (self.new.task ≡ self.old.task)
            × (self.new.phase ≡ self.old.phase) × (self.new.seat.table_id ≡ self.old.seat.table_id)
            × (self.new.seat.me.0 ≡ told self.old.seat.me.0 (note_of other.old.seat.me.0)) }
        ensures other { (other.new.stage ≡ other.old.stage) × (other.new.task ≡ other.old.task)
            × (other.new.phase ≡ other.old.phase) × (other.new.seat.table_id ≡ other.old.seat.table_id)
            × (other.new.seat.me.0 ≡ other.old.seat.me.0) }
        ensures kept { (self.new.kept ≡ self.old.kept) × (other.new.kept ≡ other.old.kept) }
    {
        let shared = &self.board.shared;
        let note = shared.split_seat::<Note>(&mut other.seat);
        shared.join_seat::<Hear>(&mut self.seat, note);
        shared.load::<Heed>(&mut self.seat, COUNT);
    }
}
