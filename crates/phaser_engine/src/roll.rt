//! The roll: a line for each live task, sorted by task number, and where the hindmost signallers and
//! the hindmost waiters stand, so that a phase's closing, and which phase may still be read, is
//! asked at the same cost however many tasks there are. The lines are gone through only if the
//! last one leaves the least phase: in a barrier that is once a phase, a line for each call.
ghost use Rattle.std.specs.Prelude.{◌≡◌, ◌+◌, ◌-◌, ◌==◌, ◌<◌, ◌≤◌, ◌^◌, ℕ, [], true, false, length, Some, IfNone, IfSome, IfOk, IfErr, slice_get, slice_set, slice_index_or, insert, remove, List, ℤ};
ghost use Rattle.std.specs.List.{list_any, list_all};
ghost use Rattle.reg_table.specs.Lines.{IsPlaceFor, HasNext, HaveNext, line_signalled, line_passed};
ghost use Rattle.acc_cells.specs.Cells.{no_partial, held, HoldsOnly, Holds, StandsFor, sums_taken, with_taken, from_after, most_values};
ghost use Rattle.phaser_engine.specs.Lazy.{partial_with};
ghost use Rattle.phaser_engine.specs.Line.{has_signalled, has_passed, is_within, is_waiter_past, stands_at, waits_at, signallers_at, waiters_at, IsToSignal, IsToPass};
ghost use Rattle.phaser_engine.specs.Rears.{IsRear};

use crate::line_partials::LinePartials;
use crate::rear::Rear;
use acc_cells::Cells;
use phase_model::Bound;
use phase_modes::{LongReg, Refusal};
use reg_table::{Comparisons, Entry, Table};
use std::alloc::Global;
use std::marker::Model;

/// The roll. Contracts see its lines, and what their tasks hold back.
#[derive(Drop)]
pub(crate) struct Roll {
    table: Table,
    /// Where the signallers stand that have signalled least.
    signallers: Rear,
    /// Where the waiters stand that have passed least.
    waiters: Rear,
    /// What each line's task has sent and not yet signalled.
    partials: LinePartials,
}

impl Model for Roll {
    ghost use Rattle.std.specs.Prelude.{◌≡◌, length};
    ghost use Rattle.phaser_engine.specs.Line.{Lines, IsRoll};

    ghost Value = { Lines };

    ghost view = { λ r.
        record { lines = r.table; partials = r.partials } };

    ghost invariant = { λ r. IsRoll r.table r.signallers r.waiters
        × (length r.partials ≡ length r.table) };
}

impl Roll {
    /// An empty roll. All its memory is taken here; `Memory` if that is refused.
    pub(crate) fn new(alloc: Global) -> Result<Roll, Refusal>
        ensures lines { IfOk result (λ r. r.lines ≡ []) }
        ensures partials { IfOk result (λ r. r.partials ≡ []) }
        ensures memory { IfErr result (λ r. r ≡ Refusal.Memory) }
    {
        let table = Table::new(alloc)?;
        let partials = LinePartials::new(alloc)?;
        Ok(Roll {
            table,
            signallers: Rear::nobody(),
            waiters: Rear::nobody(),
            partials,
        })
    }

    /// How many lines there are.
    pub(crate) fn len(&self) -> usize
        ensures { result ≡ length self.now.lines }
    {
        self.table.len()
    }

    /// Where the task's line stands, and what it is.
    pub(crate) fn find(&self, task: u64, comparisons: &mut Comparisons) -> Option<(usize, Entry)>
        requires { comparisons.old + 9 < 2 ^ 32 }
        ensures none { IfNone result (list_any (λ e. e.task == task) self.now.lines ≡ false) }
        ensures some { IfSome result (λ r. slice_get self.now.lines r.0 ≡ Some r.1) }
        ensures task { IfSome result (λ r. r.1.task ≡ task) }
        ensures count { comparisons.new ≤ comparisons.old + 9 }
    {
        self.table.find(task, comparisons)
    }

    /// Where the task's line stands, and what it is: as `find` looks if nothing was compared
    /// yet, else by halving alone, since what was compared was a guess.
    pub(crate) fn find_after_guess(
        &self,
        task: u64,
        comparisons: &mut Comparisons,
    ) -> Option<(usize, Entry)>
        requires { comparisons.old + 9 < 2 ^ 32 }
        ensures none { IfNone result (list_any (λ e. e.task == task) self.now.lines ≡ false) }
        ensures some { IfSome result (λ r. slice_get self.now.lines r.0 ≡ Some r.1) }
        ensures task { IfSome result (λ r. r.1.task ≡ task) }
        ensures count { comparisons.new ≤ comparisons.old + 9 }
        ensures guessed { 0 < comparisons.old → length self.now.lines < 256
            → comparisons.new ≤ comparisons.old + 8 }
    {
        if comparisons.made() == 0 {
            self.table.find(task, comparisons)
        } else {
            self.table.find_by_halving(task, comparisons)
        }
    }

    /// The line where `find` looks first, if that is the task's.
    #[inline(always)]
    pub(crate) fn guess(&self, task: u64, comparisons: &mut Comparisons) -> Option<(usize, Entry)>
        requires { comparisons.old + 1 < 2 ^ 32 }
        ensures some { IfSome result (λ r. slice_get self.now.lines r.0 ≡ Some r.1) }
        ensures task { IfSome result (λ r. r.1.task ≡ task) }
        ensures count { comparisons.new ≤ comparisons.old + 1 }
    {
        self.table.guess(task, comparisons)
    }

    /// The last line, if it is the task's.
    #[inline(always)]
    pub(crate) fn last_of(&self, task: u64, comparisons: &mut Comparisons) -> Option<Entry>
        requires { comparisons.old + 1 < 2 ^ 32 }
        ensures some { IfSome result (λ e. slice_get self.now.lines (length self.now.lines - 1) ≡ Some e) }
        ensures task { IfSome result (λ e. e.task ≡ task) }
        ensures count { comparisons.new ≤ comparisons.old + 1 }
    {
        self.table.last_of(task, comparisons)
    }

    /// Whether the line of a task would stand behind all others.
    #[inline(always)]
    pub(crate) fn comes_last(&self, task: u64, comparisons: &mut Comparisons) -> bool
        requires { comparisons.old + 1 < 2 ^ 32 }
        ensures last { result ≡ true → IsPlaceFor task self.now.lines (length self.now.lines) }
        ensures count { comparisons.new ≤ comparisons.old + 1 }
    {
        self.table.comes_last(task, comparisons)
    }

    /// Where the line of a task would stand that has none.
    pub(crate) fn place_for(&self, task: u64, comparisons: &mut Comparisons) -> usize
        requires counted { comparisons.old + 9 < 2 ^ 32 }
        requires absent { list_any (λ e. e.task == task) self.now.lines ≡ false }
        ensures place { IsPlaceFor task self.now.lines result }
        ensures count { comparisons.new ≤ comparisons.old + 9 }
        ensures few { length self.now.lines < 256 → comparisons.new ≤ comparisons.old + 8 }
    {
        self.table.place_for(task, comparisons)
    }

    /// The line at a place.
    pub(crate) fn get(&self, place: usize) -> Entry
        requires { place < length self.now.lines }
        ensures line { slice_get self.now.lines place ≡ Some result }
        ensures next { HasNext result.reg }
    {
        self.table.get(place)
    }

    /// Whether each signaller has signalled the phase.
    pub(crate) fn is_closed(&self, phase: u64) -> bool
        ensures { result ≡ list_all (λ e. has_signalled phase e.reg) self.now.lines }
    {
        match self.signallers.least() {
            Some(least) => phase < least,
            None => true,
        }
    }

    /// Whether each waiter is fewer phases behind this one than the bound says.
    pub(crate) fn is_within(&self, bound: Bound, phase: u64) -> bool
        ensures { result ≡ is_within (Some bound) phase self.now.lines }
    {
        match self.waiters.least() {
            Some(least) => phase.saturating_sub(least) < u64::from(bound.phases()),
            None => true,
        }
    }

    /// The first phase that a waiter may still look at, or an earlier one: each waiter has passed
    /// it, if it isn't 0.
    pub(crate) fn needed_from(&self) -> u64
        ensures each { 0 < result → list_all (λ e. has_passed result e.reg) self.now.lines ≡ true }
        ensures some { 0 < result → list_any (λ e. is_waiter_past result e.reg) self.now.lines ≡ true }
    {
        match self.waiters.least() {
            Some(least) => least.saturating_sub(1),
            None => 0,
        }
    }

    /// Puts a new line behind all others.
    #[inline(always)]
    pub(crate) fn push(&mut self, entry: Entry)
        requires room { length self.old.lines < 256 }
        requires place { IsPlaceFor entry.task self.old.lines (length self.old.lines) }
        requires next { HasNext entry.reg }
        ensures lines { self.new.lines ≡ insert self.old.lines (length self.old.lines) entry }
        ensures partials { self.new.partials
            ≡ insert self.old.partials (length self.old.lines) no_partial }
    {
        let reg = entry.reg;
        self.table.push(entry);
        self.signallers = with_signaller(self.signallers, reg);
        self.waiters = with_waiter(self.waiters, reg);
        self.partials.push();
    }

    /// Takes the last line out, if its task holds nothing back and no least phase moves by it.
    /// Returns whether it did.
    #[inline(always)]
    pub(crate) fn pop(&mut self) -> bool
        requires { 0 < length self.old.lines }
        ensures empty { result ≡ true
            → slice_index_or self.old.partials (length self.old.lines - 1) no_partial ≡ no_partial }
        ensures lines { result ≡ true
            → self.new.lines ≡ remove self.old.lines (length self.old.lines - 1) }
        ensures partials { result ≡ true
            → self.new.partials ≡ remove self.old.partials (length self.old.lines - 1) }
        ensures stays { result ≡ false → self.new ≡ self.old }
    {
        let last = self.table.len() - 1;
        let reg = self.table.get(last).reg;
        if !self.partials.is_empty(last) {
            return false;
        }
        let Some(signallers) = without_signaller(self.signallers, reg) else {
            return false;
        };
        let Some(waiters) = without_waiter(self.waiters, reg) else {
            return false;
        };
        self.table.pop();
        self.signallers = signallers;
        self.waiters = waiters;
        self.partials.pop();
        true
    }

    /// Puts a new line at its place.
    pub(crate) fn insert(&mut self, place: usize, entry: Entry)
        requires room { length self.old.lines < 256 }
        requires place { IsPlaceFor entry.task self.old.lines place }
        requires next { HasNext entry.reg }
        ensures lines { self.new.lines ≡ insert self.old.lines place entry }
        ensures partials { self.new.partials ≡ insert self.old.partials place no_partial }
    {
        let reg = entry.reg;
        self.table.insert(place, entry);
        self.signallers = with_signaller(self.signallers, reg);
        self.waiters = with_waiter(self.waiters, reg);
        self.partials.insert(place);
    }

    /// Writes that the task of a line has signalled this phase, and whether it proposed.
    pub(crate) fn signal(&mut self, place: usize, phase: u64, proposes: bool)
        requires place { place < length self.old.lines }
        requires line { (line : Entry) → slice_get self.old.lines place ≡ Some line
            → IsToSignal phase line.reg }
        ensures lines { (line : Entry) → slice_get self.old.lines place ≡ Some line
            → self.new.lines ≡ slice_set self.old.lines place (line_signalled line proposes) }
        ensures partials { self.new.partials ≡ self.old.partials }
    {
        self.table.signal(place, proposes);
        let known = self.signallers.without(phase);
        self.signallers = hindmost_signallers(known, self.table.lines());
    }

    /// Writes that the task of a line has passed. What it has signalled doesn't change. Returns
    /// whether it was the last waiter of its phase, and none is behind: each waiter has passed it
    /// now.
    pub(crate) fn pass(&mut self, place: usize) -> bool
        requires place { place < length self.old.lines }
        requires line { (line : Entry) → slice_get self.old.lines place ≡ Some line
            → IsToPass line.reg }
        ensures lines { (line : Entry) → slice_get self.old.lines place ≡ Some line
            → self.new.lines ≡ slice_set self.old.lines place (line_passed line) }
        ensures partials { self.new.partials ≡ self.old.partials }
        ensures each { (line : Entry) → slice_get self.old.lines place ≡ Some line → result ≡ true
            → list_all (λ e. has_passed line.reg.phase e.reg) self.new.lines ≡ true }
        ensures some { (line : Entry) → slice_get self.old.lines place ≡ Some line → result ≡ true
            → list_any (λ e. is_waiter_past line.reg.phase e.reg) self.new.lines ≡ true }
    {
        let reg = self.table.get(place).reg;
        self.table.pass(place);
        if !reg.mode.can_wait() {
            return false;
        }
        let known = self.waiters.without(reg.phase);
        self.waiters = hindmost_waiters(known, self.table.lines());
        known.is_none()
    }

    /// Takes a line out whose task holds nothing back. Returns whether `needed_from` is to be asked
    /// again: it is as it was where the least phase of the waiters is.
    pub(crate) fn remove(&mut self, place: usize) -> bool
        requires place { place < length self.old.lines }
        requires empty { slice_index_or self.old.partials place no_partial ≡ no_partial }
        ensures lines { self.new.lines ≡ remove self.old.lines place }
        ensures partials { self.new.partials ≡ remove self.old.partials place }
    {
        let before = self.table.get(place).reg;
        self.table.remove(place);
        self.partials.remove(place);
        let signallers = without_signaller(self.signallers, before);
        self.signallers = hindmost_signallers(signallers, self.table.lines());
        let waiters = without_waiter(self.waiters, before);
        self.waiters = hindmost_waiters(waiters, self.table.lines());
        waiters.is_none()
    }

    /// Keeps a value that the task of a line sends, until it is folded.
    pub(crate) fn send(&mut self, place: usize, accumulator: u8, value: i32)
        requires place { place < length self.old.lines }
        requires accumulator { accumulator < 4 }
        requires room { held (slice_index_or self.old.partials place no_partial) < most_values }
        ensures lines { self.new.lines ≡ self.old.lines }
        ensures partials { self.new.partials
            ≡ slice_set self.old.partials place
            (partial_with accumulator value (slice_index_or self.old.partials place no_partial)) }
    {
        self.partials.send(place, accumulator, value);
    }

    /// Folds what the task of a line sent into the cells of a phase.
    #[inline(always)]
    pub(crate) fn fold(&mut self, place: usize, phase: u64, cells: &mut Cells)
        requires place { place < length self.old.lines }
        requires known { HoldsOnly (length cells.old.ops)
            (slice_index_or self.old.partials place no_partial) }
        requires room { cells.old.sums.values
            + held (slice_index_or self.old.partials place no_partial) ≤ most_values }
        ensures lines { self.new.lines ≡ self.old.lines }
        ensures partials { self.new.partials ≡ slice_set self.old.partials place no_partial }
        ensures ops { cells.new.ops ≡ cells.old.ops }
        ensures cell_room { cells.new.room ≡ cells.old.room }
        ensures from { cells.new.from
            ≡ from_after (held (slice_index_or self.old.partials place no_partial)) phase cells.old }
        ensures sums { cells.new.sums
            ≡ sums_taken (slice_index_or self.old.partials place no_partial) cells.old.sums }
        ensures cells { (values : ℕ → ℕ → List ℤ) → (mine : ℕ → List ℤ) → StandsFor cells.old values
            → Holds (slice_index_or self.old.partials place no_partial) mine
            → StandsFor cells.new (with_taken phase mine values) }
    {
        self.partials.fold(place, phase, cells);
    }
}

/// Where the hindmost signallers stand with one more registration, if it can signal.
#[inline(always)]
fn with_signaller(signallers: Rear, reg: LongReg) -> Rear
    requires few { signallers.count + 1 < 2 ^ 32 }
    requires next { HasNext reg }
    ensures { (before after : ℕ → ℕ) → IsRear before signallers
        → ((n : ℕ) → after n ≡ before n + stands_at n reg) → IsRear after result }
{
    if reg.mode.can_signal() {
        signallers.with(reg.signals())
    } else {
        signallers
    }
}

/// Where they stand without it. None if it was the last there: whoever comes next has to be
/// looked for.
#[inline(always)]
fn without_signaller(signallers: Rear, reg: LongReg) -> Option<Rear>
    requires { HasNext reg }
    ensures { IfSome result (λ rear. (before after : ℕ → ℕ) → IsRear before signallers
        → ((n : ℕ) → after n + stands_at n reg ≡ before n) → IsRear after rear) }
{
    if reg.mode.can_signal() {
        signallers.without(reg.signals())
    } else {
        Some(signallers)
    }
}

/// Where the hindmost signallers of the lines stand. They are looked for if it isn't known.
#[inline(always)]
fn hindmost_signallers(known: Option<Rear>, lines: &[Entry]) -> Rear
    requires few { length lines.now ≤ 256 }
    requires next { HaveNext lines.now }
    requires known { IfSome known (λ rear. IsRear (signallers_at lines.now) rear) }
    ensures { IsRear (signallers_at lines.now) result }
{
    match known {
        Some(rear) => rear,
        None => rear_of_signallers(lines),
    }
}

/// Where the hindmost signallers of the lines stand: each line is read once.
#[cold]
#[inline(never)]
fn rear_of_signallers(lines: &[Entry]) -> Rear
    requires few { length lines.now ≤ 256 }
    requires next { HaveNext lines.now }
    ensures { IsRear (signallers_at lines.now) result }
{
    let mut rear = Rear::nobody();
    for line in lines {
        rear = with_signaller(rear, line.reg);
    }
    rear
}

/// Where the hindmost waiters stand with one more registration, if it can wait.
#[inline(always)]
fn with_waiter(waiters: Rear, reg: LongReg) -> Rear
    requires { waiters.count + 1 < 2 ^ 32 }
    ensures { (before after : ℕ → ℕ) → IsRear before waiters
        → ((n : ℕ) → after n ≡ before n + waits_at n reg) → IsRear after result }
{
    if reg.mode.can_wait() {
        waiters.with(reg.phase)
    } else {
        waiters
    }
}

/// Where they stand without it. None if it was the last there: whoever comes next has to be
/// looked for.
#[inline(always)]
fn without_waiter(waiters: Rear, reg: LongReg) -> Option<Rear>
    ensures { IfSome result (λ rear. (before after : ℕ → ℕ) → IsRear before waiters
        → ((n : ℕ) → after n + waits_at n reg ≡ before n) → IsRear after rear) }
{
    if reg.mode.can_wait() {
        waiters.without(reg.phase)
    } else {
        Some(waiters)
    }
}

/// Where the hindmost waiters of the lines stand. They are looked for if it isn't known.
#[inline(always)]
fn hindmost_waiters(known: Option<Rear>, lines: &[Entry]) -> Rear
    requires few { length lines.now ≤ 256 }
    requires known { IfSome known (λ rear. IsRear (waiters_at lines.now) rear) }
    ensures { IsRear (waiters_at lines.now) result }
{
    match known {
        Some(rear) => rear,
        None => rear_of_waiters(lines),
    }
}

/// Where the hindmost waiters of the lines stand: each line is read once.
#[cold]
#[inline(never)]
fn rear_of_waiters(lines: &[Entry]) -> Rear
    requires { length lines.now ≤ 256 }
    ensures { IsRear (waiters_at lines.now) result }
{
    let mut rear = Rear::nobody();
    for line in lines {
        rear = with_waiter(rear, line.reg);
    }
    rear
}
