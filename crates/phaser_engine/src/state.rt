//! A phaser's state, and the calls on it. Each call asks first what it is answered, then writes.
ghost use Rattle.std.specs.Prelude.{◌≡◌, ◌<◌, ◌≤◌, false, [], true, length, is_some, IfOk, IfErr, IfSome, Some, slice_get};
ghost use Rattle.std.specs.Option.{option_map};
ghost use Rattle.phase_modes.specs.Reg.{maker_reg};
ghost use Rattle.phase_model.specs.Ordering.{IsOrdered};
ghost use Rattle.phase_model.specs.Phases.{is_closed};
ghost use Rattle.phase_model.specs.Rules.{is_full, is_legal};
ghost use Rattle.phase_model.specs.Tasks.{is_registered, live_count};
ghost use Rattle.phase_model.specs.Values.{fold, sent};
ghost use Rattle.phase_model.specs.declared.call.Call.TheVariants.{Make as make, Register as register, Signal as signal, Pass as pass, SingleDone as single_done, Send as send, Look as look, Drop as drop_task};
ghost use Rattle.phase_model.specs.Replies.{reply, after, done_result};
ghost use Rattle.phaser_engine.specs.Table.{can_count, IsWideEnough};
ghost use Rattle.acc_cells.specs.Cells.{IsInReach};
ghost use Rattle.phaser_engine.specs.Turns.{IsEarly};
ghost use Rattle.phaser_engine.specs.Window.{is_needed};
ghost use Rattle.phase_model.specs.Answers.{signal_result, pass_result, look_result, made_with};
ghost use Rattle.told_history.specs.Wide.{limits_of};

mod answers;
mod lines;
mod registered;
mod waits;

use crate::roll::Roll;
use crate::turn::{Turn, Unmade};
use crate::view::{View, has_room, view_of};
use acc_cells::Cells;
use phase_model::{Bound, LongLook, LongPassing, Ops, Passing, Signalling, Terms};
use phase_modes::{LongReg, Mode, Refusal};
use reg_table::{Comparisons, Entry, TaskNumber};
use single_state::Single;
use std::alloc::Global;
use std::marker::Model;
use told_history::{LongEvent, LongLimits, Told};

/// A phaser: who is registered on it, what was sent to it, its last single, and how much was done on
/// it. Contracts see all that was done, how many comparisons of task numbers the last call made, and
/// for how many phases at a time it keeps what was folded.
#[derive(Drop)]
pub struct Engine {
    /// Who is registered, how far each has come, and what each has sent and not yet signalled.
    table: Roll,
    /// The single that was proposed last.
    single: Single,
    /// What was folded, by accumulator and phase.
    cells: Cells,
    /// Every event since the phaser was made: for the proofs, the events; at run time, how many.
    history: Told,
    /// How many comparisons of task numbers the last call made.
    compared: Comparisons,
}

impl Model for Engine {
    ghost use Rattle.phaser_engine.specs.Phaser.{Working};
    ghost use Rattle.phaser_engine.specs.Table.{IsState};

    ghost Value = { Working };

    ghost view = { λ p. record { story = p.history; compared = p.compared; room = p.cells.room } };

    ghost invariant = { λ p. IsState p.history p.table p.single p.cells };
}

impl Engine {
    /// A phaser that nobody has made yet, with these limits, the operators of its accumulators, and
    /// its bound, if it has one. What was folded is kept for so many phases at a time. All memory
    /// that it will ever need is taken here; `Memory` if that is refused.
    pub fn new(
        alloc: Global,
        limits: LongLimits,
        ops: Ops,
        bound: Option<Bound>,
        room: u32,
    ) -> Result<Engine, Refusal>
        requires counts { can_count (limits_of limits) ≡ true }
        requires some { 0 < room }
        requires wide { IsWideEnough (limits_of limits) (record { ops = ops; bound = bound }) room }
        ensures empty { IfOk result (λ p. p.story ≡ record { limits = limits_of limits; terms = record { ops = ops; bound = bound }; past = [] }) }
        ensures compared { IfOk result (λ p. p.compared ≡ 0) }
        ensures room { IfOk result (λ p. p.room ≡ room) }
        ensures memory { IfErr result (λ r. r ≡ Refusal.Memory) }
    {
        let history = Told::new(limits, ops, bound);
        let cells = Cells::new(alloc, history.ops(), room)?;
        // Last, since it is the dearest to give back if another gets no memory.
        let table = Roll::new(alloc)?;
        Ok(Engine {
            table,
            single: Single::new(),
            cells,
            history,
            compared: Comparisons::none(),
        })
    }

    /// Fixes what a phaser is made with that nobody has made yet.
    fn set_terms(&mut self, terms: Terms)
        requires new { self.old.story.past ≡ [] }
        requires whole { self.old.story.limits.history ≤ self.old.room }
        ensures story { self.new.story ≡ record { limits = self.old.story.limits; terms = terms; past = [] } }
        ensures compared { self.new.compared ≡ self.old.compared }
        ensures room { self.new.room ≡ self.old.room }
    {
        self.cells.set_ops(terms.ops);
        self.history.set_terms(terms);
    }

    /// Makes the phaser with these operators of its accumulators and this bound, and registers its
    /// maker at phase 0.
    ///
    /// Refused, in this order: `NotNow` if it is made already, `TasksFull`.
    pub fn make_with(
        &mut self,
        task: u64,
        mode: Mode,
        ops: Ops,
        bound: Option<Bound>,
    ) -> Result<(), Refusal>
        requires whole { self.old.story.limits.history ≤ self.old.room }
        ensures reply { result ≡ done_result (reply self.old.story (make task mode)) }
        ensures history { self.new.story
            ≡ made_with self.old.story (record { ops = ops; bound = bound })
            (reply self.old.story (make task mode)) }
        ensures compared { self.new.compared ≡ 0 }
        ensures room { self.new.room ≡ self.old.room }
    {
        self.compared = Comparisons::none();
        let view = view_of!(self);
        view.may_make(task, mode)?;
        self.set_terms(Terms { ops, bound });
        self.make(task, mode)
    }

    /// Makes the phaser, and registers its maker at phase 0.
    ///
    /// Refused, in this order: `NotNow` if it is made already, `TasksFull`.
    pub fn make(&mut self, task: u64, mode: Mode) -> Result<(), Refusal>
        ensures reply { result ≡ done_result (reply self.old.story (make task mode)) }
        ensures history { self.new.story ≡ after self.old.story (reply self.old.story (make task mode)) }
        ensures compared { self.new.compared ≡ 0 }
        ensures room { self.new.room ≡ self.old.room }
    {
        self.compared = Comparisons::none();
        let view = view_of!(self);
        view.may_make(task, mode)?;
        self.history.add(LongEvent::Make(task, mode));
        self.table.insert(0, maker(task, mode));
        Ok(())
    }

    /// Registers a child where its parent stands. A task is registered once in a run, also after a
    /// drop; whoever calls knows whether the child's number was ever registered.
    ///
    /// Refused, in this order: `NotRegistered` (the parent), `MoreThanParent`, `TasksFull`,
    /// `RegisteredTwice`, `RegsFull`, `HistoryFull`.
    pub fn register(
        &mut self,
        parent: u64,
        child: u64,
        mode: Mode,
        is_known: bool,
    ) -> Result<(), Refusal>
        requires known { is_known ≡ is_registered child self.old.story.past }
        ensures reply { result ≡ done_result (reply self.old.story (register parent child mode)) }
        ensures history { self.new.story
            ≡ after self.old.story (reply self.old.story (register parent child mode)) }
        ensures compared { self.new.compared ≤ 18 }
        ensures room { self.new.room ≡ self.old.room }
    {
        if self.register_last(parent, child, mode, is_known) {
            return Ok(());
        }
        self.register_anywhere(parent, child, mode, is_known)
    }

    /// Signals the task's phase; with a number it proposes the single of that number for it. It is
    /// not yet made while a waiter is as many phases behind as the phaser's bound says, or more.
    ///
    /// Refused, in this order: `NotRegistered`, `NoSignal`, `NoSingle` (with a number only),
    /// `AlreadySignalled`, `SingleMismatch`, then the reply is not yet (`NotYet`), then
    /// `HistoryFull`.
    #[inline(always)]
    pub fn signal(&mut self, task: u64, number: Option<u32>) -> Result<Signalling, Refusal>
        ensures reply { result ≡ signal_result (reply self.old.story (signal task number)) }
        ensures history { self.new.story ≡ after self.old.story (reply self.old.story (signal task number)) }
        ensures compared { self.new.compared ≤ 9 }
        ensures room { self.new.room ≡ self.old.room }
    {
        self.compared = Comparisons::none();
        let view = view_of!(self);
        let answer = view.may_signal(task, number, &mut self.compared);
        let signal = match answer {
            Ok(signal) => signal,
            Err(Unmade::Refused(refusal)) => return Err(refusal),
            Err(Unmade::Held) => return Ok(Signalling::NotYet),
        };
        self.history.add(LongEvent::Sig(task, number));
        self.table.fold(signal.place, signal.phase, &mut self.cells);
        let proposes = number.is_some();
        self.table.signal(signal.place, signal.phase, proposes);
        if proposes {
            self.single = signal.single;
        }
        Ok(Signalling::Signalled)
    }

    /// Asks to end the task's turn. A task that only signals waits for nobody; any other waits
    /// until its phase is closed and the phase's single, if one was proposed, is done. The first of
    /// the proposers that asks once the phase is closed claims the single instead.
    ///
    /// Refused, in this order: `NotRegistered`, `NotSignalled`, then the reply is not yet
    /// (`NotYet`), then `HistoryFull`.
    #[inline(always)]
    pub fn pass(&mut self, task: u64) -> Result<LongPassing, Refusal>
        ensures reply { result ≡ pass_result self.old.story.past (reply self.old.story (pass task)) }
        ensures early { IfOk result (λ x. IsEarly self.old.story.limits.history x) }
        ensures history { self.new.story ≡ after self.old.story (reply self.old.story (pass task)) }
        ensures compared { self.new.compared ≤ 9 }
        ensures room { self.new.room ≡ self.old.room }
    {
        self.compared = Comparisons::none();
        let view = view_of!(self);
        let answer = view.may_pass(task, &mut self.compared);
        match answer? {
            Turn::Waits => Ok(Passing::NotYet),
            Turn::Claims(single, number) => {
                self.history.add(LongEvent::Claim(task));
                self.single = single;
                Ok(Passing::Claimed(number))
            }
            Turn::Passes(place, phase) => {
                self.history.add(LongEvent::Pass(task));
                if self.table.pass(place) {
                    self.cells.release_below(phase);
                }
                Ok(Passing::Passed(phase))
            }
        }
    }

    /// Reports the single done that the task had claimed.
    ///
    /// Refused, in this order: `NotRegistered`, `NotNow` if the task isn't the claimer.
    pub fn single_done(&mut self, task: u64) -> Result<(), Refusal>
        ensures reply { result ≡ done_result (reply self.old.story (single_done task)) }
        ensures history { self.new.story ≡ after self.old.story (reply self.old.story (single_done task)) }
        ensures compared { self.new.compared ≤ 9 }
        ensures room { self.new.room ≡ self.old.room }
    {
        self.compared = Comparisons::none();
        let view = view_of!(self);
        let answer = view.may_report(task, &mut self.compared);
        let single = answer?;
        self.history.add(LongEvent::Did(task));
        self.single = single;
        Ok(())
    }

    /// Sends a value to an accumulator. It counts for the phase that the task hasn't signalled yet.
    ///
    /// Refused, in this order: `NotRegistered`, `NoSignal`, `NoAccumulator`, `HistoryFull`.
    pub fn send(&mut self, task: u64, accumulator: u8, value: i32) -> Result<(), Refusal>
        ensures reply { result ≡ done_result (reply self.old.story (send task accumulator value)) }
        ensures history { self.new.story
            ≡ after self.old.story (reply self.old.story (send task accumulator value)) }
        ensures compared { self.new.compared ≤ 9 }
        ensures room { self.new.room ≡ self.old.room }
    {
        self.compared = Comparisons::none();
        let view = view_of!(self);
        let answer = view.may_send(task, accumulator, value, &mut self.compared);
        let i = answer?;
        self.history.add(LongEvent::Send(task, accumulator, value));
        self.table.send(i, accumulator, value);
        Ok(())
    }

    /// What an accumulator holds of the values sent for the phase before the task's own.
    ///
    /// Refused, in this order: `NotRegistered`, `NoWait`, `NoAccumulator`, `NoPhaseYet`,
    /// `HistoryFull`.
    pub fn look(&mut self, task: u64, accumulator: u8) -> Result<LongLook, Refusal>
        ensures reply { result ≡ look_result (reply self.old.story (look task accumulator)) }
        ensures reach { IfOk result (λ x. IsInReach self.old.story.limits.history x) }
        ensures history { self.new.story
            ≡ after self.old.story (reply self.old.story (look task accumulator)) }
        ensures compared { self.new.compared ≤ 9 }
        ensures room { self.new.room ≡ self.old.room }
    {
        self.compared = Comparisons::none();
        let view = view_of!(self);
        let answer = view.may_look(&self.cells, task, accumulator, &mut self.compared);
        let seen = answer?;
        self.history.add(LongEvent::Look(task, accumulator, seen));
        Ok(seen)
    }

    /// Drops the task from the phaser. What it sent still counts, and its number stays known.
    ///
    /// Refused, in this order: `NotRegistered`, `NotNow` if the task proposed a single that
    /// isn't done.
    pub fn drop_task(&mut self, task: u64) -> Result<(), Refusal>
        ensures reply { result ≡ done_result (reply self.old.story (drop_task task)) }
        ensures history { self.new.story ≡ after self.old.story (reply self.old.story (drop_task task)) }
        ensures compared { self.new.compared ≤ 9 }
        ensures room { self.new.room ≡ self.old.room }
    {
        if self.drop_last(task) {
            return Ok(());
        }
        self.drop_anywhere(task)
    }

    /// Whether each task that is registered now and can signal has signalled the phase.
    pub fn closed(&self, phase: u64) -> bool
        ensures { result ≡ is_closed phase self.now.story.past }
    {
        self.table.is_closed(phase)
    }

    /// How many tasks are registered now.
    pub fn registered(&self) -> usize
        ensures { result ≡ live_count self.now.story.past }
    {
        self.table.len()
    }

    /// Whether an event that registers nobody and proposes nothing has no room in the history.
    pub fn is_full(&self) -> bool
        ensures { result ≡ is_full self.now.story.limits self.now.story.past }
    {
        !has_room(&self.history, self.table.len(), self.single.reserve())
    }

    /// What the values sent to an accumulator for a closed phase fold to; of a phase that isn't
    /// closed it is what was folded so far. None if there is no such accumulator, or the phase
    /// is not below the limit of the history's events, so that no value can be sent for it, or it
    /// is given up. A phase is given up only once each live task that can wait has passed the phase
    /// after it.
    pub fn fold_at(&self, accumulator: u8, phase: u64) -> Option<LongLook>
        ensures accumulator { IfSome result (λ x. accumulator < length self.now.story.terms.ops) }
        ensures phase { IfSome result (λ x. phase < self.now.story.limits.history) }
        ensures kept { accumulator < length self.now.story.terms.ops → phase < self.now.story.limits.history
            → is_needed phase self.now.story.past ≡ true → is_some result ≡ true }
        ensures fold { IfSome result (λ x. is_closed phase self.now.story.past ≡ true → Some x
            ≡ option_map (λ op. fold op (sent accumulator phase self.now.story.past))
            (slice_get self.now.story.terms.ops accumulator)) }
        ensures reach { IfSome result (λ x. IsInReach self.now.story.limits.history x) }
    {
        if phase >= self.history.limits().history {
            return None;
        }
        self.cells.fold_at(accumulator, phase)
    }

    /// How many comparisons of task numbers the last call made that changes the phaser: at most 9
    /// for each registration that it looked up. `make` looks up none, and `register` two.
    pub fn compared(&self) -> u32
        ensures { result ≡ self.now.compared }
    {
        self.compared.made()
    }

    /// All that was done on the phaser. It is legal, and no wait in it passed a phase before every
    /// signaller, registered then or later, had signalled it.
    pub fn history(&self) -> &Told
        ensures history { result.now ≡ self.now.story }
        ensures legal { is_legal self.now.story.limits self.now.story.terms self.now.story.past ≡ true }
        ensures ordered { IsOrdered self.now.story.past }
    {
        &self.history
    }
}

/// The maker's line.
fn maker(task: u64, mode: Mode) -> Entry
    ensures { result ≡ record { task = task; reg = maker_reg mode; proposed = false } }
{
    Entry {
        task: TaskNumber::of(task),
        reg: LongReg {
            mode,
            phase: 0,
            ahead: false,
        },
        proposed: false,
    }
}
