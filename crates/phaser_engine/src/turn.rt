//! What `signal`, `pass` and `single_done` are answered, read off the table and the last single.
//! Nothing is changed here.
ghost use Rattle.std.specs.Prelude.{◌≡◌, ◌<◌, ◌≤◌, ◌+◌, ◌^◌, ◌&&◌, ◌||◌, not, is_some, Some, slice_get, IfOk, IfErr, IfSome, MatchOption, ◌∷◌, false, true};
ghost use Rattle.phase_modes.specs.Mode.{can_single};
ghost use Rattle.phase_model.specs.Phases.{waits};
ghost use Rattle.phase_model.specs.declared.call.Call.TheVariants.{Signal as signal, Pass as pass, SingleDone as single_done};
ghost use Rattle.phase_model.specs.Replies.{reply, refused, done};
ghost use Rattle.phase_model.specs.Rules.{is_permitted};
ghost use Rattle.single_state.specs.Single.{MayPropose};
ghost use Rattle.phaser_engine.specs.Table.{IsLastSingle, entry_of};
ghost use Rattle.phaser_engine.specs.Turns.{proposing, claiming, unmade, IsTurn};

use crate::roll::Roll;
use crate::view::{View, has_room, has_to_wait, keeps_within, owes_signal};
use phase_model::Event;
use phase_modes::{Mode, Refusal};
use reg_table::{Comparisons, Entry};
use single_state::Single;

/// Whether a number is proposed in a mode that proposes none.
fn is_no_single(mode: Mode, number: Option<u32>) -> bool
    ensures { result ≡ (is_some number && not (can_single mode)) }
{
    number.is_some() && !mode.can_single()
}

/// The last single with the number proposed, if there is one.
fn with_proposal(single: Single, phase: u64, number: Option<u32>) -> Result<Single, Refusal>
    requires { IfSome number (λ n. MayPropose single phase) }
    ensures { result ≡ proposing single phase number }
{
    let mut after = single;
    if let Some(number) = number {
        after.propose(phase, number)?;
    }
    Ok(after)
}

/// Why a signal isn't made.
#[derive(Clone, Copy)]
pub(crate) enum Unmade {
    /// It is refused.
    Refused(Refusal),
    /// It isn't within the phaser's bound yet.
    Held,
}

/// A signal that may be made.
#[derive(Clone, Copy)]
pub(crate) struct Signal {
    /// Where the task's line stands.
    pub(crate) place: usize,
    /// The phase that it signals.
    pub(crate) phase: u64,
    /// The last single after that.
    pub(crate) single: Single,
}

impl View<'_> {
    /// The signal of a task that may signal.
    // Inlined: what it returns is larger than a register, and each signal asks for it.
    #[inline(always)]
    pub(crate) fn may_signal(
        &self,
        task: u64,
        number: Option<u32>,
        comparisons: &mut Comparisons,
    ) -> Result<Signal, Unmade>
        requires counted { comparisons.old + 9 < 2 ^ 32 }
        ensures refused { IfErr result (λ why. reply self.now.history.now (signal task number) ≡ unmade why) }
        ensures done { IfOk result (λ x. reply self.now.history.now (signal task number)
            ≡ done (Event.Sig task number)) }
        ensures place { IfOk result (λ x. slice_get self.now.table.now.lines x.place
            ≡ Some (entry_of self.now.history.now.past task)) }
        ensures phase { IfOk result (λ x. x.phase ≡ waits task self.now.history.now.past) }
        ensures single { IfOk result (λ x.
            IsLastSingle x.single (Event.Sig task number ∷ self.now.history.now.past)) }
        ensures same { IfOk result (λ x. is_some number ≡ false → x.single ≡ self.now.single) }
        ensures count { comparisons.new ≤ comparisons.old + 9 }
    {
        let Some((place, entry)) = self.table.find(task, comparisons) else {
            return Err(Unmade::Refused(Refusal::NotRegistered));
        };
        let reg = entry.reg;
        if !reg.mode.can_signal() {
            return Err(Unmade::Refused(Refusal::NoSignal));
        }
        if is_no_single(reg.mode, number) {
            return Err(Unmade::Refused(Refusal::NoSingle));
        }
        if reg.ahead {
            return Err(Unmade::Refused(Refusal::AlreadySignalled));
        }
        let Ok(after) = with_proposal(self.single, reg.phase, number) else {
            return Err(Unmade::Refused(Refusal::SingleMismatch));
        };
        if !keeps_within(self.table, self.history.bound(), reg.phase) {
            return Err(Unmade::Held);
        }
        if !has_room(self.history, self.table.len(), after.reserve()) {
            return Err(Unmade::Refused(Refusal::HistoryFull));
        }
        Ok(Signal {
            place,
            phase: reg.phase,
            single: after,
        })
    }
}

/// How a task's turn goes on.
#[derive(Clone, Copy)]
pub(crate) enum Turn {
    /// It passes: where its line stands, and the phase.
    Passes(usize, u64),
    /// It claims the single with this number, and this is the last single after that.
    Claims(Single, u32),
    /// It may not pass yet.
    Waits,
}

/// The last single with a claim of the task; none if it may claim nothing.
fn with_claim(table: &Roll, single: Single, task: u64, entry: Entry) -> Option<Single>
    requires { entry.task ≡ task }
    ensures { result ≡ claiming table.now.lines single entry }
{
    if !entry.proposed {
        return None;
    }
    if !table.is_closed(entry.reg.phase) {
        return None;
    }
    let mut after = single;
    match after.claim(entry.reg.phase, task) {
        Ok(()) => Some(after),
        Err(_) => None,
    }
}

impl View<'_> {
    /// How the task's turn goes on.
    // Inlined, as `may_signal` is.
    #[inline(always)]
    pub(crate) fn may_pass(&self, task: u64, comparisons: &mut Comparisons) -> Result<Turn, Refusal>
        requires counted { comparisons.old + 9 < 2 ^ 32 }
        ensures refused { IfErr result (λ r. reply self.now.history.now (pass task) ≡ refused r) }
        ensures turn { IfOk result (IsTurn self.now.history.now self.now.table.now.lines task) }
        ensures count { comparisons.new ≤ comparisons.old + 9 }
    {
        let Some((i, entry)) = self.table.find(task, comparisons) else {
            return Err(Refusal::NotRegistered);
        };
        let reg = entry.reg;
        if owes_signal(reg) {
            return Err(Refusal::NotSignalled);
        }
        if let Some(after) = with_claim(self.table, self.single, task, entry) {
            let number = self.single.number(reg.phase).unwrap_or(0);
            return Ok(Turn::Claims(after, number));
        }
        if has_to_wait(self.table, self.single, reg) {
            return Ok(Turn::Waits);
        }
        if !has_room(self.history, self.table.len(), self.single.reserve()) {
            return Err(Refusal::HistoryFull);
        }
        Ok(Turn::Passes(i, reg.phase))
    }

    /// Whether the task may claim the single of its phase.
    pub(crate) fn is_claimer(&self, task: u64, comparisons: &mut Comparisons) -> bool
        requires { comparisons.old + 9 < 2 ^ 32 }
        ensures claims { result
            ≡ is_permitted self.now.history.now.limits self.now.history.now.terms self.now.history.now.past
            (Event.Claim task) }
        ensures count { comparisons.new ≤ comparisons.old + 9 }
    {
        match self.table.find(task, comparisons) {
            Some((_, entry)) => with_claim(self.table, self.single, task, entry).is_some(),
            None => false,
        }
    }

    /// Whether the task may report the single done that it claimed.
    pub(crate) fn is_reporter(&self, task: u64, comparisons: &mut Comparisons) -> bool
        requires { comparisons.old + 9 < 2 ^ 32 }
        ensures reports { result
            ≡ is_permitted self.now.history.now.limits self.now.history.now.terms self.now.history.now.past
            (Event.Did task) }
        ensures count { comparisons.new ≤ comparisons.old + 9 }
    {
        match self.may_report(task, comparisons) {
            Ok(_) => true,
            Err(_) => false,
        }
    }

    /// The last single after a task's report that may report.
    pub(crate) fn may_report(
        &self,
        task: u64,
        comparisons: &mut Comparisons,
    ) -> Result<Single, Refusal>
        requires counted { comparisons.old + 9 < 2 ^ 32 }
        ensures refused { IfErr result (λ r. reply self.now.history.now (single_done task) ≡ refused r) }
        ensures done { IfOk result (λ x. reply self.now.history.now (single_done task)
            ≡ done (Event.Did task)) }
        ensures single { IfOk result (λ x. IsLastSingle x (Event.Did task ∷ self.now.history.now.past)) }
        ensures count { comparisons.new ≤ comparisons.old + 9 }
    {
        let Some((_, entry)) = self.table.find(task, comparisons) else {
            return Err(Refusal::NotRegistered);
        };
        let mut after = self.single;
        match after.done(task) {
            Ok(()) => Ok(after),
            Err(_) => Err(Refusal::NotNow),
        }
    }
}
