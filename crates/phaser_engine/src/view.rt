//! The view: the roll beside what else calls are answered from, and what is asked of a line in it.
ghost use Rattle.std.specs.Prelude.{◌≡◌, ◌&&◌, ◌+◌, ◌-◌, not, ◌<◌, true, length, Some, nat_le};
ghost use Rattle.std.specs.List.{list_all};
ghost use Rattle.phase_modes.specs.Mode.{can_signal, can_wait};
ghost use Rattle.single_state.specs.Single.{may_pass};
ghost use Rattle.phaser_engine.specs.Line.{has_signalled, is_within};
ghost use Rattle.phaser_engine.specs.Table.{Stands, Stands-prop};

use crate::roll::Roll;
use phase_model::Bound;
use phase_modes::LongReg;
use reg_table::Entry;
use single_state::Single;
use told_history::Told;

/// Whether a signaller has still to signal in this turn.
pub(crate) fn owes_signal(reg: LongReg) -> bool
    ensures { result ≡ (can_signal reg.mode && not reg.ahead) }
{
    reg.mode.can_signal() && !reg.ahead
}

/// Whether a signal of the phase keeps within the bound, if there is one.
pub(crate) fn keeps_within(table: &Roll, bound: Option<Bound>, phase: u64) -> bool
    ensures { result ≡ is_within bound phase table.now.lines }
{
    match bound {
        Some(bound) => table.is_within(bound, phase),
        None => true,
    }
}

/// Whether a waiter's phase is open, or its single is.
pub(crate) fn has_to_wait(table: &Roll, single: Single, reg: LongReg) -> bool
    ensures { result ≡ (can_wait reg.mode
        && not (list_all (λ e. has_signalled reg.phase e.reg) table.now.lines && may_pass single reg.phase)) }
{
    reg.mode.can_wait() && !(table.is_closed(reg.phase) && single.may_pass(reg.phase))
}

/// Whether the task proposed the open single.
pub(crate) fn owes_single(single: Single, entry: Entry) -> bool
    ensures { result ≡ (entry.proposed && not (may_pass single entry.reg.phase)) }
{
    entry.proposed && !single.may_pass(entry.reg.phase)
}

/// The roll, the last single, and the history that both stand for.
#[derive(Clone, Copy)]
pub(crate) struct View<'a> {
    pub(crate) table: &'a Roll,
    pub(crate) single: Single,
    pub(crate) history: &'a Told,
    ghost stands: { Stands history.now table.now.lines single } by { Stands-prop _ _ _ },
}

/// The view of a phaser's state. It is no function: a function's result would be another term than
/// the state for the proofs.
macro_rules! view_of {
    ($state:expr) => {
        View {
            table: &$state.table,
            single: $state.single,
            history: &$state.history,
        }
    };
}

pub(crate) use view_of;

/// Whether there is room for an event after which so many tasks are live, and the open single
/// still needs so many events.
pub(crate) fn has_room(history: &Told, live: usize, reserve: u32) -> bool
    ensures { result ≡ nat_le (length history.now.past + 1 + live + reserve) history.now.limits.history }
{
    live.saturating_add(reserve as usize) < (history.limits().history - history.len()) as usize
}
