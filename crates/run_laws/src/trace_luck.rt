//! The first event of a trace in which luck has a part: one pass over its events.
ghost use Rattle.std.specs.Prelude.{◌≡◌, true, None, IfOk, IfErr, IfSome};
ghost use Rattle.trace_walk.specs.History.{history};
ghost use Rattle.trace_model.specs.Explained.{is_explained};
ghost use Rattle.run_laws.specs.Luck.{is_all_steady, IsFirstLuck};

use crate::luck::LuckAt;
use crate::watch::Watch;
use phase_modes::Refusal;
use std::alloc::Global;
use trace_model::Trace;

/// The first event of an explained trace in which luck has a part: a task is refused an act or gives
/// it up; or it draws a number that isn't the next of its own, since another task has drawn such
/// numbers too; or it registers a child on a phaser that has ever had as many tasks as may be on one
/// at a time. None if luck has a part in no event. `Memory` if there is too little for a count
/// for each phaser.
pub fn first_luck(alloc: Global, trace: &Trace) -> Result<Option<LuckAt>, Refusal>
    requires { is_explained trace.now ≡ true }
    ensures none { IfOk result (λ o. o ≡ None
        → is_all_steady trace.now.limits (history trace.now.events) ≡ true) }
    ensures first { IfOk result (λ o. IfSome o (IsFirstLuck trace.now)) }
    ensures memory { IfErr result (λ e. e ≡ Refusal.Memory) }
{
    let mut watch = Watch::new(alloc, trace.limits().regs);
    for i in 0..trace.len() {
        let (_, event) = trace.entry(i);
        if let Some(luck) = watch.take(event)? {
            return Ok(Some(LuckAt {
                place: i as u64 + 1,
                luck,
            }));
        }
    }
    Ok(None)
}
