//! The logs of a run's phasers, before a table has them.
ghost use Rattle.std.specs.Prelude.{◌≡◌, ◌≤◌, ℕ, [], All, IfOk, IfErr, IfSome, slice_get, vec_len};
ghost use Rattle.std.specs.VecDeque.{deque_len};
ghost use Rattle.table_receipts.specs.Logs.{blank};

use crate::front::PhaserLog;
use crate::naming::Naming;
use crate::noted::Noted;
use phase_modes::Refusal;
use std::alloc::Global;
use std::collections::VecDeque;
use told_history::Whole;

/// The log of the phaser of this number, which nobody has made yet.
#[derive(Drop)]
pub(crate) struct NumberedLog<K: Naming> {
    pub(crate) number: u32,
    pub(crate) log: PhaserLog<K>,
    ghost named: { log.log ≡ K.Logs.logs number },
    ghost blank: { log.story ≡ blank K.Logs.limits },
}

/// A log for each of a run's phasers, in order.
#[derive(Drop)]
pub struct PhaserLogs<K: Naming> {
    pub(crate) logs: VecDeque<NumberedLog<K>>,
}

/// So many logs without an entry, each under a new name. `Memory` if their list gets none.
pub fn new_logs(alloc: Global, phasers: u32) -> Result<Vec<Whole<Noted>>, Refusal>
    ensures number { IfOk result (λ v. vec_len v ≡ phasers) }
    ensures empty { IfOk result (λ v. All (λ w. w.items ≡ []) v.items) }
    ensures memory { IfErr result (λ e. e ≡ Refusal.Memory) }
{
    let mut logs = Vec::new(alloc);
    for _number in 0..phasers {
        logs.push(Whole::new())?;
    }
    Ok(logs)
}

impl<K: Naming> PhaserLogs<K> {
    /// The logs under the names that the run has for them. `Memory` if their list gets none.
    pub fn of(alloc: Global, logs: Vec<Whole<Noted>>) -> Result<PhaserLogs<K>, Refusal>
        requires names { (i : ℕ) → IfSome (slice_get logs.items i) (λ w. w.name ≡ K.Logs.logs i) }
        requires empty { All (λ w. w.items ≡ []) logs.items }
        requires few { vec_len logs ≤ 64 }
        ensures number { IfOk result (λ all. deque_len all.logs ≡ vec_len logs) }
        ensures memory { IfErr result (λ e. e ≡ Refusal.Memory) }
    {
        let mut all = VecDeque::new(alloc);
        let mut number = 0u32;
        for log in logs {
            let log = PhaserLog::new(log);
            all.push_back(NumberedLog { number, log })?;
            number = number.saturating_add(1);
        }
        Ok(PhaserLogs { logs: all })
    }
}
