//! What a run leaves once its workers are done: its tables and logs as parts of a trace.
ghost use Rattle.std.specs.Prelude.{◌≡◌, true, map, length, vec_len, IfOk, IfErr};
ghost use Rattle.phase_modes.specs.Limits.{limits_fit};
ghost use Rattle.share_book.specs.Opening.{AreAllParts};
ghost use Rattle.phaser_cell.specs.Telling.{ArePhaserParts};
ghost use Rattle.scope_locks.specs.Telling.{AreFinishParts};
ghost use Rattle.table_receipts.specs.Parts.{AreLogged};
ghost use Rattle.tasks_in_flight.specs.Refused.{IsRunRefused};
ghost use Rattle.task_remains.specs.Remaining.{AreRemains};
ghost use Rattle.tasks_in_flight.specs.Said.{IsSaid, AreSaid};

use crate::logs::logs_of;
use phase_modes::{Limits, Refusal};
use scope_locks::FinishParts;
use share_book::{Shares, Totals, gather};
use std::alloc::Global;
use std::sync::Mutex;
use table_receipts::ReceiptParts;
use tasks_in_flight::{Body, RootLeft, RunNaming, TaskLeft};
use trace_model::Part;

/// What a run leaves: the histories of its phasers and finishes with their tickets, each kind in
/// order, the tasks' logs, what all phasers together add up to, and the root's body as it stood after
/// its last `step` or `single`.
#[derive(Drop)]
pub struct Remains<B> {
    pub phasers: Vec<Part>,
    pub finishes: Vec<Part>,
    pub logs: Vec<Part>,
    pub totals: Totals,
    pub root: B,
}

/// What a run leaves, by what its tables and its workers leave. `NotExplained` if two logs are of one
/// task.
pub fn gathered<K: RunNaming, B: Body>(
    alloc: Global,
    limits: Limits,
    phasers: ReceiptParts<K>,
    finishes: FinishParts<Mutex<TaskLeft<K>>>,
    shares: Vec<Shares<K>>,
    root: RootLeft<B, K>,
) -> Result<Remains<B>, Refusal>
    requires fit { limits_fit limits ≡ true }
    requires limits { limits ≡ K.Logs.limits }
    requires phasers { (vec_len phasers.parts ≡ limits.phasers) × (vec_len phasers.logs ≡ limits.phasers) }
    requires finishes { vec_len finishes.parts ≡ limits.finishes }
    requires told_phasers { ArePhaserParts 0 phasers.parts.items (map (λ b. b.totals) phasers.phasers.items) }
    requires logged { AreLogged K.Logs.logs 0 phasers.parts.items phasers.logs.items }
    requires workers { AreAllParts (vec_len shares) K.EventsByWorker.parts K.UpByWorker.parts K.DownByWorker.parts }
    requires books { AreAllParts (vec_len phasers.phasers) K.EventsByPhaser.parts K.UpByPhaser.parts K.DownByPhaser.parts }
    requires told_finishes { AreFinishParts 0 finishes.parts.items (map (λ l. length l.items) finishes.logs.items) }
    ensures remains { IfOk result (λ r. AreRemains limits r.phasers.items r.finishes.items r.logs.items r.totals) }
    ensures says { IfOk result (λ r. K.Supposing.supposed → IsSaid B.Body.shows limits r.phasers.items r.logs.items r.root) }
    ensures each { IfOk result (λ r. K.Supposing.supposed → AreSaid K.Supposing.told limits r.phasers.items r.logs.items) }
    ensures refused { IfErr result (λ e. IsRunRefused e) }
{
    let ReceiptParts {
        parts: of_phasers,
        phasers: held,
        logs: mut told,
        books,
    } = phasers;
    let FinishParts {
        parts: of_finishes,
        logs: left,
    } = finishes;
    let Ok(totals) = gather(shares, held, books) else {
        unreachable!()
    };
    let RootLeft {
        left: of_root,
        body,
    } = root;
    let TaskLeft { log, mut fronts } = of_root;
    fronts.begin(&mut told);
    let of_root = TaskLeft { log, fronts };
    let of_logs = logs_of(alloc, limits.tasks, left, of_root, &mut told)?;
    Ok(Remains {
        phasers: of_phasers,
        finishes: of_finishes,
        logs: of_logs,
        totals,
        root: body,
    })
}
