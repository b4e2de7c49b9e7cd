//! The logs that tasks leave, as parts of a trace: no two are of one task, and what the bodies of tasks
//! said that have ended is told of them.
ghost use Rattle.std.specs.Prelude.{◌≡◌, ◌+◌, ◌≤◌, ◌∷◌, ◌++◌, ℕ, List, [], Some, map, length, slice_get, All, OnOk, IfOk, IfErr};
ghost use Rattle.std.specs.List.{sum as total};
ghost use Rattle.tasks_in_flight.specs.Refused.{IsRunRefused};
ghost use Rattle.task_remains.specs.Remaining.{AreLogsOf, AreDifferent};
ghost use Rattle.task_remains.specs.inner.Logs.{AreGathered, AreAllLogs, IsToldIn};

use phase_modes::{NumberSet, Refusal};
use std::alloc::Global;
use std::sync::Mutex;
use table_receipts::PhaserLog;
use tasks_in_flight::{RunNaming, TaskLeft};
use trace_model::Part;

/// The parts of the logs so far, and whose they are.
#[derive(Drop)]
struct Gathered {
    parts: Vec<Part>,
    /// How many numbers tasks may have.
    tasks: u32,
    owners: NumberSet,
    ghost size: { owners.size ≡ tasks },
}

impl Gathered {
    /// No log, of a run in which so many tasks may be.
    fn new(alloc: Global, tasks: u32) -> Result<Gathered, Refusal>
        requires { tasks ≤ 65536 }
        ensures empty { IfOk result (λ g. g.parts.items ≡ []) }
        ensures own { IfOk result (λ g. AreGathered g.owners g.parts.items) }
        ensures memory { IfErr result (λ e. e ≡ Refusal.Memory) }
    {
        let owners = NumberSet::new(alloc, tasks)?;
        Ok(Gathered {
            parts: Vec::new(alloc),
            tasks,
            owners,
        })
    }

    /// Adds a log. `NotExplained(0)` if there is one of its task, or none may have the number.
    fn add<K: RunNaming>(
        &mut self,
        left: TaskLeft<K>,
        told: &mut Vec<PhaserLog<K>>,
    ) -> Result<(), Refusal>
        requires logs { AreAllLogs K.Logs.logs K.Logs.limits.phasers told.old.items }
        requires own { AreGathered self.old.owners self.old.parts.items }
        requires told { All (IsToldIn K.Supposing.supposed K.Supposing.told told.old.items) self.old.parts.items }
        ensures own { IfOk result (λ _. AreGathered self.new.owners self.new.parts.items) }
        ensures told { IfOk result (λ _. All (IsToldIn K.Supposing.supposed K.Supposing.told told.old.items) self.new.parts.items) }
        ensures parts { OnOk result (self.new.parts.items ≡ self.old.parts.items ++ left.log.log.entries ∷ []) }
        ensures same { told.new.items ≡ told.old.items }
        ensures refused { IfErr result (λ e. IsRunRefused e) }
    {
        let TaskLeft { log, mut fronts } = left;
        fronts.begin(told);
        let task = log.task();
        if task >= self.tasks || self.owners.contains(task) {
            return Err(Refusal::NotExplained(0));
        }
        self.parts.push(log.into_part())?;
        self.owners.insert(task);
        Ok(())
    }

    /// Adds the logs that were left in one finish.
    fn add_all<K: RunNaming>(
        &mut self,
        of_finish: Vec<Mutex<TaskLeft<K>>>,
        told: &mut Vec<PhaserLog<K>>,
    ) -> Result<(), Refusal>
        requires logs { AreAllLogs K.Logs.logs K.Logs.limits.phasers told.old.items }
        requires own { AreGathered self.old.owners self.old.parts.items }
        requires told { All (IsToldIn K.Supposing.supposed K.Supposing.told told.old.items) self.old.parts.items }
        ensures own { IfOk result (λ _. AreGathered self.new.owners self.new.parts.items) }
        ensures told { IfOk result (λ _. All (IsToldIn K.Supposing.supposed K.Supposing.told told.old.items) self.new.parts.items) }
        ensures number { OnOk result (length self.new.parts.items ≡ length self.old.parts.items + length of_finish.items) }
        ensures same { told.new.items ≡ told.old.items }
        ensures refused { IfErr result (λ e. IsRunRefused e) }
    {
        for left in of_finish {
            self.add(left.into_inner(), told)?;
        }
        Ok(())
    }
}

/// The parts of all logs that tasks left, of a run in which so many tasks may be, the root's at the end;
/// and what was told of them is told of what begins these phasers' logs, and their own. `NotExplained(0)`
/// if two are of one task.
pub(crate) fn logs_of<K: RunNaming>(
    alloc: Global,
    tasks: u32,
    left: Vec<Vec<Mutex<TaskLeft<K>>>>,
    root: TaskLeft<K>,
    told: &mut Vec<PhaserLog<K>>,
) -> Result<Vec<Part>, Refusal>
    requires few { tasks ≤ 65536 }
    requires logs { AreAllLogs K.Logs.logs K.Logs.limits.phasers told.old.items }
    ensures own { IfOk result (λ parts. (owners : List ℕ) × AreLogsOf owners parts.items × AreDifferent owners) }
    ensures told { IfOk result (λ parts. All (IsToldIn K.Supposing.supposed K.Supposing.told told.old.items) parts.items) }
    ensures same { told.new.items ≡ told.old.items }
    ensures number { IfOk result (λ parts. length parts.items ≡ total (map (λ l. length l.items) left.items) + 1) }
    ensures root { IfOk result (λ parts. slice_get parts.items (total (map (λ l. length l.items) left.items)) ≡ Some root.log.log.entries) }
    ensures refused { IfErr result (λ e. IsRunRefused e) }
{
    let mut gathered = Gathered::new(alloc, tasks)?;
    for of_finish in left {
        gathered.add_all(of_finish, told)?;
    }
    gathered.add(root, told)?;
    let Gathered { parts, .. } = gathered;
    Ok(parts)
}
