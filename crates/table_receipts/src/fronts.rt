//! What a worker has seen of all phasers.
ghost use Rattle.std.specs.Prelude.{◌≡◌, ℕ, ◌==◌, ◌<◌, false, IfOk, IfErr, length};
ghost use Rattle.told_history.specs.Stories.{GoesOn};
ghost use Rattle.table_receipts.specs.Seen.{story_at, IsNamed};

use crate::front::{Front, PhaserLog};
use crate::naming::Naming;
use crate::table::ReceiptTable;
use phase_modes::Refusal;
use std::alloc::Global;
use std::marker::Model;
use std::sync::Wait;

/// A front of each phaser, in order. Contracts see what was seen of each.
#[derive(Drop)]
pub struct Fronts<K: Naming> {
    fronts: Vec<Front<K>>,
}

impl<K: Naming> Model for Fronts<K> {
    ghost use Rattle.std.specs.Prelude.{List};
    ghost use Rattle.table_receipts.specs.Logs.{Sight};
    ghost use Rattle.table_receipts.specs.Seen.{IsNamed};

    ghost Value = { List Sight };

    ghost view = { λ f. f.fronts.items };

    ghost invariant = { λ f. IsNamed K.Logs.logs f.fronts.items };
}

impl<K: Naming> Fronts<K> {
    /// What was done on each of the table's phasers so far. `Memory` if the list gets none.
    pub fn of<T, R: Wait>(
        alloc: Global,
        rt: &R,
        table: &ReceiptTable<T, K>,
    ) -> Result<Fronts<K>, Refusal>
        ensures all { IfOk result (λ f. length f ≡ table.now.phasers) }
        ensures memory { IfErr result (λ e. e ≡ Refusal.Memory) }
    {
        let mut fronts = Vec::new(alloc);
        for phaser in 0..table.phasers {
            fronts.push(table.lock(rt, phaser).front())?;
        }
        Ok(Fronts { fronts })
    }

    /// What was seen of this phaser.
    #[inline(always)]
    pub fn get(&mut self, phaser: usize) -> Front<K>
        requires { phaser < length self.old }
        ensures same { self.new ≡ self.old }
        ensures log { result.log ≡ K.Logs.logs phaser }
        ensures story { result.story ≡ story_at self.old phaser }
    {
        self.fronts[phaser].again()
    }

    /// More was seen of this phaser.
    #[inline(always)]
    pub fn set(&mut self, phaser: usize, seen: Front<K>)
        requires place { phaser < length self.old }
        requires log { seen.log ≡ K.Logs.logs phaser }
        ensures length { length self.new ≡ length self.old }
        ensures here { story_at self.new phaser ≡ seen.story }
        ensures others { (n : ℕ) → (n == phaser) ≡ false → story_at self.new n ≡ story_at self.old n }
    {
        self.fronts[phaser] = seen;
    }

    /// A copy. `Memory` if its list gets none.
    pub fn again(&mut self, alloc: Global) -> Result<Fronts<K>, Refusal>
        ensures same { self.new ≡ self.old }
        ensures all { IfOk result (λ f. length f ≡ length self.old) }
        ensures each { IfOk result (λ f. (n : ℕ) → story_at f n ≡ story_at self.old n) }
        ensures memory { IfErr result (λ e. e ≡ Refusal.Memory) }
    {
        let mut fronts = Vec::new(alloc);
        for phaser in 0..self.fronts.len() {
            fronts.push(self.get(phaser))?;
        }
        Ok(Fronts { fronts })
    }

    /// What was seen begins what the logs tell.
    pub fn begin(&mut self, logs: &mut Vec<PhaserLog<K>>)
        requires all { length logs.old.items ≡ length self.old }
        requires named { IsNamed K.Logs.logs logs.old.items }
        ensures same { (self.new ≡ self.old) × (logs.new.items ≡ logs.old.items) }
        ensures begin { (n : ℕ) → n < length self.old → GoesOn (story_at self.old n) (story_at logs.old.items n) }
        ensures limits { (n : ℕ) → n < length self.old → (story_at logs.old.items n).limits ≡ K.Logs.limits }
    {
        for phaser in 0..logs.len() {
            let mut seen = self.get(phaser);
            logs[phaser].includes(&mut seen);
        }
    }
}
