//! How far a run has come, as its workers noted it last.
ghost use Rattle.std.specs.Prelude.{◌≡◌, IfErr};

use crate::shared::Sums;
use crossbeam_utils::CachePadded;
use phase_modes::Refusal;
use std::alloc::Global;
use std::sync::atomic::{AtomicU64, Ordering};

/// What one worker noted last.
#[derive(Drop)]
struct Pulse {
    passes: AtomicU64,
    spawned: AtomicU64,
    ended: AtomicU64,
}

/// How far a run has come. A worker notes that after each stretch of at most 64 events, so what is read
/// here is a little late.
#[derive(Drop)]
pub struct Pulses {
    each: Vec<CachePadded<Pulse>>,
}

impl Pulses {
    /// Those of so many workers, none of which has begun. `Memory` if they get none.
    pub(crate) fn new(alloc: Global, workers: u32) -> Result<Pulses, Refusal>
        ensures memory { IfErr result (λ e. e ≡ Refusal.Memory) }
    {
        let mut each = Vec::new(alloc);
        for _worker in 0..workers {
            each.push(CachePadded::new(Pulse {
                passes: AtomicU64::new(0),
                spawned: AtomicU64::new(0),
                ended: AtomicU64::new(0),
            }))?;
        }
        Ok(Pulses { each })
    }

    /// The worker of this number has counted this so far.
    pub(crate) fn note(&self, worker: u32, sums: &Sums) {
        if let Some(pulse) = self.each.get(worker as usize) {
            pulse.passes.store(sums.totals.passes, Ordering::Relaxed);
            pulse.spawned.store(sums.spawned, Ordering::Relaxed);
            pulse.ended.store(sums.ended, Ordering::Relaxed);
        }
    }

    /// How many turns all tasks have ended.
    pub fn passes(&self) -> u64 {
        let mut passes = 0u64;
        for pulse in &self.each {
            passes = passes.saturating_add(pulse.passes.load(Ordering::Relaxed));
        }
        passes
    }

    /// How many tasks are there, the root with them.
    pub fn alive(&self) -> u64 {
        let mut spawned = 1u64;
        let mut ended = 0u64;
        for pulse in &self.each {
            spawned = spawned.saturating_add(pulse.spawned.load(Ordering::Relaxed));
            ended = ended.saturating_add(pulse.ended.load(Ordering::Relaxed));
        }
        spawned.saturating_sub(ended)
    }
}
