//! What the workers share, and what each has for itself.
ghost use Rattle.std.specs.Prelude.{◌≡◌, []};

use crate::names::Names;
use crate::pulses::Pulses;
use crate::task::{Item, RootLeft};
use crossbeam_utils::CachePadded;
use live_tables::{LiveFinishes, LivePhasers};
use phase_modes::{Limits, Refusal};
use phaser_core::Out;
use std::alloc::Global;
use std::sync::atomic::{AtomicU64, Ordering};
use task_queue::RunQueue;
use tasks_in_flight::{Body, Hand};
use world_model::TotalsLine;

/// How many numbers there are for tasks but the root, whose number is 0. After so many children a
/// number comes again, and two tasks may have it at once, but never a child and its parent. What a
/// phaser knows a task by has 64 bits.
const MOST_NUMBERS: u64 = u32::MAX as u64 - 1;

/// What all workers share.
#[derive(Drop)]
pub(crate) struct Shared<B: Body, J: Names> {
    pub(crate) alloc: Global,
    pub(crate) limits: Limits,
    pub(crate) phasers: LivePhasers<Item<B, J>, J>,
    pub(crate) finishes: LiveFinishes<Item<B, J>>,
    pub(crate) queue: RunQueue<Item<B, J>>,
    pub(crate) pulses: Pulses,
    /// How many children were asked for.
    pub(crate) children: CachePadded<AtomicU64>,
}

/// The limits of a run without end, as a task knows them: numbers of slots are looked at by the tables.
pub(crate) fn no_limits() -> Limits {
    Limits {
        acts: u32::MAX,
        finishes: u32::MAX,
        history: u32::MAX,
        phasers: u32::MAX,
        regs: 256,
        tasks: u32::MAX,
    }
}

/// What a worker counts of the tasks that it drives. A number that would need more than 64 bits stays at
/// the greatest that has 64.
#[derive(Clone, Copy, Debug, PartialEq, Eq)]
pub(crate) struct Sums {
    pub(crate) spawned: u64,
    pub(crate) ended: u64,
    pub(crate) refused: u64,
    pub(crate) totals: TotalsLine,
}

impl Sums {
    /// Nothing yet.
    pub(crate) fn none() -> Sums {
        Sums {
            spawned: 0,
            ended: 0,
            refused: 0,
            totals: TotalsLine {
                registered: 0,
                signals: 0,
                passes: 0,
                drops: 0,
                sends: 0,
                up: 0,
                down: 0,
            },
        }
    }

    /// Those of two workers together.
    pub(crate) fn with(self, other: Sums) -> Sums {
        Sums {
            spawned: self.spawned.saturating_add(other.spawned),
            ended: self.ended.saturating_add(other.ended),
            refused: self.refused.saturating_add(other.refused),
            totals: both(self.totals, other.totals),
        }
    }

    /// A value was sent.
    pub(crate) fn sent(&mut self, value: i32) {
        one_more(&mut self.totals.sends);
        let magnitude = u64::from(value.unsigned_abs());
        if value > 0 {
            self.totals.up = self.totals.up.saturating_add(magnitude);
        } else {
            self.totals.down = self.totals.down.saturating_add(magnitude);
        }
    }

    /// A task has ended, and what it was refused if it ended by that.
    pub(crate) fn ended(&mut self, refused: Option<Refusal>) {
        one_more(&mut self.ended);
        if refused.is_some() {
            one_more(&mut self.refused);
        }
    }
}

/// Both totals together.
fn both(one: TotalsLine, other: TotalsLine) -> TotalsLine {
    TotalsLine {
        registered: one.registered.saturating_add(other.registered),
        signals: one.signals.saturating_add(other.signals),
        passes: one.passes.saturating_add(other.passes),
        drops: one.drops.saturating_add(other.drops),
        sends: one.sends.saturating_add(other.sends),
        up: one.up.saturating_add(other.up),
        down: one.down.saturating_add(other.down),
    }
}

/// One more of what is counted.
pub(crate) fn one_more(count: &mut u64) {
    *count = count.saturating_add(1);
}

/// What a worker has for itself.
#[derive(Drop)]
pub(crate) struct Worker<B: Body, J: Names> {
    pub(crate) number: u32,
    pub(crate) hand: Hand<Item<B, J>>,
    pub(crate) out: Out<Item<B, J>>,
    pub(crate) sums: Sums,
    /// What the root leaves, once it has ended.
    pub(crate) root: Option<RootLeft<B, J>>,
    ghost empty: { out ≡ [] },
}

impl<B: Body, J: Names> Shared<B, J> {
    /// The next number: from 1 on, and again from 1 after the last.
    fn next_number(&self) -> u32 {
        let drawn = self.children.fetch_add(1, Ordering::Relaxed);
        (drawn % MOST_NUMBERS) as u32 + 1
    }

    /// A number for a child of the task of this number, and another than that.
    pub(crate) fn child_number(&self, parent: u32) -> u32 {
        let drawn = self.next_number();
        if drawn == parent {
            return self.next_number();
        }
        drawn
    }
}
