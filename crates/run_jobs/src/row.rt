//! The values that the tasks of a run without a store leave.
ghost use Rattle.std.specs.Prelude.{◌≡◌, true, length, vec_len, IfOk, IfErr};
ghost use Rattle.live_rt.specs.Rooms.{has_room};

use job_kernels::{PipelineBody, StencilBody};
use job_script::{Answer, ScriptBody};
use live_rt::{Body, Room};
use phase_model::Look;
use phase_modes::Refusal;
use std::alloc::Global;
use std::sync::atomic::{AtomicU32, Ordering};

/// A row of values, each of which one task leaves at its place. All are 0 at first.
#[derive(Drop)]
pub(crate) struct Row {
    pub(crate) values: Vec<AtomicU32>,
    /// How many values were left one after the other.
    next: AtomicU32,
}

impl Row {
    /// A row of so many values. `Memory` if there is too little for it.
    pub(crate) fn new(alloc: Global, number: u32) -> Result<Row, Refusal>
        ensures places { IfOk result (λ r. vec_len r.values ≡ number) }
        ensures memory { IfErr result (λ e. e ≡ Refusal.Memory) }
    {
        let mut values = Vec::new(alloc);
        for _place in 0..number {
            values.push(AtomicU32::new(0))?;
        }
        Ok(Row {
            values,
            next: AtomicU32::new(0),
        })
    }

    /// Leaves a value at this place, if the row has it.
    fn put(&self, place: u32, value: u32) {
        if let Some(at) = self.values.get(place as usize) {
            at.store(value, Ordering::SeqCst);
        }
    }

    /// Leaves a value behind those that were left so before.
    fn push(&self, value: u32) {
        let place = self.next.fetch_add(1, Ordering::SeqCst);
        self.put(place, value);
    }

    /// The values, by their places.
    pub(crate) fn values(&self, alloc: Global) -> Result<Vec<i64>, Refusal>
        ensures places { IfOk result (λ v. length v.items ≡ vec_len self.now.values) }
        ensures memory { IfErr result (λ e. e ≡ Refusal.Memory) }
    {
        let mut values = Vec::new(alloc);
        for value in &self.values {
            values.push(i64::from(value.load(Ordering::SeqCst)))?;
        }
        Ok(values)
    }
}

/// The bound of a program's phaser that is made without one.
const FAR: u32 = 65_536;

/// The bound of a stencil's phasers: no cell is ever two phases ahead of a neighbour.
const NEAR: u32 = 4;

/// A program's room: as many finishes as a run may have in all, and 16 times as many phasers.
const MANY: Room = Room {
    phasers: 1_024,
    finishes: 1_024,
};

/// A kernel's room: it makes a phaser for each cell or stage, and opens no finish.
const FEW: Room = Room {
    phasers: 64,
    finishes: 1,
};

/// A body that may leave values in a row. By default it leaves none.
pub(crate) trait Leaves: Body {
    /// The bound of a phaser that it makes without one: a signaller that is so many phases ahead of a
    /// waiter has to wait. A phaser takes memory for so many phases.
    fn far(&self) -> u32 {
        FAR
    }

    /// How much may be alive at once in its run.
    fn room(&self) -> Room
        ensures { has_room result ≡ true };

    /// Its task hears this at its next step.
    fn hears(&self, _answer: Answer, _row: &Row) {}

    /// Its task has ended.
    fn ends(&self, _row: &Row) {}
}

impl<'p> Leaves for ScriptBody<'p> {
    fn room(&self) -> Room {
        MANY
    }
}

impl Leaves for StencilBody {
    fn far(&self) -> u32 {
        NEAR
    }

    fn room(&self) -> Room {
        FEW
    }

    /// The cell as it is after the last step.
    fn ends(&self, row: &Row) {
        if let Some(cell) = self.cell() {
            row.put(cell.place, cell.value);
        }
    }
}

impl Leaves for PipelineBody {
    fn room(&self) -> Room {
        FEW
    }

    /// The sink leaves each item that it sees, in their order.
    fn hears(&self, answer: Answer, row: &Row) {
        if !self.is_sink() {
            return;
        }
        if let Answer::Saw(Look::Value(value)) = answer {
            if let Ok(item) = u32::try_from(value) {
                row.push(item);
            }
        }
    }
}
