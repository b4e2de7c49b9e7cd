//! The rows of cells of a window of phases that goes on, each at its place round the ring.
ghost use Rattle.std.specs.Prelude.{◌≡◌, ◌≢◌, ◌<◌, ◌≤◌, ◌+◌, ◌%◌, ℕ, [], IfOk, IfErr, length, vec_capacity};
ghost use Rattle.acc_cells.specs.Cells.{no_row, row_at, cell_in, cell_at, cell_joined, HoldsOnly, IsInRange, most_values};

use crate::cell::Cell;
use phase_modes::Refusal;
use std::alloc::Global;
use std::marker::Model;

/// How many rows are written at a time, so that a row that comes next is mostly there.
const AHEAD: usize = 8;

/// What was folded for a phase: a cell for each accumulator that there can be.
#[derive(Clone, Copy)]
pub struct Row {
    /// The phase.
    pub phase: u64,
    /// The cells, in the order of the accumulators.
    pub cells: [Cell; 4],
}

impl Row {
    /// The row of no value.
    fn empty() -> Row
        ensures { result ≡ no_row }
    {
        Row {
            phase: 0,
            cells: [Cell::empty(), Cell::empty(), Cell::empty(), Cell::empty()],
        }
    }

    /// Joins the cells of so many accumulators to the row's.
    fn join(&mut self, accumulators: usize, cells: &[Cell; 4])
        requires four { accumulators ≤ 4 }
        requires in_range { (a : ℕ) → a < 4 → IsInRange (cell_in self.old.cells a) }
        requires cells_in_range { (a : ℕ) → a < 4 → IsInRange (cell_in cells.now a) }
        requires room { (a : ℕ) → a < 4
            → (cell_in self.old.cells a).count + (cell_in cells.now a).count ≤ most_values }
        requires known { HoldsOnly accumulators cells.now }
        ensures phase { self.new.phase ≡ self.old.phase }
        ensures joined { (a : ℕ) → a < 4
            → cell_in self.new.cells a ≡ cell_joined (cell_in cells.now a) (cell_in self.old.cells a) }
    {
        for accumulator in 0..accumulators {
            self.cells[accumulator] = self.cells[accumulator].joined(cells[accumulator]);
        }
    }
}

/// Rows of which each knows its phase, so that what an earlier phase left at a place is no value of
/// a later one's. Those that never get a value cost nothing.
#[derive(Drop)]
pub(crate) struct Ring {
    room: u32,
    /// The first rows. All others have no value.
    reached: Vec<Row>,
}

impl Model for Ring {
    ghost use Rattle.std.specs.Prelude.{◌<◌, ◌≤◌, length, vec_capacity};
    ghost use Rattle.acc_cells.specs.Cells.{Rows};

    ghost Value = { Rows };

    ghost view = { λ r. record { room = r.room; rows = r.reached.items } };

    ghost invariant = { λ r. (0 < r.room) × (length r.reached.items ≤ r.room)
        × (r.room ≤ vec_capacity r.reached) };
}

impl Ring {
    /// No rows, and room for so many. All memory is taken here; `Memory` if it is refused.
    pub(crate) fn new(alloc: Global, room: u32) -> Result<Ring, Refusal>
        requires { 0 < room }
        ensures room { IfOk result (λ r. r.room ≡ room) }
        ensures rows { IfOk result (λ r. r.rows ≡ []) }
        ensures memory { IfErr result (λ r. r ≡ Refusal.Memory) }
    {
        let reached = Vec::with_capacity(alloc, room as usize)?;
        Ok(Ring { room, reached })
    }

    /// Takes all values away.
    pub(crate) fn clear(&mut self)
        ensures room { self.new.room ≡ self.old.room }
        ensures rows { self.new.rows ≡ [] }
    {
        self.reached.clear();
    }

    /// How many phases have places of their own.
    #[inline(always)]
    pub(crate) fn room(&self) -> u32
        ensures room { result ≡ self.now.room }
        ensures some { 0 < result }
    {
        self.room
    }

    /// Where the row of a phase stands. The first time round costs no division.
    #[inline(always)]
    fn place(&self, phase: u64) -> usize
        ensures place { result ≡ phase % self.now.room }
        ensures within { result < self.now.room }
    {
        let room = u64::from(self.room);
        if phase < room {
            phase as usize
        } else {
            (phase % room) as usize
        }
    }

    /// The cell of an accumulator and a phase: an empty one if no value came for the phase since
    /// an earlier one had its place.
    #[inline(always)]
    pub(crate) fn cell(&self, accumulator: u8, phase: u64) -> Cell
        requires { accumulator < 4 }
        ensures { result ≡ cell_at self.now accumulator phase }
    {
        let place = self.place(phase);
        if place >= self.reached.len() {
            return Cell::empty();
        }
        let row = &self.reached[place];
        if row.phase != phase {
            return Cell::empty();
        }
        row.cells[accumulator as usize]
    }

    /// Has a row stand at a place.
    #[inline(always)]
    fn reach(&mut self, place: usize)
        requires { place < self.old.room }
        ensures room { self.new.room ≡ self.old.room }
        ensures same { (i : ℕ) → row_at self.new.rows i ≡ row_at self.old.rows i }
        ensures reached { place < length self.new.rows }
    {
        if place >= self.reached.len() {
            write_empty(&mut self.reached, place, self.room as usize);
        }
    }

    /// Joins cells to those of a phase, and takes its place from an earlier phase. There is a cell
    /// for each accumulator that there can be, and so many accumulators.
    pub(crate) fn fold(&mut self, phase: u64, accumulators: usize, cells: &[Cell; 4])
        requires four { accumulators ≤ 4 }
        requires in_range { (a : ℕ) → a < 4 → IsInRange (cell_at self.old a phase) }
        requires cells_in_range { (a : ℕ) → a < 4 → IsInRange (cell_in cells.now a) }
        requires few { (a : ℕ) → a < 4
            → (cell_at self.old a phase).count + (cell_in cells.now a).count ≤ most_values }
        requires known { HoldsOnly accumulators cells.now }
        ensures room { self.new.room ≡ self.old.room }
        ensures phase { (row_at self.new.rows (phase % self.old.room)).phase ≡ phase }
        ensures here { (a : ℕ) → a < 4
            → cell_at self.new a phase ≡ cell_joined (cell_in cells.now a) (cell_at self.old a phase) }
        ensures others { (i : ℕ) → i ≢ phase % self.old.room
            → row_at self.new.rows i ≡ row_at self.old.rows i }
    {
        let place = self.place(phase);
        self.reach(place);
        let row = &mut self.reached[place];
        if row.phase == phase {
            row.join(accumulators, cells);
        } else {
            *row = Row {
                phase,
                cells: *cells,
            };
        }
    }
}

/// Writes rows of no value as far as the place, and some more.
#[cold]
#[inline(never)]
fn write_empty(reached: &mut Vec<Row>, place: usize, size: usize)
    requires within { place < size }
    requires few { length reached.old.items ≤ size }
    requires room { size ≤ vec_capacity reached.old }
    ensures same { (i : ℕ) → row_at reached.new.items i ≡ row_at reached.old.items i }
    ensures reached { place < length reached.new.items }
    ensures few { length reached.new.items ≤ size }
    ensures capacity { vec_capacity reached.new ≡ vec_capacity reached.old }
{
    let end = place.saturating_add(AHEAD).min(size);
    for _ in reached.len()..end {
        reached.push_reserved(Row::empty());
    }
}
