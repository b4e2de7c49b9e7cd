//! What the tasks of the lines hold back. A line that comes or goes at the end moves nothing, since
//! emptied partials are kept for later lines.
ghost use Rattle.std.specs.Prelude.{◌≡◌, ◌+◌, ◌-◌, ◌<◌, ◌≤◌, [], length, IfOk, IfErr, ℕ, List, ℤ, true, slice_set, slice_index_or, take, insert, remove, vec_capacity};
ghost use Rattle.acc_cells.specs.Cells.{no_partial, held, HoldsOnly, Holds, StandsFor, sums_taken, with_taken, from_after, most_values};
ghost use Rattle.phaser_engine.specs.Lazy.{partial_with};
ghost use Rattle.phaser_engine.specs.Line.{ArePartials};

use acc_cells::{Cells, Partial};
use phase_modes::Refusal;
use reg_table::MOST_LINES;
use std::alloc::Global;
use std::marker::Model;

/// A partial for each line, in the order of the lines. Contracts see their cells.
#[derive(Drop)]
pub(crate) struct LinePartials {
    /// How many lines there are.
    used: usize,
    /// The partials of the lines, and then empty ones.
    all: Vec<Partial>,
}

impl Model for LinePartials {
    ghost use Rattle.std.specs.Prelude.{List, take, vec_capacity};
    ghost use Rattle.acc_cells.specs.declared.cell.Cell.{Cell};
    ghost use Rattle.phaser_engine.specs.Line.{ArePartials};

    ghost Value = { List (List Cell) };

    ghost view = { λ p. take p.used p.all.items };

    ghost invariant = { λ p. ArePartials p.used p.all.items (vec_capacity p.all) };
}

impl LinePartials {
    /// No line's. Memory for those of all lines is taken here; `Memory` if it is refused.
    pub(crate) fn new(alloc: Global) -> Result<LinePartials, Refusal>
        ensures empty { IfOk result (λ p. p ≡ []) }
        ensures memory { IfErr result (λ r. r ≡ Refusal.Memory) }
    {
        let all = Vec::with_capacity(alloc, MOST_LINES)?;
        Ok(LinePartials { used: 0, all })
    }

    /// Whether the task of a line holds nothing back.
    #[inline(always)]
    pub(crate) fn is_empty(&self, place: usize) -> bool
        requires { place < length self.now }
        ensures { result ≡ true → slice_index_or self.now place no_partial ≡ no_partial }
    {
        self.all[place].is_empty()
    }

    /// Puts an empty partial behind all others, for a new last line.
    #[inline(always)]
    pub(crate) fn push(&mut self)
        requires { length self.old < 256 }
        ensures { self.new ≡ insert self.old (length self.old) no_partial }
    {
        if self.used == self.all.len() {
            self.all.push_reserved(Partial::new());
        }
        self.used += 1;
    }

    /// Takes the last line's partial out. It is empty.
    #[inline(always)]
    pub(crate) fn pop(&mut self)
        requires some { 0 < length self.old }
        requires empty { slice_index_or self.old (length self.old - 1) no_partial ≡ no_partial }
        ensures { self.new ≡ remove self.old (length self.old - 1) }
    {
        self.used -= 1;
    }

    /// Puts an empty partial at the place of a new line.
    pub(crate) fn insert(&mut self, place: usize)
        requires room { length self.old < 256 }
        requires place { place ≤ length self.old }
        ensures { self.new ≡ insert self.old place no_partial }
    {
        if place < self.used {
            put_empty(&mut self.all, self.used, place);
        } else if self.used == self.all.len() {
            self.all.push_reserved(Partial::new());
        }
        self.used += 1;
    }

    /// Takes the partial of a line out that goes. It is empty.
    pub(crate) fn remove(&mut self, place: usize)
        requires place { place < length self.old }
        requires empty { slice_index_or self.old place no_partial ≡ no_partial }
        ensures { self.new ≡ remove self.old place }
    {
        self.used -= 1;
        if place < self.used {
            let _gone = self.all.remove(place);
        }
    }

    /// Keeps a value that the task of a line sends.
    pub(crate) fn send(&mut self, place: usize, accumulator: u8, value: i32)
        requires place { place < length self.old }
        requires accumulator { accumulator < 4 }
        requires room { held (slice_index_or self.old place no_partial) < most_values }
        ensures { self.new
            ≡ slice_set self.old place
            (partial_with accumulator value (slice_index_or self.old place no_partial)) }
    {
        let partial = &mut self.all[place];
        partial.send(accumulator, value);
    }

    /// Folds what the task of a line sent into the cells of a phase.
    pub(crate) fn fold(&mut self, place: usize, phase: u64, cells: &mut Cells)
        requires place { place < length self.old }
        requires known { HoldsOnly (length cells.old.ops) (slice_index_or self.old place no_partial) }
        requires room { cells.old.sums.values + held (slice_index_or self.old place no_partial) ≤ most_values }
        ensures partials { self.new ≡ slice_set self.old place no_partial }
        ensures ops { cells.new.ops ≡ cells.old.ops }
        ensures cell_room { cells.new.room ≡ cells.old.room }
        ensures from { cells.new.from
            ≡ from_after (held (slice_index_or self.old place no_partial)) phase cells.old }
        ensures sums { cells.new.sums ≡ sums_taken (slice_index_or self.old place no_partial) cells.old.sums }
        ensures cells { (values : ℕ → ℕ → List ℤ) → (mine : ℕ → List ℤ) → StandsFor cells.old values
            → Holds (slice_index_or self.old place no_partial) mine
            → StandsFor cells.new (with_taken phase mine values) }
    {
        let partial = &mut self.all[place];
        cells.take_in(phase, partial);
    }
}

/// Puts an empty partial at a place before the end; the last spare one goes for it.
#[cold]
#[inline(never)]
fn put_empty(all: &mut Vec<Partial>, used: usize, place: usize)
    requires are { ArePartials used all.old.items (vec_capacity all.old) }
    requires place { place < used }
    requires room { used < 256 }
    ensures are { ArePartials (used + 1) all.new.items (vec_capacity all.new) }
    ensures items { take (used + 1) all.new.items ≡ insert (take used all.old.items) place no_partial }
{
    if used < all.len() {
        let _spare = all.pop();
    }
    let _ = all.insert(place, Partial::new());
}
