//! The stencil in one thread.
ghost use Rattle.std.specs.Prelude.{◌≡◌, ◌<◌, ◌≤◌, length, IfOk, IfErr, slice_index};
ghost use Rattle.phase_modes.specs.declared.refusal.Refusal.TheVariants.{Memory as NoMemory};
ghost use Rattle.job_kernels.specs.Stencil.{weighed, cell_before, cell_after, stencil_step, stencil};

use phase_modes::Refusal;
use std::alloc::Global;

/// A cell and its neighbours, the cell with twice their weight.
pub(crate) fn weighed(left: u32, own: u32, right: u32) -> u32
    ensures { result ≡ weighed left own right }
{
    ((u64::from(left) + 2 * u64::from(own) + u64::from(right)) / 4) as u32
}

/// The cell at this place, 0 outside the row.
pub(crate) fn cell_at(cells: &[u32], place: usize) -> u32
    ensures { result ≡ slice_index cells.now place }
{
    cells.get(place).copied().unwrap_or(0)
}

/// The cell on the left of this place, 0 outside the row.
fn cell_before(cells: &[u32], place: usize) -> u32
    ensures { result ≡ cell_before cells.now place }
{
    if place == 0 {
        0
    } else {
        cell_at(cells, place - 1)
    }
}

/// The cell at this place after a step.
fn cell_after(cells: &[u32], place: usize) -> u32
    requires { place < length cells.now }
    ensures { result ≡ cell_after cells.now place }
{
    weighed(
        cell_before(cells, place),
        cells[place],
        cell_at(cells, place + 1),
    )
}

/// The row after a step.
fn stencil_step(alloc: Global, cells: &[u32]) -> Result<Vec<u32>, Refusal>
    ensures cells { IfOk result (λ v. v.items ≡ stencil_step cells.now) }
    ensures memory { IfErr result (λ e. e ≡ NoMemory) }
{
    let mut after = Vec::new(alloc);
    for place in 0..cells.len() {
        after.push(cell_after(cells, place))?;
    }
    Ok(after)
}

/// A row of its own with the same cells.
fn copied(alloc: Global, cells: &[u32]) -> Result<Vec<u32>, Refusal>
    ensures cells { IfOk result (λ v. v.items ≡ cells.now) }
    ensures memory { IfErr result (λ e. e ≡ NoMemory) }
{
    let mut row = Vec::new(alloc);
    for cell in cells {
        row.push(*cell)?;
    }
    Ok(row)
}

/// The row after so many steps; `Memory` if there is too little for it.
pub fn stencil_plain(alloc: Global, first: &[u32], steps: u32) -> Result<Vec<u32>, Refusal>
    ensures cells { IfOk result (λ v. v.items ≡ stencil steps first.now) }
    ensures memory { IfErr result (λ e. e ≡ NoMemory) }
{
    let mut row = copied(alloc, first)?;
    for _step in 0..steps {
        row = stencil_step(alloc, &row)?;
    }
    Ok(row)
}
