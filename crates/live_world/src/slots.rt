//! Slots that are free, and how one is taken.
ghost use Rattle.std.specs.Prelude.{◌≡◌, ◌<◌, ◌≤◌, ◌^◌, false, length, get_or, IfOk, IfErr, vec_len, vec_capacity};
ghost use Rattle.live_world.specs.Live.{blank_task, blank_finish};
ghost use Rattle.live_world.specs.inner.Steps.{put_at};

use crate::finish_row::FinishRow;
use crate::task_row::TaskRow;
use phase_modes::Refusal;

/// A slot for a finish: this one if it is free, else a new one, for which there is room then.
/// `Memory` if there is none.
pub(crate) fn vacant_finish(rows: &mut Vec<FinishRow>, free: u32) -> Result<u32, Refusal>
    ensures stays { rows.new.items ≡ rows.old.items }
    ensures within { IfOk result (λ i. i ≤ length rows.new.items) }
    ensures vacant { IfOk result (λ i. (get_or rows.new.items i blank_finish).taken ≡ false) }
    ensures room { IfOk result (λ i. length rows.new.items ≤ i → vec_len rows.new < vec_capacity rows.new) }
    ensures memory { IfErr result (λ r. r ≡ Refusal.Memory) }
{
    if (free as usize) < rows.len() && !rows[free as usize].is_taken() {
        return Ok(free);
    }
    if rows.len() >= u32::MAX as usize {
        return Err(Refusal::Memory);
    }
    rows.reserve(1)?;
    Ok(rows.len() as u32)
}

/// Puts a finish into a slot.
pub(crate) fn put_finish(rows: &mut Vec<FinishRow>, slot: u32, row: FinishRow)
    requires room { length rows.old.items ≤ slot → vec_len rows.old < vec_capacity rows.old }
    ensures { rows.new.items ≡ put_at rows.old.items slot row }
{
    if (slot as usize) < rows.len() {
        rows[slot as usize] = row;
    } else {
        rows.push_reserved(row);
    }
}

/// The same for a task.
pub(crate) fn vacant_task(rows: &mut Vec<TaskRow>, free: u32) -> Result<u32, Refusal>
    ensures stays { rows.new.items ≡ rows.old.items }
    ensures within { IfOk result (λ i. i ≤ length rows.new.items) }
    ensures vacant { IfOk result (λ i. (get_or rows.new.items i blank_task).taken ≡ false) }
    ensures room { IfOk result (λ i. length rows.new.items ≤ i → vec_len rows.new < vec_capacity rows.new) }
    ensures memory { IfErr result (λ r. r ≡ Refusal.Memory) }
{
    if (free as usize) < rows.len() && !rows[free as usize].is_taken() {
        return Ok(free);
    }
    if rows.len() >= u32::MAX as usize {
        return Err(Refusal::Memory);
    }
    rows.reserve(1)?;
    Ok(rows.len() as u32)
}

/// Puts a task into a slot.
pub(crate) fn put_task(rows: &mut Vec<TaskRow>, slot: u32, row: TaskRow)
    requires room { length rows.old.items ≤ slot → vec_len rows.old < vec_capacity rows.old }
    ensures { rows.new.items ≡ put_at rows.old.items slot row }
{
    if (slot as usize) < rows.len() {
        rows[slot as usize] = row;
    } else {
        rows.push_reserved(row);
    }
}
