//! The lines of a world's report, one table after the other.
ghost use Rattle.std.specs.Prelude.{◌≡◌, ◌≤◌, ◌<◌, ◌+◌, ◌++◌, ℕ, [], length, map, not, vec_len, vec_capacity, IfOk, IfErr};
ghost use Rattle.phase_modes.specs.Lists.{is_empty};
ghost use Rattle.finish_core.specs.Finish.{spawned_tasks};
ghost use Rattle.world_model.specs.Report.{totals_line};
ghost use Rattle.world_model.specs.SumLines.{lines_of, IsWithin};
ghost use Rattle.world_records.specs.inner.Reports.{story_in, made, born, opened, task_row, finish_row, row_if_made, with_if_made, row_if_born, row_if_opened};

use finish_core::FinishState;
use phase_modes::Refusal;
use std::alloc::Global;
use world_model::{
    FinishLine, PhaserLines, TaskLine, TotalsLine, finish_line, no_totals, phaser_sums, plus,
};
use world_records::{KeptPhaser, KeptTask};

/// The lines of phasers, and their totals.
#[derive(Drop)]
pub(crate) struct PhaserRows {
    pub(crate) lines: Vec<PhaserLines>,
    pub(crate) totals: TotalsLine,
}

impl PhaserRows {
    /// No line, with room for so many.
    fn new(alloc: Global, room: u32) -> Result<PhaserRows, Refusal>
        ensures lines { IfOk result (λ r. r.lines.items ≡ []) }
        ensures totals { IfOk result (λ r. r.totals ≡ totals_line []) }
        ensures room { IfOk result (λ r. vec_capacity r.lines ≡ room) }
        ensures memory { IfErr result (λ r. r ≡ Refusal.Memory) }
    {
        let Ok(lines) = Vec::with_capacity(alloc, room as usize) else {
            return Err(Refusal::Memory);
        };
        Ok(PhaserRows {
            lines,
            totals: no_totals(),
        })
    }

    /// One phaser more, if it was made.
    fn add(&mut self, alloc: Global, number: u32, phaser: &KeptPhaser) -> Result<(), Refusal>
        requires room { vec_len self.old.lines < vec_capacity self.old.lines }
        requires few { IsWithin 4194304 self.old.totals }
        ensures lines { IfOk result (λ _. self.new.lines.items
            ≡ self.old.lines.items ++ row_if_made number phaser.now) }
        ensures totals { IfOk result (λ _. self.new.totals ≡ with_if_made phaser.now.past self.old.totals) }
        ensures few { IfOk result (λ _. (n : ℕ) → IsWithin n self.old.totals
            → IsWithin (n + 65536) self.new.totals) }
        ensures size { IfOk result (λ _. vec_len self.new.lines ≤ vec_len self.old.lines + 1) }
        ensures room { IfOk result (λ _. vec_capacity self.new.lines ≡ vec_capacity self.old.lines) }
        ensures memory { IfErr result (λ r. r ≡ Refusal.Memory) }
    {
        if phaser.is_unmade() {
            return Ok(());
        }
        let sums = phaser_sums(alloc, number, phaser.history())?;
        self.totals = plus(self.totals, sums.totals);
        self.lines.push_reserved(sums.lines);
        Ok(())
    }
}

/// The lines of the phasers that were made.
pub(crate) fn phaser_rows(
    alloc: Global,
    phasers: &[KeptPhaser],
    count: u32,
) -> Result<PhaserRows, Refusal>
    requires size { length phasers.now ≡ count }
    requires few { count ≤ 64 }
    ensures lines { IfOk result (λ r. r.lines.items
        ≡ map (λ n. lines_of n (story_in phasers.now n)) (made phasers.now count)) }
    ensures totals { IfOk result (λ r. r.totals
        ≡ totals_line (map (λ n. (story_in phasers.now n).past) (made phasers.now count))) }
    ensures memory { IfErr result (λ r. r ≡ Refusal.Memory) }
{
    let mut rows = PhaserRows::new(alloc, count)?;
    for number in 0..count {
        rows.add(alloc, number, &phasers[number as usize])?;
    }
    Ok(rows)
}

/// The lines of the root and the tasks that were spawned.
pub(crate) fn task_rows(
    alloc: Global,
    tasks: &[KeptTask],
    count: u32,
) -> Result<Vec<TaskLine>, Refusal>
    requires { length tasks.now ≡ count }
    ensures rows { IfOk result (λ v. v.items ≡ map (task_row tasks.now) (born tasks.now count)) }
    ensures memory { IfErr result (λ r. r ≡ Refusal.Memory) }
{
    let Ok(mut rows) = Vec::with_capacity(alloc, count as usize) else {
        return Err(Refusal::Memory);
    };
    for number in 0..count {
        add_task(&mut rows, number, &tasks[number as usize]);
    }
    Ok(rows)
}

/// The lines of the finishes that were opened.
pub(crate) fn finish_rows(
    alloc: Global,
    finishes: &[FinishState],
    count: u32,
) -> Result<Vec<FinishLine>, Refusal>
    requires { length finishes.now ≡ count }
    ensures rows { IfOk result (λ v. v.items ≡ map (finish_row finishes.now) (opened finishes.now count)) }
    ensures memory { IfErr result (λ r. r ≡ Refusal.Memory) }
{
    let Ok(mut rows) = Vec::with_capacity(alloc, count as usize) else {
        return Err(Refusal::Memory);
    };
    for number in 0..count {
        add_finish(&mut rows, number, &finishes[number as usize]);
    }
    Ok(rows)
}

/// One task more, if it was born.
fn add_task(rows: &mut Vec<TaskLine>, number: u32, task: &KeptTask)
    requires { vec_len rows.old < vec_capacity rows.old }
    ensures rows { rows.new.items ≡ rows.old.items ++ row_if_born number task.now }
    ensures size { vec_len rows.new ≤ vec_len rows.old + 1 }
    ensures room { vec_capacity rows.new ≡ vec_capacity rows.old }
{
    if task.is_born() {
        rows.push_reserved(task.row(number));
    }
}

/// One finish more, if it was opened.
fn add_finish(rows: &mut Vec<FinishLine>, number: u32, finish: &FinishState)
    requires { vec_len rows.old < vec_capacity rows.old }
    ensures rows { rows.new.items ≡ rows.old.items ++ row_if_opened number finish.now.past }
    ensures size { vec_len rows.new ≤ vec_len rows.old + 1 }
    ensures room { vec_capacity rows.new ≡ vec_capacity rows.old }
{
    if is_opened(finish) {
        rows.push_reserved(row_of(number, finish));
    }
}

#[tactic(auto, using(world_records::proofs::Calls::none_at_all))]
/// Whether the finish was opened.
fn is_opened(finish: &FinishState) -> bool
    ensures { result ≡ not (is_empty finish.now.past) }
{
    !finish.history().is_empty()
}

/// The line of a finish with this number.
fn row_of(number: u32, finish: &FinishState) -> FinishLine
    ensures { result ≡ record { finish = number; tasks = length (spawned_tasks finish.now.past) } }
{
    let _most = finish.tasks();
    finish_line(number, finish.history())
}
