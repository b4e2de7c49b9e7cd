//! The results of a kernel, read out of the report of its run.
ghost use Rattle.std.specs.Prelude.{◌≡◌, ◌++◌, IfOk, IfErr};
ghost use Rattle.phase_modes.specs.declared.refusal.Refusal.TheVariants.{Memory as NoMemory};
ghost use Rattle.job_kernels.specs.Results.{value_seen, value_in, cell_of, cells_of, values_of, items_of};

use phase_model::Look;
use phase_modes::Refusal;
use std::alloc::Global;
use world_model::{PhaserLines, WorldReport};

/// Adds what was seen, if it is a value.
fn push_seen(values: &mut Vec<i64>, look: Look) -> Result<(), Refusal>
    ensures values { IfOk result (λ _. values.new.items ≡ values.old.items ++ value_seen look) }
    ensures memory { IfErr result (λ e. e ≡ NoMemory) }
{
    if let Look::Value(value) = look {
        values.push(value)?;
    }
    Ok(())
}

/// Adds the values of a phaser in this phase.
fn push_cell(values: &mut Vec<i64>, phase: u32, phaser: &PhaserLines) -> Result<(), Refusal>
    ensures values { IfOk result (λ _. values.new.items ≡ values.old.items ++ cell_of phase phaser.now) }
    ensures memory { IfErr result (λ e. e ≡ NoMemory) }
{
    for fold in &phaser.folds {
        if fold.phase == phase {
            push_seen(values, fold.value)?;
        }
    }
    Ok(())
}

/// Adds the values of a phaser, phase by phase.
fn push_values(values: &mut Vec<i64>, phaser: &PhaserLines) -> Result<(), Refusal>
    ensures values { IfOk result (λ _. values.new.items ≡ values.old.items ++ values_of phaser.now.phaser phaser.now) }
    ensures memory { IfErr result (λ e. e ≡ NoMemory) }
{
    for fold in &phaser.folds {
        push_seen(values, fold.value)?;
    }
    Ok(())
}

/// The cells of a stencil after its last step: what each phaser folded in that phase.
pub fn cells_of(alloc: Global, report: &WorldReport, steps: u32) -> Result<Vec<i64>, Refusal>
    ensures cells { IfOk result (λ v. v.items ≡ cells_of steps report.now) }
    ensures memory { IfErr result (λ e. e ≡ NoMemory) }
{
    let mut values = Vec::new(alloc);
    for phaser in &report.phasers {
        push_cell(&mut values, steps, phaser)?;
    }
    Ok(values)
}

/// The items of a pipeline: the values of the phaser behind its last stage, phase by phase.
pub fn items_of(alloc: Global, report: &WorldReport, stages: u32) -> Result<Vec<i64>, Refusal>
    ensures items { IfOk result (λ v. v.items ≡ items_of stages report.now) }
    ensures memory { IfErr result (λ e. e ≡ NoMemory) }
{
    let mut values = Vec::new(alloc);
    for phaser in &report.phasers {
        if phaser.phaser == stages {
            push_values(&mut values, phaser)?;
        }
    }
    Ok(values)
}
