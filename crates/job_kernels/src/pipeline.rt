//! The pipeline in one thread.
ghost use Rattle.std.specs.Prelude.{◌≡◌, ◌≤◌, IfOk, IfErr};
ghost use Rattle.phase_modes.specs.declared.refusal.Refusal.TheVariants.{Memory as NoMemory};
ghost use Rattle.job_kernels.specs.Pipeline.{pipeline_item, pipeline};

use phase_modes::Refusal;
use std::alloc::Global;

/// How many stages a pipeline has, and how many items go through it.
#[derive(Clone, Copy, Debug, PartialEq, Eq)]
pub struct PipelineSize {
    pub stages: u32,
    pub items: u32,
}

impl PipelineSize {
    /// What this item is behind all stages.
    fn item(self, item: u32) -> u32
        requires stages { self.stages ≤ 15 }
        requires item { item ≤ 100 }
        ensures { result ≡ pipeline_item self.stages item }
    {
        let mut value = item;
        for stage in 0..self.stages {
            value += stage + 1;
        }
        value
    }
}

/// The items in order, each as it is behind all stages; `Memory` if there is too little for them.
pub fn pipeline_plain(alloc: Global, size: PipelineSize) -> Result<Vec<u32>, Refusal>
    requires stages { size.stages ≤ 15 }
    requires items { size.items ≤ 100 }
    ensures items { IfOk result (λ v. v.items ≡ pipeline size.stages size.items) }
    ensures memory { IfErr result (λ e. e ≡ NoMemory) }
{
    let mut values = Vec::new(alloc);
    for before in 0..size.items {
        values.push(size.item(before + 1))?;
    }
    Ok(values)
}
