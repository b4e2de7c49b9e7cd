//! What holds of each history in which the tasks of a kernel go on. Each function does nothing: its
//! contract is the law, and the check proves it.
ghost use Rattle.job_kernels.specs.Pipelines.{RunsComeToPipeline};
ghost use Rattle.job_kernels.specs.Stencils.{LooksSeeCells, RunsComeToStencil, ValuesAreCells};
ghost use Rattle.job_kernels.specs.Totals.{RunsTotalPipeline, RunsTotalStencil};

/// Whatever the tasks of a stencil send, in whatever order they go on, are its cells: for each phase
/// that cell of the row after as many steps.
pub fn stencil_values_are_cells()
    ensures { ValuesAreCells }
{}

/// Each look of a task of a stencil sees the cell as it was after the steps before.
pub fn stencil_looks_see_cells()
    ensures { LooksSeeCells }
{}

/// A whole run of a stencil in which no task was refused has the cells of the stencil.
pub fn stencil_runs_come_to_it()
    ensures { RunsComeToStencil }
{}

/// A whole run of a pipeline in which no task was refused has the items of the pipeline, in
/// order.
pub fn pipeline_runs_come_to_it()
    ensures { RunsComeToPipeline }
{}

/// The report of a whole run of a stencil in which no task was refused has the totals that the first
/// cells and the steps say.
pub fn stencil_runs_total_it()
    ensures { RunsTotalStencil }
{}

/// The report of a whole run of a pipeline in which no task was refused has the totals that the
/// stages and the items say.
pub fn pipeline_runs_total_it()
    ensures { RunsTotalPipeline }
{}
