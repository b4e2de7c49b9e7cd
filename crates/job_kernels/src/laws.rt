//! What holds of both kernels for all numbers. Each function does nothing: its contract is the law.
ghost use Rattle.job_kernels.specs.Pipeline.{AddsTriangle};
ghost use Rattle.job_kernels.specs.PipelineLines.{ItemsInOrder, SourceGoesByPipeline, StagesGoByPipeline, SinkSeesAll, TasksSendPipeline, RootSpawnsStages};
ghost use Rattle.job_kernels.specs.Stencil.{StaysAtMost};
ghost use Rattle.job_kernels.specs.Tasks.{LoneValuesAreSeen};
ghost use Rattle.job_kernels.specs.StencilLines.{CellsGoByStencil, CellsSendStencil, RootSpawnsCells};

/// No cell ever becomes more than the greatest was at first, and none is negative: what fits a
/// message at first does so after every step.
pub fn stencil_stays_at_most()
    ensures { StaysAtMost }
{}

/// If one value is sent for a phase, that is its sum, and its least; and none has no least.
pub fn lone_values_are_seen()
    ensures { LoneValuesAreSeen }
{}

/// Behind K stages item i is i + K(K + 1)/2.
pub fn pipeline_adds_triangle()
    ensures { AddsTriangle }
{}

/// As long as the task of a cell sees of its neighbours the cells of the stencil, it sends those of its
/// own.
pub fn stencil_cells_go_by_it()
    ensures { CellsGoByStencil }
{}

/// Whatever the tasks of the cells send, if each sees of its neighbours what they sent for the phase
/// that has ended, they send the cells of the stencil.
pub fn stencil_cells_send_it()
    ensures { CellsSendStencil }
{}

/// The root of a stencil makes a phaser for each cell, then spawns the task of each.
pub fn stencil_root_spawns_cells()
    ensures { RootSpawnsCells }
{}

/// Behind k stages the items of a pipeline come in order, from phase k on.
pub fn pipeline_items_in_order()
    ensures { ItemsInOrder }
{}

/// The source of a pipeline sends the items.
pub fn pipeline_source_goes_by_it()
    ensures { SourceGoesByPipeline }
{}

/// As long as a stage sees the items as they are behind the stages before it, it sends them as they are
/// behind one stage more.
pub fn pipeline_stages_go_by_it()
    ensures { StagesGoByPipeline }
{}

/// The sink of a pipeline looks at each phase behind the last stage, until the last item has come.
pub fn pipeline_sink_sees_all()
    ensures { SinkSeesAll }
{}

/// Whatever the source and the stages send, if each stage sees what was sent to the phaser before it for
/// the phase that has ended, they send the items of the pipeline.
pub fn pipeline_tasks_send_it()
    ensures { TasksSendPipeline }
{}

/// The root of a pipeline makes the phasers, then spawns the source, the stages and the sink.
pub fn pipeline_root_spawns_stages()
    ensures { RootSpawnsStages }
{}
