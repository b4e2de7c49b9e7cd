//! Two programs for tasks on phasers, each beside a function that does the same in one thread: a
//! stencil over a row of cells, and a pipeline of stages. What they compute is defined in `specs/`.
//!
//! Beside them stand the laws of what their whole runs end with, in whatever order their tasks go on.
#![tactic(auto)]

mod examples;
mod heard;
mod laws;
mod pipeline;
mod pipeline_body;
mod refused;
mod results;
mod stencil;
mod stencil_body;
mod whole_runs;

pub use examples::worked_runs;
pub use laws::{
    lone_values_are_seen, pipeline_adds_triangle, pipeline_items_in_order,
    pipeline_root_spawns_stages, pipeline_sink_sees_all, pipeline_source_goes_by_it,
    pipeline_stages_go_by_it, pipeline_tasks_send_it, stencil_cells_go_by_it,
    stencil_cells_send_it, stencil_root_spawns_cells, stencil_stays_at_most,
};
pub use pipeline::{PipelineSize, pipeline_plain};
pub use pipeline_body::PipelineBody;
pub use refused::{lowest_refused, refusal_of};
pub use results::{cells_of, items_of};
pub use stencil::stencil_plain;
pub use stencil_body::{StencilBody, StencilCell};
pub use whole_runs::{
    pipeline_runs_come_to_it, pipeline_runs_total_it, stencil_looks_see_cells,
    stencil_runs_come_to_it, stencil_runs_total_it, stencil_values_are_cells,
};
