//! Traces of runs: the events of a world with their tickets, each look with what it saw, and which
//! traces a world explains. The definitions stand in `specs/`. It reads and replays nothing.
#![tactic(auto)]

mod entries;
mod event;
mod in_world;
mod kept;
mod laws;
mod log;
mod long;
mod part;
mod trace;
mod view;

pub use event::{TracedEvent, TracedStep};
pub use laws::{
    explained_is_legal, faultless_is_explained, first_fault_is_first, parts_have_owners,
    projections_are_parts, worked_traces,
};
pub use log::Log;
pub use long::LargeEvent;
pub use part::Part;
pub use trace::Trace;
pub use view::{EventView, ShortAct, ShortStep};
