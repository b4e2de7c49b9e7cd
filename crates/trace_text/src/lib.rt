//! The text of a trace: a trace to bytes, and bytes to a trace. What the text of a trace is, and
//! which trace a text spells, is defined in `specs/`. Version 2 is written, and versions 1 and 2 are
//! read: version 1 is of traces in which no phaser is bounded. A text is read as a stream of JSON
//! values, since `serde_json` reads a whole text alone.
#![tactic(auto)]

mod forms;
mod laws;
mod reading;
mod stream_values;
mod version;
mod writing;

pub use forms::held_traces_are_read_back;
pub use laws::{
    explained_note_refusals, older_texts_are_read_back, texts_are_read_back, traces_are_read_back,
    worked_examples,
};
pub use reading::from_json;
pub use stream_values::next_value;
pub use trace_model::Trace;
pub use writing::to_json;
