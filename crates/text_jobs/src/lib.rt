//! Jobs on texts, from bytes to lines and a status: an events file is answered, a program is run by
//! picks, a trace is replayed. What the jobs on a program share stands here too: its text is read, and
//! the trace and the report of its run are written.
#![tactic(auto)]

mod events;
mod events_file;
mod events_reading;
mod reading;
mod replaying;
mod scheduling;
mod writing;

pub use events::{MOST_EVENTS_BYTES, answer, counted_events_from, events_from, events_on};
pub use events_file::EventsFile;
pub use events_reading::read_events;
pub use reading::{MOST_PROGRAM_BYTES, program_of};
pub use replaying::{MOST_TRACE_BYTES, replay_bytes, replay_on};
pub use scheduling::{schedule_bytes, schedule_on};
pub use writing::{put_run, put_trace};
