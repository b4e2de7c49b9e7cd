//! Judges a log of phasers' events line by line, as it comes.
#![tactic(auto)]

mod compact;
mod event;
mod items;
mod job;
mod judging;
mod laws;
mod line;
mod lines;
mod report;
mod stop;
mod writes;

pub use job::judge_from;
pub use laws::accepted_logs_are_legal;
pub use line::{Line, MOST_LINE_BYTES, Unread, event_of_line, is_header_line};
pub use report::Every;
pub use writes::Writes;
