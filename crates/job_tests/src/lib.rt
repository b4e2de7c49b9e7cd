//! Tests of the words of the command line and of texts, of events files and how a job ends, and of what
//! a job without threads is made of: programs, their runs by picks, traces, and what a task in flight
//! knows of itself; and of what is judged as it comes. They call what these crates export.
//!
//! A library of tests alone: if they stood in the crates themselves, these would be proved once
//! more with each change of a test.
#![tactic(auto)]

#[cfg(test)]
mod asserted;
#[cfg(test)]
mod ends;
#[cfg(test)]
mod entries;
#[cfg(test)]
mod events;
#[cfg(test)]
mod fails_once;
#[cfg(test)]
mod json_words;
#[cfg(test)]
mod judged_logs;
#[cfg(test)]
mod judged_runs;
#[cfg(test)]
mod programs_by_picks;
#[cfg(test)]
mod replays;
#[cfg(test)]
mod schedules;
#[cfg(test)]
mod standings;
#[cfg(test)]
mod walks;
#[cfg(test)]
mod words;
