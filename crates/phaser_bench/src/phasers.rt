//! Calls of phasers alone, whose histories are filled one after the other, or of phasers that live
//! long.

pub mod calls;
pub mod job;
pub mod kind;
mod long;
