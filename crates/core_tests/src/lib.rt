//! Tests of one phaser's crates, up to `phaser_core`, of `phase_modes`, `phase_model` and `finish_core`, and
//! of `world_model` and `world_core`, which call what these export.
//!
//! A library of tests alone: if they stood in the crates themselves, these would be proved once
//! more with each change of a test.
#![tactic(auto)]

#[cfg(test)]
mod asserted;
#[cfg(test)]
mod cells;
#[cfg(test)]
mod definitions;
#[cfg(test)]
mod drawn;
#[cfg(test)]
mod finishes;
#[cfg(test)]
mod histories;
#[cfg(test)]
mod lines;
#[cfg(test)]
mod long_phasers;
#[cfg(test)]
mod modes;
#[cfg(test)]
mod numbers;
#[cfg(test)]
mod phasers;
#[cfg(test)]
mod side_by_side;
#[cfg(test)]
mod singles;
#[cfg(test)]
mod spawn_lists;
#[cfg(test)]
mod sums;
#[cfg(test)]
mod worlds;
