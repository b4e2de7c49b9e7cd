//! Tests of `live_world`, which call what it exports: a library of tests alone.
#![tactic(auto)]

#[cfg(test)]
mod asserted;
#[cfg(test)]
mod slots;
