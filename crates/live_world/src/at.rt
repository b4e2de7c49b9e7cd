//! Names of tasks and finishes: a slot, and which of those that were ever in it.

/// A task: its slot, and its number, which comes once.
#[derive(Clone, Copy, Debug, PartialEq, Eq)]
pub struct TaskAt {
    pub slot: u32,
    pub number: u64,
}

/// A finish: its slot, and its number, which comes once.
#[derive(Clone, Copy, Debug, PartialEq, Eq)]
pub struct FinishAt {
    pub slot: u32,
    pub number: u64,
}
