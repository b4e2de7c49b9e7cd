//! A proposed statement, and how far it has come.

/// How far the statement of a phase has come.
#[derive(Clone, Copy, Debug, PartialEq, Eq)]
pub enum Stage {
    /// No task has claimed it.
    Proposed,
    /// This task runs it.
    Claimed(u64),
    /// This task has run it.
    Done(u64),
}

/// The statement that was proposed for a phase.
#[derive(Clone, Copy, Debug, PartialEq, Eq)]
pub struct Statement {
    /// The phase after which it runs.
    pub phase: u64,
    /// The number by which all proposers name it.
    pub number: u32,
    /// How far it has come.
    pub stage: Stage,
}
