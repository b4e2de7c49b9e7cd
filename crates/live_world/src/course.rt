//! What a task is about.

/// What a task is about between two calls.
#[derive(Clone, Copy, Debug, PartialEq, Eq)]
pub enum Course {
    /// Nothing: it may begin an act.
    Idle,
    /// To shut its innermost finish.
    Shutting,
    /// To shut its finishes, and to end.
    Ending,
}
