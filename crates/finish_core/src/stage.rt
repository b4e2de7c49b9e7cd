//! How far a finish has come.

/// How far a finish has come.
#[derive(Clone, Copy, Debug, PartialEq, Eq)]
pub(crate) enum Stage {
    /// It hasn't been opened.
    Fresh,
    /// It was opened, and may have tasks in it.
    Open,
    /// It was shut, and nothing can happen in it any more.
    Shut,
}
