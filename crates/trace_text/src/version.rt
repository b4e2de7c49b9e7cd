//! The versions of a trace's text.

/// A version of the text of a trace.
#[derive(Clone, Copy)]
pub enum Version {
    /// The older one, which says no phaser's bound.
    First,
    /// The one that is written: a phaser's making says the bound, or that there is none.
    Second,
}
