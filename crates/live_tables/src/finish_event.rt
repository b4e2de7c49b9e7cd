//! The events of a finish that lives long.

/// One event of a finish, as `finish_core::FinishEvent`, with numbers of 64 bits. Tasks are numbered
/// in the order in which they are spawned, and ends in the order in which they come. Which of the
/// tasks it was that ended isn't told: they are counted.
#[derive(Clone, Copy)]
pub enum LongFinishEvent {
    /// The owner opened it.
    Opened(u64),
    /// This many tasks were spawned before this one.
    Spawned(u64),
    /// This many tasks had ended before this one.
    Ended(u64),
    /// It was shut: its owner waits for nobody any more.
    Shut,
}
