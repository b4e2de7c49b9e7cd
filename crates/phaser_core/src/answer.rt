//! What the calls answer that may park an item.
use phase_modes::Refusal;

/// What a `signal` answers. The item comes back with it, or it is parked.
#[derive(Drop)]
pub enum SignalAnswer<T> {
    /// The phase is signalled.
    Signalled(T),
    /// The task is too far ahead of a waiter: its item waits in the cell until a call lets it go
    /// on.
    Parked,
    /// Nothing was changed.
    Refused(T, Refusal),
}

/// What a `pass` answers. The item comes back with it, or it is parked. Phases are counted by 32
/// bits if nothing else is said.
#[derive(Drop)]
pub enum PassAnswer<T, P = u32> {
    /// The turn of this phase is ended.
    Passed(T, P),
    /// The task claimed the single of this number.
    Claimed(T, u32),
    /// The item waits in the cell until a call wakes its task.
    Parked,
    /// Nothing was changed.
    Refused(T, Refusal),
}
