//! The workers of a run.

/// The workers of a run: `rt` makes the threads, and there are so many workers, each in a thread of
/// its own if one can be made.
#[derive(Drop)]
pub struct Workers<'a, R> {
    pub rt: &'a R,
    pub number: u32,
}
