//! A stealer with a pass of its deque.
use crate::deque::Thief;
use crate::rule::Hand;
use crossbeam_deque::Pass;

/// A stealer, and a pass of its deque.
#[derive(Drop)]
pub struct Reach<T> {
    pub thief: Thief<T>,
    pub pass: Pass<T, Hand<T>>,
}
