//! How fast workers take what stands in their own deques.
use crate::opening::add;
use crossbeam_utils::CachePadded;
use std::alloc::{AllocError, Global};
use std::sync::atomic::{AtomicU64, Ordering};

/// The most workers that a queue has.
const MOST_WORKERS: usize = 16;

/// How many items each worker has taken from its own deque while somebody looked.
#[derive(Drop)]
pub(crate) struct Paces {
    taken: Vec<CachePadded<AtomicU64>>,
}

/// What a looker has last seen of them.
#[derive(Drop)]
pub(crate) struct Noted {
    taken: [u64; MOST_WORKERS],
}

impl Paces {
    /// Nobody has taken any.
    pub(crate) fn new(alloc: Global, workers: u32) -> Result<Paces, AllocError> {
        let mut taken = Vec::new(alloc);
        for _worker in 0..workers {
            add(&mut taken, CachePadded::new(AtomicU64::new(0)))?;
        }
        Ok(Paces { taken })
    }

    /// The worker has taken one.
    pub(crate) fn step(&self, worker: usize) {
        if let Some(taken) = self.taken.get(worker) {
            taken.fetch_add(1, Ordering::SeqCst);
        }
    }

    /// Whether the worker has taken one since it was noted. It is noted anew.
    pub(crate) fn has_moved(&self, noted: &mut Noted, worker: usize) -> bool {
        let (Some(taken), Some(last)) = (self.taken.get(worker), noted.taken.get_mut(worker)) else {
            return false;
        };
        let now = taken.load(Ordering::SeqCst);
        let has_moved = now != *last;
        *last = now;
        has_moved
    }
}

impl Noted {
    /// Nothing was seen.
    pub(crate) fn new() -> Noted {
        Noted {
            taken: [0; MOST_WORKERS],
        }
    }
}
