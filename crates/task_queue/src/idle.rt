//! The workers that have no item: some look for one, and the others sleep.
use crossbeam_utils::CachePadded;
use std::sync::atomic::{AtomicBool, AtomicU64, Ordering};
use std::sync::{Condvar, Mutex, Wait};

// What a worker that looks counts in the word of all idle workers, and what one that sleeps.
const LOOKER: u64 = 1;

const SLEEPER: u64 = 1 << 32;

/// The idle workers of a queue. One that looks is a looker; one that has lain down is a sleeper until
/// it is called, and then a looker again.
#[derive(Drop)]
pub(crate) struct Idle {
    // The lookers, and the sleepers times `SLEEPER`. The sleepers change under the lock alone.
    word: CachePadded<AtomicU64>,
    // How many have been called and haven't risen yet.
    called: Mutex<u64>,
    bell: Condvar,
    is_closed: AtomicBool,
}

// How many lookers there are, as the word says.
fn lookers(word: u64) -> u64 {
    word % SLEEPER
}

// Whether there are sleepers, and no looker.
fn all_sleep(word: u64) -> bool {
    word >= SLEEPER && lookers(word) == 0
}

impl Idle {
    /// Nobody is idle.
    pub(crate) fn new() -> Idle {
        Idle {
            word: CachePadded::new(AtomicU64::new(0)),
            called: Mutex::new(0),
            bell: Condvar::new(),
            is_closed: AtomicBool::new(false),
        }
    }

    /// Whether the queue is closed.
    pub(crate) fn is_closed(&self) -> bool {
        self.is_closed.load(Ordering::SeqCst)
    }

    /// Whether somebody looks, as it seems at the moment.
    pub(crate) fn is_looked_for(&self) -> bool {
        lookers(self.word.load(Ordering::SeqCst)) > 0
    }

    /// Whether more than one looks, as it seems at the moment.
    pub(crate) fn do_several_look(&self) -> bool {
        lookers(self.word.load(Ordering::SeqCst)) > 1
    }

    /// Calls a sleeper if there are any, and no looker. It is asked after all that was put before.
    pub(crate) fn wake<R: Wait>(&self, rt: &R) {
        if all_sleep(self.word.fetch_add(0, Ordering::SeqCst)) && self.call(rt) {
            self.bell.notify_one();
        }
    }

    /// A worker begins to look.
    pub(crate) fn begin_to_look(&self) {
        self.word.fetch_add(LOOKER, Ordering::SeqCst);
    }

    /// A looker is idle no longer. If it was the last one, a sleeper is called in its place.
    pub(crate) fn stop_looking<R: Wait>(&self, rt: &R) {
        self.word.fetch_sub(LOOKER, Ordering::SeqCst);
        self.wake(rt);
    }

    /// A looker is a sleeper from now on, though it doesn't sleep yet.
    pub(crate) fn lie_down<R: Wait>(&self, rt: &R) {
        let _called = self.called.lock(rt);
        self.word.fetch_add(SLEEPER - LOOKER, Ordering::SeqCst);
    }

    /// A worker that has lain down is a looker again.
    pub(crate) fn get_up<R: Wait>(&self, rt: &R) {
        let mut called = self.called.lock(rt);
        self.rise(&mut called);
    }

    /// A worker that has lain down sleeps until it is called or the queue is closed, and is a looker
    /// again.
    pub(crate) fn sleep<R: Wait>(&self, rt: &R) {
        let called = self.called.lock(rt);
        let mut called = self
            .bell
            .wait_while(rt, called, |called| *called == 0 && !self.is_closed());
        self.rise(&mut called);
    }

    /// Closes the queue, and wakes all.
    pub(crate) fn close<R: Wait>(&self, rt: &R) {
        let called = self.called.lock(rt);
        self.is_closed.store(true, Ordering::SeqCst);
        drop(called);
        self.bell.notify_all();
    }

    // Counts a sleeper as called, and as a looker, if all still sleep. Whether it did.
    fn call<R: Wait>(&self, rt: &R) -> bool {
        let mut called = self.called.lock(rt);
        if !all_sleep(self.word.fetch_add(0, Ordering::SeqCst)) {
            return false;
        }
        *called = called.wrapping_add(1);
        self.word.fetch_sub(SLEEPER - LOOKER, Ordering::SeqCst);
        true
    }

    // Under the lock. If somebody was called, this is the one, and counted as a looker already.
    fn rise(&self, called: &mut u64) {
        if *called > 0 {
            *called -= 1;
        } else {
            self.word.fetch_sub(SLEEPER - LOOKER, Ordering::SeqCst);
        }
    }
}
