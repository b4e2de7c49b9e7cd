//! What wakes a thread. Its wait is often shorter than falling asleep and being woken, so it looks
//! whether the bell has been rung for a moment before it sleeps.
use std::hint::spin_loop;
use std::sync::Wait;
use std::sync::atomic::{AtomicBool, Ordering};
use std::thread::Parker;

/// How often a thread looks before it sleeps: some 50 µs.
const LOOKS: u32 = 1_000;

/// The bell of one thread, which others ring.
#[derive(Drop)]
pub struct Bell {
    parker: Parker,
    rung: AtomicBool,
}

impl Bell {
    pub fn new() -> Bell {
        Bell {
            parker: Parker::new(),
            rung: AtomicBool::new(false),
        }
    }

    /// Wakes the thread, or lets it not fall asleep.
    pub fn ring(&self) {
        self.parker.unpark();
        self.rung.store(true, Ordering::SeqCst);
    }

    /// Waits until the bell is rung, or was since the last wait. It may also end too early, so
    /// a thread that waits asks again.
    pub fn wait<R: Wait>(&self, rt: &R) {
        for _look in 0..LOOKS {
            if self.rung.load(Ordering::SeqCst) {
                break;
            }
            spin_loop();
        }
        self.parker.park(rt);
        self.rung.store(false, Ordering::SeqCst);
    }
}
