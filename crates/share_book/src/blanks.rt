//! What the books of a run begin as.
ghost use Rattle.std.specs.Prelude.{◌≡◌, ◌≤◌};

use std::sync::ledger::Blank;

/// What `open` starts from: the seven ledgers before they are opened, for so many phasers and
/// workers. Whoever opens them names each ledger by a type, and has its name and number of parts
/// here.
#[derive(Drop)]
pub struct Blanks {
    pub phasers: u32,
    pub workers: u32,
    pub events_by_phaser: Blank,
    pub events_by_worker: Blank,
    pub up_by_phaser: Blank,
    pub up_by_worker: Blank,
    pub down_by_phaser: Blank,
    pub down_by_worker: Blank,
    pub room: Blank,
    ghost few: { phasers ≤ 64 },
    ghost events_by_phaser_is: { events_by_phaser.parts ≡ phasers },
    ghost events_by_worker_is: { events_by_worker.parts ≡ workers },
    ghost up_by_phaser_is: { up_by_phaser.parts ≡ phasers },
    ghost up_by_worker_is: { up_by_worker.parts ≡ workers },
    ghost down_by_phaser_is: { down_by_phaser.parts ≡ phasers },
    ghost down_by_worker_is: { down_by_worker.parts ≡ workers },
    ghost room_is: { room.parts ≡ phasers },
}

impl Blanks {
    /// Blanks for at most 64 phasers and any number of workers.
    pub fn new(phasers: u32, workers: u32) -> Blanks
        requires { phasers ≤ 64 }
        ensures { (result.phasers ≡ phasers) × (result.workers ≡ workers) }
    {
        let of_phasers = u64::from(phasers);
        let of_workers = u64::from(workers);
        Blanks {
            phasers,
            workers,
            events_by_phaser: Blank::new(of_phasers),
            events_by_worker: Blank::new(of_workers),
            up_by_phaser: Blank::new(of_phasers),
            up_by_worker: Blank::new(of_workers),
            down_by_phaser: Blank::new(of_phasers),
            down_by_worker: Blank::new(of_workers),
            room: Blank::new(of_phasers),
        }
    }
}
