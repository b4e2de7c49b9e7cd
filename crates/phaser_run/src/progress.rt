//! How fast a run goes, said on standard error while it goes on.
ghost use Rattle.std.specs.Prelude.{◌≡◌, ◌+◌, ◌*◌, ◌/◌, ◌^◌, ◌<◌, ◌≤◌, true};

use run_jobs::{Progress, Pulses};
use std::sync::atomic::{AtomicU64, Ordering};
use std::time::{Clock, Instant};

/// For so many milliseconds after a run began nothing is said.
const QUIET: u64 = 2_000;

/// So many milliseconds lie between two lines.
const BETWEEN: u64 = 1_000;

/// Whether a line is due, so many milliseconds after the run began and the last line was said.
fn is_due(now: u64, last: u64) -> bool
    ensures quiet { result ≡ true → QUIET ≤ now }
    ensures between { result ≡ true → last + BETWEEN ≤ now }
{
    QUIET <= now && BETWEEN <= now.saturating_sub(last)
}

/// So many turns in so many milliseconds, as turns a second; none in no time.
fn each_second(turns: u64, milliseconds: u64) -> u64
    ensures { 0 < milliseconds → turns * 1000 < 2 ^ 64 → result ≡ turns * 1000 / milliseconds }
{
    turns
        .saturating_mul(1_000)
        .checked_div(milliseconds)
        .unwrap_or(0)
}

/// Says how fast a run goes since the last line, and how many tasks there are, at most once a second. The
/// workers share it, and one of them says each line. A clock that can't be read, or a line that can't be
/// written, changes nothing.
#[derive(Drop)]
pub(crate) struct Speed<'a, R> {
    rt: &'a R,
    /// When the run began; none if the clock couldn't be read.
    begun: Option<Instant>,
    /// So many milliseconds after that the last line was said.
    last: AtomicU64,
    /// How many turns there were then.
    turns: AtomicU64,
}

impl<'a, R: Clock + Eprint> Speed<'a, R> {
    /// That of a run which begins now.
    pub(crate) fn new(rt: &'a R) -> Speed<'a, R> {
        Speed {
            rt,
            begun: Instant::now(rt).ok(),
            last: AtomicU64::new(0),
            turns: AtomicU64::new(0),
        }
    }

    /// How many milliseconds ago the run began, if that can be told.
    fn now(&self) -> Option<u64> {
        let since = self.begun?.elapsed(self.rt).ok()?;
        u64::try_from(since.as_millis()).ok()
    }

    /// Says a line of so many milliseconds since the last one.
    fn say(&self, pulses: &Pulses, now: u64, since: u64) {
        let turns = pulses.passes();
        let before = self.turns.swap(turns, Ordering::SeqCst);
        let speed = each_second(turns.saturating_sub(before), since);
        let (seconds, tasks) = (now / 1_000, pulses.alive());
        let _ = eprintln!(self.rt; "{seconds} s: {speed} turns a second, {tasks} tasks");
    }
}

impl<R: Clock + Eprint> Progress for Speed<'_, R> {
    fn beat(&self, pulses: &Pulses) {
        let Some(now) = self.now() else {
            return;
        };
        let last = self.last.load(Ordering::SeqCst);
        if !is_due(now, last) {
            return;
        }
        // One worker wins.
        if self
            .last
            .compare_exchange(last, now, Ordering::SeqCst, Ordering::SeqCst)
            .is_ok()
        {
            self.say(pulses, now, now.saturating_sub(last));
        }
    }
}
