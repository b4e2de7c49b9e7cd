//! The line of a finish.
ghost use Rattle.std.specs.Prelude.{◌≡◌, ◌≤◌, length, reverse};
ghost use Rattle.finish_core.specs.Finish.{spawned_tasks};

use crate::FinishLine;
use finish_core::FinishEvent;

/// The line of a finish with this number and these events, the oldest first.
pub fn finish_line(finish: u32, events: &[FinishEvent]) -> FinishLine
    requires { length events.now ≤ 8194 }
    ensures { result ≡ record { finish = finish; tasks = length (spawned_tasks (reverse events.now)) } }
{
    FinishLine {
        finish,
        tasks: spawned(events),
    }
}

#[tactic(auto, using(crate::proofs::Spawns::spawned_more))]
/// How many tasks were spawned.
fn spawned(events: &[FinishEvent]) -> u32
    requires { length events.now ≤ 8194 }
    ensures { result ≡ length (spawned_tasks (reverse events.now)) }
{
    let mut tasks = 0;
    for i in 0..events.len() {
        if let FinishEvent::Spawned(_) = events[i] {
            tasks += 1;
        }
    }
    tasks
}
