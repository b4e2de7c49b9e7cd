//! Stealing from the deques of others.
ghost use Rattle.std.specs.Prelude.{◌≡◌, ◌++◌, ◌∷◌, [], ◌<◌, ◌≤◌, ◌+◌, All, map, length, MatchOption};
ghost use Rattle.task_queue.specs.Reaches.{reach_deque, IsReach, stolen_of};
ghost use Rattle.task_queue.specs.Accounts.{IsOneMore};

use crate::deque;
use crate::pace::{Noted, Paces};
use crate::reach::Reach;
use crossbeam_deque::Steal;
use std::sync::Wait;
use std::thread;

// Steals from one deque, again if another thread came first.
pub(crate) fn steal_one<T, R: Wait>(rt: &R, reach: &mut Reach<T>) -> Option<T>
    requires { IsReach reach.old }
    ensures same { reach_deque reach.new ≡ reach_deque reach.old }
    ensures ready { IsReach reach.new }
    ensures taken { MatchOption result (stolen_of reach.new ≡ stolen_of reach.old)
        (λ x. stolen_of reach.new ≡ stolen_of reach.old ++ x ∷ []) }
{
    for _ in rt.forever() {
        let Reach { thief, pass } = reach;
        match deque::steal(thief, pass) {
            Steal::Success(item) => return Some(item),
            Steal::Empty => return None,
            Steal::Retry => thread::yield_now(),
        }
    }
    unreachable!()
}

// Steals from the deque at this place.
fn steal_at<T, R: Wait>(rt: &R, reaches: &mut [Reach<T>], at: usize) -> Option<T>
    requires ready { All IsReach reaches.old }
    requires at { at < length reaches.old }
    ensures same { map reach_deque reaches.new ≡ map reach_deque reaches.old }
    ensures ready { All IsReach reaches.new }
    ensures taken { MatchOption result (map stolen_of reaches.new ≡ map stolen_of reaches.old)
        (λ x. IsOneMore (map stolen_of reaches.old) x (map stolen_of reaches.new)) }
{
    steal_one(rt, &mut reaches[at])
}

// The place so far ahead, in a round of so many.
fn around(ahead: usize, workers: usize) -> usize
    requires { ahead < workers + workers }
    ensures { result < workers }
{
    if ahead < workers {
        ahead
    } else {
        ahead - workers
    }
}

// Steals from the first deque after this worker's that has something, in a round.
pub(crate) fn steal_any<T, R: Wait>(rt: &R, reaches: &mut [Reach<T>], worker: usize) -> Option<T>
    requires ready { All IsReach reaches.old }
    requires worker { (worker < length reaches.old) × (length reaches.old ≤ 17) }
    ensures same { map reach_deque reaches.new ≡ map reach_deque reaches.old }
    ensures ready { All IsReach reaches.new }
    ensures taken { MatchOption result (map stolen_of reaches.new ≡ map stolen_of reaches.old)
        (λ x. IsOneMore (map stolen_of reaches.old) x (map stolen_of reaches.new)) }
{
    let workers = reaches.len();
    for step in 1..workers {
        let at = around(worker + step, workers);
        if let Some(item) = steal_at(rt, reaches, at) {
            return Some(item);
        }
    }
    None
}

// The same, but only from a worker that has taken none of its own since it was noted. Each is noted.
pub(crate) fn steal_slow<T, R: Wait>(
    rt: &R,
    reaches: &mut [Reach<T>],
    worker: usize,
    paces: &Paces,
    noted: &mut Noted,
) -> Option<T>
    requires ready { All IsReach reaches.old }
    requires worker { (worker < length reaches.old) × (length reaches.old ≤ 17) }
    ensures same { map reach_deque reaches.new ≡ map reach_deque reaches.old }
    ensures ready { All IsReach reaches.new }
    ensures taken { MatchOption result (map stolen_of reaches.new ≡ map stolen_of reaches.old)
        (λ x. IsOneMore (map stolen_of reaches.old) x (map stolen_of reaches.new)) }
{
    let workers = reaches.len();
    for step in 1..workers {
        let at = around(worker + step, workers);
        if paces.has_moved(noted, at) {
            continue;
        }
        if let Some(item) = steal_at(rt, reaches, at) {
            return Some(item);
        }
    }
    None
}
