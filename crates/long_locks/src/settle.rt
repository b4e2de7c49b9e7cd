//! Those who are parked make their calls again, until each of them has to wait.
ghost use Rattle.std.specs.Prelude.{◌≡◌, ◌+◌, ◌<◌, ◌≤◌, ◌∷◌, [], true, false, length};
ghost use Rattle.std.specs.VecDeque.{deque_len, deque_capacity};
ghost use Rattle.phaser_core.specs.Parking.{all_wait};
ghost use Rattle.phaser_core.specs.Settled.{IsSettled};
ghost use Rattle.long_locks.specs.Courses.{is_over};
ghost use Rattle.long_locks.specs.Turns.{standing, queue_after, gone_after, turn_of, IsTurned, IsSound};
ghost use Rattle.long_locks.specs.Firsts.{first_moves};

use crate::answer::{Freed, FreedList};
use crate::course::{Course, Then, has_moved, step};
use crate::own::waiter_to_pass;
use phaser_core::{LongPhaser, LongTask, Parked};
use std::collections::VecDeque;

/// Parks a task whose call came so far, unless it is over.
pub fn park(course: Course, waiter: Parked<Then>, parked: &mut VecDeque<Parked<Then>>)
    requires seats { 256 ≤ deque_capacity parked.old }
    requires seated { deque_len parked.old ≤ 256 }
    requires place { is_over course ≡ false → deque_len parked.old < 256 }
    ensures queue { parked.new.items ≡ queue_after course waiter parked.old.items }
    ensures seats { 256 ≤ deque_capacity parked.new }
    ensures seated { deque_len parked.new ≤ 256 }
{
    let Parked { task, call, item } = waiter;
    match course {
        Course::Over(_) => {}
        Course::HasSignalled => {
            parked.push_back_reserved(waiter_to_pass(task));
        }
        Course::Waits => parked.push_back_reserved(Parked { task, call, item }),
    }
}

/// Puts a task that was parked among those who are freed, if its call is over.
fn note(course: Course, task: LongTask, freed: &mut FreedList)
    requires { is_over course ≡ true → length freed.old < 256 }
    ensures { freed.new ≡ gone_after course task freed.old }
{
    match course {
        Course::Over(ended) => freed.put(Freed { task, ended }),
        Course::HasSignalled | Course::Waits => {}
    }
}

/// The first who is parked makes its call again. Returns whether this added an event.
fn turn(state: &mut LongPhaser, parked: &mut VecDeque<Parked<Then>>, freed: &mut FreedList) -> bool
    requires seats { 256 ≤ deque_capacity parked.old }
    requires some { 0 < deque_len parked.old }
    requires room { deque_len parked.old + length freed.old ≤ 256 }
    ensures turned { standing state.new.story parked.new.items freed.new
        ≡ turn_of state.old.story parked.old.items freed.old }
    ensures moved { result ≡ first_moves state.old.story parked.old.items }
    ensures next { state.new.next ≡ state.old.next }
    ensures seats { 256 ≤ deque_capacity parked.new }
{
    let Some(first) = parked.pop_front() else {
        unreachable!()
    };
    let task = first.task;
    let course = step(state, task, first.call, first.item);
    park(course, first, parked);
    note(course, task, freed);
    has_moved(course)
}

/// All who are parked make their calls again, in turn, until each of them has to wait.
fn settle(state: &mut LongPhaser, parked: &mut VecDeque<Parked<Then>>, freed: &mut FreedList)
    requires seats { 256 ≤ deque_capacity parked.old }
    requires room { deque_len parked.old + length freed.old ≤ 256 }
    requires sound { IsSound state.old.story parked.old.items }
    ensures turned { IsTurned (standing state.old.story parked.old.items freed.old)
        (standing state.new.story parked.new.items freed.new) }
    ensures kept { IsSettled state.new.story parked.new.items }
    ensures few { length freed.new ≤ 256 }
    ensures next { state.new.next ≡ state.old.next }
    ensures seats { 256 ≤ deque_capacity parked.new }
    ensures seated { deque_len parked.new ≤ 256 }
{
    let mut ahead = parked.len();
    while ahead > 0 {
        let moved = turn(state, parked, freed);
        ahead = if moved { parked.len() } else { ahead - 1 };
    }
}

/// The same after a call by which somebody may go on, and nothing after any other.
pub fn settle_if(
    may_go_on: bool,
    state: &mut LongPhaser,
    parked: &mut VecDeque<Parked<Then>>,
    freed: &mut FreedList,
)
    requires seats { 256 ≤ deque_capacity parked.old }
    requires seated { deque_len parked.old ≤ 256 }
    requires empty { freed.old ≡ [] }
    requires sound { IsSound state.old.story parked.old.items }
    requires nobody { may_go_on ≡ false → all_wait state.old.story parked.old.items ≡ true }
    ensures turned { IsTurned (standing state.old.story parked.old.items [])
        (standing state.new.story parked.new.items freed.new) }
    ensures still { may_go_on ≡ false → standing state.new.story parked.new.items freed.new
        ≡ standing state.old.story parked.old.items [] }
    ensures kept { IsSettled state.new.story parked.new.items }
    ensures few { length freed.new ≤ 256 }
    ensures next { state.new.next ≡ state.old.next }
    ensures seats { 256 ≤ deque_capacity parked.new }
    ensures seated { deque_len parked.new ≤ 256 }
{
    if may_go_on {
        settle(state, parked, freed);
    }
}
