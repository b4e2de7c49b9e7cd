//! A task's own call, and whether somebody who is parked may go on by it.
ghost use Rattle.std.specs.Prelude.{◌≡◌, ◌&&◌, ◌||◌, true, false};
ghost use Rattle.phaser_core.specs.Parking.{all_wait, answered, signal_answered};
ghost use Rattle.phaser_core.specs.Settled.{IsSettled};
ghost use Rattle.long_locks.specs.Courses.{course, story_after, pass_course, signal_course, has_moved};
ghost use Rattle.long_locks.specs.Turns.{to_pass};
ghost use Rattle.long_locks.specs.Calls.{called};

use crate::course::{Course, Then, of_pass, of_signal};
use phaser_core::{
    Asked, LongPhaser, LongTask, Parked, ParkedCall, has_gone_on, is_made, is_phase_open,
    may_come_near, may_leave, may_part_proposers,
};
use std::collections::VecDeque;

/// How far one call on the phaser came, and whether somebody who is parked may go on by it.
struct Step {
    course: Course,
    may_go_on: bool,
}

/// How far a task's own call came, whether somebody may go on by it, and for what the task waits if
/// it has to.
pub struct Way {
    pub course: Course,
    pub may_go_on: bool,
    pub waiter: Parked<Then>,
}

/// Whether a call may free somebody: it added an event, and there is a reason.
pub fn may_free(made: bool, leaves: bool) -> bool
    ensures { result ≡ (made && leaves) }
{
    made && leaves
}

fn either(first: bool, second: bool) -> bool
    ensures { result ≡ (first || second) }
{
    first || second
}

/// A task that waits to pass.
pub fn waiter_to_pass(task: LongTask) -> Parked<Then>
    ensures { result ≡ to_pass task }
{
    Parked {
        task,
        call: ParkedCall::Pass,
        item: Then::Return,
    }
}

/// A pass. It lets those go on who waited to signal, for the bound.
fn own_pass(state: &mut LongPhaser, parked: &VecDeque<Parked<Then>>, task: LongTask) -> Step
    ensures course { result.course ≡ pass_course (answered state.old.story task) }
    ensures history { state.new.story ≡ story_after state.old.story task ParkedCall.Pass }
    ensures next { state.new.next ≡ state.old.next }
    ensures nobody { IsSettled state.old.story parked.now.items → result.may_go_on ≡ false
        → all_wait state.new.story parked.now.items ≡ true }
    ensures still { has_moved result.course ≡ false → result.may_go_on ≡ false }
{
    let bounded = state.is_bounded();
    let answer = state.pass(task);
    let gone_on = has_gone_on(answer);
    let may_go_on = may_come_near(bounded, gone_on, state, parked);
    let course = of_pass(answer);
    Step { course, may_go_on }
}

/// A signal. It lets those go on whose phase it closes, and those who proposed another number.
fn own_signal(
    state: &mut LongPhaser,
    parked: &VecDeque<Parked<Then>>,
    task: LongTask,
    number: Option<u32>,
    then: Then,
) -> Step
    ensures course { result.course ≡ signal_course then (signal_answered state.old.story task number) }
    ensures history { state.new.story ≡ story_after state.old.story task (ParkedCall.Signal number) }
    ensures next { state.new.next ≡ state.old.next }
    ensures nobody { IsSettled state.old.story parked.now.items → result.may_go_on ≡ false
        → all_wait state.new.story parked.now.items ≡ true }
    ensures still { has_moved result.course ≡ false → result.may_go_on ≡ false }
{
    let others = may_part_proposers(state, number);
    let was_open = is_phase_open(state, parked);
    let answer = state.signal(task, number);
    let is_open = is_phase_open(state, parked);
    let leaves = may_leave(others, was_open, is_open);
    let made = is_made(answer);
    let may_go_on = may_free(made, leaves);
    let course = of_signal(then, answer);
    Step { course, may_go_on }
}

/// One call on the phaser, of a task that isn't parked.
fn own_step(
    state: &mut LongPhaser,
    parked: &VecDeque<Parked<Then>>,
    task: LongTask,
    call: ParkedCall,
    then: Then,
) -> Step
    ensures course { result.course ≡ course state.old.story task call then }
    ensures history { state.new.story ≡ story_after state.old.story task call }
    ensures next { state.new.next ≡ state.old.next }
    ensures nobody { IsSettled state.old.story parked.now.items → result.may_go_on ≡ false
        → all_wait state.new.story parked.now.items ≡ true }
    ensures still { has_moved result.course ≡ false → result.may_go_on ≡ false }
{
    match call {
        ParkedCall::Pass => own_pass(state, parked, task),
        ParkedCall::Signal(number) => own_signal(state, parked, task, number, then),
    }
}

/// Makes a task's own call. Who has signalled, and is to pass, asks to pass at once.
pub fn advance(state: &mut LongPhaser, parked: &VecDeque<Parked<Then>>, waiter: Parked<Then>) -> Way
    ensures course { result.course ≡ (called state.old.story waiter).course }
    ensures waiter { result.waiter ≡ (called state.old.story waiter).waiter }
    ensures history { state.new.story ≡ (called state.old.story waiter).story }
    ensures next { state.new.next ≡ state.old.next }
    ensures nobody { IsSettled state.old.story parked.now.items → result.may_go_on ≡ false
        → all_wait state.new.story parked.now.items ≡ true }
    ensures still { has_moved (course state.old.story waiter.task waiter.call waiter.item) ≡ false
        → result.may_go_on ≡ false }
{
    let Step { course, may_go_on } = own_step(state, parked, waiter.task, waiter.call, waiter.item);
    match course {
        Course::HasSignalled => {
            let waiter = waiter_to_pass(waiter.task);
            let Step {
                course,
                may_go_on: may_too,
            } = own_step(state, parked, waiter.task, waiter.call, waiter.item);
            let may_go_on = either(may_go_on, may_too);
            Way {
                course,
                may_go_on,
                waiter,
            }
        }
        Course::Over(_) => Way {
            course,
            may_go_on,
            waiter,
        },
        Course::Waits => Way {
            course,
            may_go_on,
            waiter,
        },
    }
}
