//! The worked examples of one phaser: its limits, its accumulators and its bound, the calls, and
//! the reply to each call.
//!
//! They were worked out by hand from the rules. Whatever answers calls has to answer these: the
//! phaser alone (`core_tests`), and a phaser of a table behind its lock (`lock_tests`).
#![tactic(auto)]

mod example;
mod rows;

pub use example::{Example, PLAIN, Row, first_ops};
pub use rows::{
    ASKED_AGAIN_WHILE_PARKED, BOUND_AND_REFUSALS, BOUNDED_SIGNALLER, EMPTY_FOLDS, EXTREME_VALUES,
    HISTORY_FULL, LATE_READER, NO_ROOM_FOR_A_SINGLE, ON_A_TABLE, ONE_TASK_TURN,
    PLAIN_WAITER_HOLDS_STILL, REFUSALS_IN_ORDER, REGISTRATIONS_FULL, ROOM_FOR_A_SINGLE,
    SIGNALLER_RUNS_AHEAD, SINGLE_STATEMENT, SPLIT_PHASE_CHILD, TWO_TASKS_TURN, VALUE_AFTER_SIGNAL,
    VALUE_OF_DROPPED_SENDER, WAITER_ALONE,
};
