//! Many phasers, finishes and tasks at once, as one list of events: the words, the definitions that
//! contracts cite (`specs/`), what holds of each world, and the lines of its report. It runs no task.
#![tactic(auto)]

mod condition;
mod event;
mod examples;
mod finish_lines;
mod folds;
mod laws;
mod phaser_tally;
mod progress;
mod reply;
mod report;
mod report_lines;
mod tally;
mod totals;

pub use condition::Condition;
pub use event::{Begun, Step, Tried, WorldEvent};
pub use examples::{worked_finishes, worked_limits, worked_moments, worked_turns};
pub use finish_lines::finish_line;
pub use laws::{
    able_is_computed, clocks_agree, clocks_fit, ended_roots_leave_nobody, finishes_are_legal,
    nexts_are_expected, nobody_is_stuck, phasers_are_folded, phasers_are_legal,
    phasers_are_ordered, phasers_held_are_few, registrations_are_within, shuts_leave_nobody,
};
pub use phaser_tally::{PhaserSums, phaser_sums};
pub use reply::Reply;
pub use report::{FinishLine, FoldLine, PhaserLines, TaskLine, TotalsLine, WorldReport};
pub use totals::{no_totals, plus};
