//! Whatever the order in which tasks go on, whole runs of the same bodies in which nobody is
//! refused, and numbers are drawn by the same rule, have the same report. Laws over all legal
//! histories of a world.
//!
//! A certificate reads off one run's trace whether luck has a part in that run. If it has none, the
//! run tells the report of each of the program's runs.
#![tactic(auto)]

mod certificate;
mod certified;
mod examples;
mod laws;
mod luck;
mod trace_luck;
mod watch;

pub use certificate::{NoAnswer, certify};
pub use certified::certificate_is_one;
pub use examples::worked_runs;
pub use laws::{
    followers_go_by_scripts, histories_always_fit, histories_are_beginnings,
    histories_are_no_longer, least_hangs_on_memory_alone, least_is_in_order, memory_is_all_luck,
    one_run_tells_all, orderly_schedules_end, orderly_schedules_foretell,
    programs_come_to_the_same, room_is_all_luck, roomy_texts_are_orderly, roots_draw_in_order,
    runs_come_to_the_same, schedules_come_to_the_same, schedules_with_room_come_to_the_same,
    tasks_do_the_same, texts_foretell, texts_tell_who_draws,
};
pub use luck::{Luck, LuckAt};
pub use trace_luck::first_luck;
