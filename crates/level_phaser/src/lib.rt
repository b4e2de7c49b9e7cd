//! A lock-free barrier over a phaser, for tasks that stand level: each comes once in a phase, and
//! whoever comes last makes the round of all, whereupon the others may go on. Tasks join, leave and
//! send values meanwhile. No call waits, takes a lock or starts a thread.
#![tactic(auto)]

mod folds;
mod keeper;
mod member;
mod phaser;
mod plays;
mod round;
mod round_laws;
mod stage;
mod state;
mod steps;
mod view;

pub use keeper::{Door, Keeper};
pub use member::Member;
pub use phaser::LevelPhaser;
pub use round::{GivenSend, RoundCourse, make_round};
pub use round_laws::{level_looks, level_round};
pub use stage::Stage;
pub use state::LevelState;
pub use view::{Deeds, Level, LevelSeat, LevelShared, LevelTable, Role, SeatView, SeatedTask};
