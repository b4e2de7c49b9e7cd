//! What C calls of the library: the exports of the static library, beside the header
//! `include/paldwosk.h`. It is thin: what an export answers is what the library's call answers, as a
//! number. C holds a phaser by a pointer, which is taken out for a call and put back after it. The
//! files `waiting*` have the exports for threads that wait, over a `long_locks::LongCell<Then>`, and
//! the files `judge*` those of a judge, over a `phaser_judge::Judge`. The files `level*` have those of a
//! task that stands level with others, over a `level_phaser::Member`.
#![tactic(auto)]

mod abi;
mod answer;
mod asking;
mod calls;
mod checker;
mod freed;
mod given;
mod handle;
mod history;
mod judge;
mod judge_given;
mod judge_handle;
mod judge_why;
mod keeper_handle;
mod level_calls;
mod level_handle;
mod level_keeper;
mod level_made;
mod level_opened;
mod level_opening;
mod level_task;
mod loose;
mod made;
mod questions;
mod room;
mod round_laws;
mod waiting;
mod waiting_calls;
mod waiting_handle;
mod waiting_made;
mod waiting_rounds;
mod waiting_tasks;
mod waiting_values;

pub use freed::GivenFreed;
pub use given::GivenLimits;
pub use handle::Handle;
pub use judge::GivenTotals;
pub use judge_given::GivenEvent;
pub use judge_handle::JudgeHandle;
pub use judge_why::GivenWhy;
pub use keeper_handle::KeeperHandle;
pub use level_handle::LevelHandle;
pub use level_phaser::{GivenSend, level_looks, level_round};
pub use round_laws::round_is_calls;
pub use waiting_handle::WaitingHandle;
