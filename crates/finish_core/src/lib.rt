//! The exact finish for one thread: a scope that its owner opens, that tasks are spawned in, and
//! that is shut only when every task spawned in it has ended.
#![tactic(auto)]

mod answer;
mod event;
mod laws;
mod may_follow;
mod stage;
mod state;

pub use answer::ShutAnswer;
pub use event::FinishEvent;
pub use laws::{
    done_where_allowed, legal_is_orderly, replies_keep_legal, shut_awaits_all, shut_where_it_may,
};
pub use may_follow::allowed;
pub use state::FinishState;
