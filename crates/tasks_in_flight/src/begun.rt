//! What begins by an act, and what the body hears of it at its end.
ghost use Rattle.std.specs.Prelude.{◌≡◌, List, Ok, IfSome};
ghost use Rattle.task_standing.specs.declared.held.Held.{Held};
ghost use Rattle.tasks_in_flight.specs.Heard.{asked_by};
ghost use Rattle.tasks_in_flight.specs.inner.Ready.{IsAskedFor, answer_of};

use job_script::{Act, Answer};
use world_model::Begun;

/// What begins by this act, if it goes on by a plan and spawns nobody.
pub fn begun_by<B: Drop>(act: &Act<B>) -> Option<Begun>
    ensures { IfSome result (λ b. (hs : List Held) → IsAskedFor b hs (asked_by (Ok act.now))) }
{
    match act {
        Act::ShutFinish => Some(Begun::Shut),
        Act::Signal => Some(Begun::Signal),
        Act::Wait => Some(Begun::Wait),
        Act::Next => Some(Begun::Next),
        Act::NextSingle(number) => Some(Begun::NextSingle(*number)),
        Act::End => Some(Begun::End),
        _ => None,
    }
}

/// What the body hears once this act has ended: after its task's end nothing.
pub fn answer_to(begun: &Begun) -> Option<Answer>
    ensures { result ≡ answer_of begun.now }
{
    match begun {
        Begun::Async(child, _) => Some(Answer::Spawned(*child)),
        Begun::End => None,
        _ => Some(Answer::Done),
    }
}
