//! What the calls of a phaser return, as replies.
ghost use Rattle.std.specs.Prelude.{◌≡◌};
ghost use Rattle.phase_model.specs.Outcomes.{done_reply, signal_reply, pass_reply, look_reply};

use crate::answer::{Passing, Signalling};
use crate::{Look, Reply};
use phase_modes::Refusal;

/// The reply of a call that is done or refused.
pub fn done_reply(outcome: Result<(), Refusal>) -> Reply
    ensures { result ≡ done_reply outcome }
{
    match outcome {
        Ok(()) => Reply::Done,
        Err(refusal) => Reply::Refused(refusal),
    }
}

/// The reply of a `signal`.
pub fn signal_reply(outcome: Result<Signalling, Refusal>) -> Reply
    ensures { result ≡ signal_reply outcome }
{
    match outcome {
        Ok(Signalling::Signalled) => Reply::Done,
        Ok(Signalling::NotYet) => Reply::NotYet,
        Err(refusal) => Reply::Refused(refusal),
    }
}

/// The reply of a `pass`.
pub fn pass_reply(outcome: Result<Passing, Refusal>) -> Reply
    ensures { result ≡ pass_reply outcome }
{
    match outcome {
        Ok(Passing::Passed(ended)) => Reply::Phase(ended),
        Ok(Passing::Claimed(number)) => Reply::Claim(number),
        Ok(Passing::NotYet) => Reply::NotYet,
        Err(refusal) => Reply::Refused(refusal),
    }
}

/// The reply of a `look`.
pub fn look_reply(outcome: Result<Look, Refusal>) -> Reply
    ensures { result ≡ look_reply outcome }
{
    match outcome {
        Ok(look) => Reply::Saw(look),
        Err(refusal) => Reply::Refused(refusal),
    }
}
