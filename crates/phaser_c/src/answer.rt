//! The numbers by which C is answered. The enum `paldwosk_answer` of the header has each by name.
ghost use Rattle.std.specs.Prelude.{◌≡◌};
ghost use Rattle.phase_model.specs.Outcomes.{signal_reply, pass_reply};
ghost use Rattle.phaser_c.specs.Answers.{number_of_answer, answer_for};

use phase_model::{Look, Reply};
use phase_modes::Refusal;
use phaser_core::{Passing, Signalling};

/// What an export answers.
#[derive(Clone, Copy, Debug, PartialEq, Eq)]
pub enum ExportAnswer {
    /// It was done.
    Done,
    /// The library refused the call.
    Refused(Refusal),
    /// The task asks again after another task's call.
    NotYet,
    /// The task claimed the single.
    Claimed,
    /// There is no least and no greatest of no values.
    Nothing,
    /// The fold isn't kept: there is no such accumulator, or the phase is too great or given up.
    NotKept,
    /// The fold isn't within 64 bits.
    TooGreat,
    /// The handle holds no phaser.
    Closed,
    /// The handle holds a phaser already.
    Open,
    /// The room is too small for the text. Nothing of it was written.
    Short,
    /// No mode has this number.
    BadMode,
    /// A limit isn't between its least and its greatest.
    BadLimits,
    /// No operator has this number, or there are more than four.
    BadOperators,
    /// The bound is over 65,536.
    BadBound,
    /// There aren't as many tickets as events.
    BadTickets,
    /// No kind of event has this number.
    BadKind,
    /// The event's phaser isn't made, or its last task has left it.
    NotMade,
    /// The event makes a phaser that is made already.
    MadeAlready,
    /// The event registers a task that is registered on the phaser already.
    RegisteredAlready,
    /// The event is of a task that had to wait.
    HadToWait,
    /// The event is a pass, but the task had a single to claim.
    ClaimsInstead,
    /// The event is a claim, but the task had no single to claim, and passed.
    PassesInstead,
    /// The event is a look that saw another value than the phaser had.
    SawOther,
    /// The judge refused an event before.
    Over,
}

impl ExportAnswer {
    /// The number, which is a refusal's own if the library refused.
    pub(crate) fn number(self) -> u32
        ensures { result ≡ number_of_answer self }
    {
        match self {
            ExportAnswer::Done => 0,
            ExportAnswer::Refused(refusal) => u32::from(refusal.number()),
            ExportAnswer::NotYet => 32,
            ExportAnswer::Claimed => 33,
            ExportAnswer::Nothing => 34,
            ExportAnswer::NotKept => 35,
            ExportAnswer::TooGreat => 36,
            ExportAnswer::Closed => 65,
            ExportAnswer::Open => 66,
            ExportAnswer::Short => 67,
            ExportAnswer::BadMode => 68,
            ExportAnswer::BadLimits => 69,
            ExportAnswer::BadOperators => 70,
            ExportAnswer::BadBound => 71,
            ExportAnswer::BadTickets => 72,
            ExportAnswer::BadKind => 73,
            ExportAnswer::NotMade => 80,
            ExportAnswer::MadeAlready => 81,
            ExportAnswer::RegisteredAlready => 82,
            ExportAnswer::HadToWait => 83,
            ExportAnswer::ClaimsInstead => 84,
            ExportAnswer::PassesInstead => 85,
            ExportAnswer::SawOther => 86,
            ExportAnswer::Over => 87,
        }
    }

    /// What is answered if a signal ended so.
    pub(crate) fn of_signal(outcome: Result<Signalling, Refusal>) -> ExportAnswer
        ensures { result ≡ answer_for (signal_reply outcome) }
    {
        match outcome {
            Ok(Signalling::Signalled) => ExportAnswer::Done,
            Ok(Signalling::NotYet) => ExportAnswer::NotYet,
            Err(refusal) => ExportAnswer::Refused(refusal),
        }
    }

    /// What is answered if a pass ended so.
    pub(crate) fn of_pass(outcome: Result<Passing, Refusal>) -> ExportAnswer
        ensures { result ≡ answer_for (pass_reply outcome) }
    {
        match outcome {
            Ok(Passing::Passed(_)) => ExportAnswer::Done,
            Ok(Passing::Claimed(_)) => ExportAnswer::Claimed,
            Ok(Passing::NotYet) => ExportAnswer::NotYet,
            Err(refusal) => ExportAnswer::Refused(refusal),
        }
    }

    /// What is answered if a call on a phaser returned this.
    pub(crate) fn of(reply: Reply) -> ExportAnswer
        ensures { result ≡ answer_for reply }
    {
        match reply {
            Reply::Done | Reply::Phase(_) | Reply::Saw(Look::Value(_)) => ExportAnswer::Done,
            Reply::Claim(_) => ExportAnswer::Claimed,
            Reply::Saw(Look::Nothing) => ExportAnswer::Nothing,
            Reply::NotYet => ExportAnswer::NotYet,
            Reply::Refused(refusal) => ExportAnswer::Refused(refusal),
        }
    }
}
