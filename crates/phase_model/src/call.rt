//! The calls on a phaser as values, what a call was answered, and the line that it is printed as.
use crate::op::Look;
use phase_modes::{Mode, Refusal};
use std::fmt;

/// A call on the phaser. The first number is the acting task's, in `Register` the parent's.
#[derive(Clone, Copy, Debug, PartialEq, Eq)]
pub enum Call {
    /// The task makes the phaser, and is registered on it in the mode.
    Make(u32, Mode),
    /// The parent registers the child in the mode.
    Register(u32, u32, Mode),
    /// The task signals; with a number it proposes the single of that number.
    Signal(u32, Option<u32>),
    /// The task asks to end its turn.
    Pass(u32),
    /// The task reports the single done that it had claimed.
    SingleDone(u32),
    /// The task sends the value to the accumulator.
    Send(u32, u8, i32),
    /// The task looks at the accumulator.
    Look(u32, u8),
    /// The task is dropped from the phaser.
    Drop(u32),
}

/// What a call was answered.
#[derive(Clone, Copy, Debug, PartialEq, Eq)]
pub enum Reply {
    /// It was done.
    Done,
    /// The task ended its turn in the phase of this number.
    Phase(u32),
    /// The task claimed the single statement of this number.
    Claim(u32),
    /// The task saw this of an accumulator.
    Saw(Look),
    /// The task may not pass yet: it asks again after another task's call.
    NotYet,
    /// It was refused.
    Refused(Refusal),
}

impl fmt::Display for Reply {
    ghost use Rattle.std.specs.Prelude.{Some};
    ghost use Rattle.phase_model.specs.ReplyLines.{line_text};

    ghost output = { λ r. Some (line_text r) };

    /// `ok`, `ok phase 3`, `claim 7`, `value -4`, `none`, `not yet`, or the refusal's line.
    fn fmt<W: fmt::Write>(&self, f: &mut fmt::Formatter<W>) -> fmt::Result {
        match self {
            Reply::Done => f.write_str("ok"),
            Reply::Phase(phase) => write!(f, "ok phase {phase}"),
            Reply::Claim(number) => write!(f, "claim {number}"),
            Reply::Saw(Look::Value(value)) => write!(f, "value {value}"),
            Reply::Saw(Look::Nothing) => f.write_str("none"),
            Reply::NotYet => f.write_str("not yet"),
            Reply::Refused(refusal) => write!(f, "{refusal}"),
        }
    }
}
