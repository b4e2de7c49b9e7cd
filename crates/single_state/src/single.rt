//! The last proposed single of a phaser, and the calls that move it on.
ghost use Rattle.std.specs.Prelude.{◌≡◌, None, Ok, Err, if◌then◌else◌};
ghost use Rattle.single_state.specs.Single.{MayPropose, is_mismatch, is_claimable, is_claimed_by, may_pass, number_for, reserve_of, proposed, claimed, done};

use crate::statement::{Stage, Statement};
use phase_modes::Refusal;
use std::marker::Model;

/// The last proposed single of a phaser, none if nothing was proposed yet. A single is proposed
/// only once the one before it is done, so that the older ones need not be remembered. Contracts
/// see the statement.
#[derive(Clone, Copy, Debug, PartialEq, Eq)]
pub struct Single {
    last: Option<Statement>,
}

impl Model for Single {
    ghost use Rattle.std.specs.Prelude.{Option};
    ghost use Rattle.single_state.specs.declared.statement.Statement.{Statement};

    ghost Value = { Option Statement };

    ghost view = { λ s. s.last };

    ghost inverse = { λ o. record { last = o } };
}

impl Single {
    /// Nothing is proposed.
    pub fn new() -> Single
        ensures { result ≡ None }
    {
        Single { last: None }
    }

    /// Proposes a number for a phase. To propose the same once more changes nothing.
    /// `SingleMismatch` if another number stands for the phase.
    pub fn propose(&mut self, phase: u64, number: u32) -> Result<(), Refusal>
        requires { MayPropose self.old phase }
        ensures result { result
            ≡ (if is_mismatch self.old phase number then Err Refusal.SingleMismatch else Ok tt) }
        ensures state { self.new
            ≡ (if is_mismatch self.old phase number then self.old else proposed self.old phase number) }
    {
        match self.last {
            Some(last) if last.phase == phase => {
                if last.number != number {
                    return Err(Refusal::SingleMismatch);
                }
            }
            _ => {
                self.last = Some(Statement {
                    phase,
                    number,
                    stage: Stage::Proposed,
                });
            }
        }
        Ok(())
    }

    /// Lets the task run the single of the phase, which no other task does then. `NotNow` if the
    /// phase has no number, or a task has claimed it.
    pub fn claim(&mut self, phase: u64, task: u64) -> Result<(), Refusal>
        ensures result { result ≡ (if is_claimable self.old phase then Ok tt else Err Refusal.NotNow) }
        ensures state { self.new ≡ (if is_claimable self.old phase then claimed self.old task else self.old) }
    {
        match self.last {
            Some(
                Statement {
                    phase: at,
                    number,
                    stage: Stage::Proposed,
                },
            ) if at == phase => {
                self.last = Some(Statement {
                    phase,
                    number,
                    stage: Stage::Claimed(task),
                });
                Ok(())
            }
            _ => Err(Refusal::NotNow),
        }
    }

    /// The task reports that it has run the single. `NotNow` if it claimed none, or has reported
    /// it already.
    pub fn done(&mut self, task: u64) -> Result<(), Refusal>
        ensures result { result ≡ (if is_claimed_by self.old task then Ok tt else Err Refusal.NotNow) }
        ensures state { self.new ≡ (if is_claimed_by self.old task then done self.old task else self.old) }
    {
        match self.last {
            Some(
                Statement {
                    phase,
                    number,
                    stage: Stage::Claimed(by),
                },
            ) if by == task => {
                self.last = Some(Statement {
                    phase,
                    number,
                    stage: Stage::Done(task),
                });
                Ok(())
            }
            _ => Err(Refusal::NotNow),
        }
    }

    /// Whether no single keeps anybody in the phase: it has no number, or its single is done.
    pub fn may_pass(&self, phase: u64) -> bool
        ensures { result ≡ may_pass self.now phase }
    {
        match self.last {
            Some(last) if last.phase == phase => matches!(&last.stage, Stage::Done(_)),
            _ => true,
        }
    }

    /// The number that stands for the phase; none if there is none, or if a later phase has
    /// one.
    pub fn number(&self, phase: u64) -> Option<u32>
        ensures { result ≡ number_for self.now phase }
    {
        match self.last {
            Some(last) if last.phase == phase => Some(last.number),
            _ => None,
        }
    }

    /// How many events the open single still needs, 0 to 2: its claim and its report.
    pub fn reserve(&self) -> u32
        ensures { result ≡ reserve_of self.now }
    {
        match self.last {
            None => 0,
            Some(last) => match last.stage {
                Stage::Proposed => 2,
                Stage::Claimed(_) => 1,
                Stage::Done(_) => 0,
            },
        }
    }
}
