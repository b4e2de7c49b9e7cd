//! Events that C gives to a judge, as numbers.
ghost use Rattle.std.specs.Prelude.{◌≡◌};
ghost use Rattle.phaser_c.specs.JudgedGiven.{kind_of, ops_given, accumulator_given, make_of, reg_of, named_by, named_of, event_given};
ghost use Rattle.phaser_c.specs.Given.{mode_of, bound_of};

use crate::answer::ExportAnswer;
use crate::given::{bound_of, mode_of, ops_of};
use phase_model::{Look, Ops};
use phaser_judge::{Named, NamedEvent};

/// An event that C gives: `paldwosk_judged_event`. Which of its numbers are looked at depends on its kind.
#[repr(C)]
#[derive(Clone, Copy, Debug, Drop)]
pub struct GivenEvent {
    pub phaser: u64,
    pub task: u64,
    pub child: u64,
    pub seen: i64,
    pub value: i32,
    pub single: u32,
    pub kind: u32,
    pub mode: u32,
    pub accumulator: u32,
    pub bound: u32,
    pub operator_count: u32,
    pub operators: [u32; 4],
}

/// What can happen: `paldwosk_judged_kind`.
#[derive(Clone, Copy, Debug, PartialEq, Eq)]
enum EventKind {
    Make,
    Reg,
    Sig,
    SigSingle,
    Claim,
    Did,
    Pass,
    Send,
    Look,
    LookNothing,
    Drop,
}

/// The kinds, by their numbers.
const KINDS: [EventKind; 11] = [
    EventKind::Make,
    EventKind::Reg,
    EventKind::Sig,
    EventKind::SigSingle,
    EventKind::Claim,
    EventKind::Did,
    EventKind::Pass,
    EventKind::Send,
    EventKind::Look,
    EventKind::LookNothing,
    EventKind::Drop,
];

/// The kind of this number; none if no kind has it.
fn kind_of(number: u32) -> Option<EventKind>
    ensures { result ≡ kind_of number }
{
    KINDS.get(number as usize).copied()
}

impl GivenEvent {
    /// The operators; none if one is no operator's, or there are more than four.
    fn ops(&self) -> Option<Ops>
        ensures { result ≡ ops_given self.now }
    {
        let count = self.operator_count as usize;
        if count > 4 {
            return None;
        }
        ops_of(&self.operators[..count])
    }

    /// The index of the accumulator.
    fn accumulator(&self) -> u8
        ensures { result ≡ accumulator_given self.now }
    {
        self.accumulator.min(255) as u8
    }

    /// The making of a phaser.
    fn make(&self) -> Result<Named, ExportAnswer>
        ensures { result ≡ make_of self.now.task (mode_of self.now.mode) (ops_given self.now) (bound_of self.now.bound) }
    {
        let Some(mode) = mode_of(self.mode) else {
            return Err(ExportAnswer::BadMode);
        };
        let Some(ops) = self.ops() else {
            return Err(ExportAnswer::BadOperators);
        };
        let Some(bound) = bound_of(self.bound) else {
            return Err(ExportAnswer::BadBound);
        };
        Ok(Named::Make(self.task, mode, ops, bound))
    }

    /// A registration.
    fn register(&self) -> Result<Named, ExportAnswer>
        ensures { result ≡ reg_of self.now.task self.now.child (mode_of self.now.mode) }
    {
        let Some(mode) = mode_of(self.mode) else {
            return Err(ExportAnswer::BadMode);
        };
        Ok(Named::Reg(self.task, self.child, mode))
    }

    /// What happened, of an event of this kind.
    fn named(&self, kind: EventKind) -> Result<Named, ExportAnswer>
        ensures { result ≡ named_by kind self.now }
    {
        let task = self.task;
        match kind {
            EventKind::Make => self.make(),
            EventKind::Reg => self.register(),
            EventKind::Sig => Ok(Named::Sig(task, None)),
            EventKind::SigSingle => Ok(Named::Sig(task, Some(self.single))),
            EventKind::Claim => Ok(Named::Claim(task)),
            EventKind::Did => Ok(Named::Did(task)),
            EventKind::Pass => Ok(Named::Pass(task)),
            EventKind::Send => Ok(Named::Send(task, self.accumulator(), self.value)),
            EventKind::Look => {
                let seen = Look::Value(i128::from(self.seen));
                Ok(Named::Look(task, self.accumulator(), seen))
            }
            EventKind::LookNothing => Ok(Named::Look(task, self.accumulator(), Look::Nothing)),
            EventKind::Drop => Ok(Named::Drop(task)),
        }
    }

    /// The event, or why its numbers are none.
    pub(crate) fn event(&self) -> Result<NamedEvent, ExportAnswer>
        ensures { result ≡ event_given self.now }
    {
        let Some(kind) = kind_of(self.kind) else {
            return Err(ExportAnswer::BadKind);
        };
        let event = self.named(kind)?;
        Ok(NamedEvent {
            phaser: self.phaser,
            event,
        })
    }
}
