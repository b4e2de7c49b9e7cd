//! What C gives as numbers: modes, limits, operators and bounds.
ghost use Rattle.std.specs.Prelude.{◌≡◌, ◌<◌, ◌≤◌, None, Some, length, IfSome};
ghost use Rattle.phase_modes.specs.Limits.{limits_fit};
ghost use Rattle.phaser_c.specs.Given.{mode_of, op_of, ops_of, bound_of, limits_of};

use phase_model::{Bound, Op, Ops};
use phase_modes::{Limits, Mode};

/// The limits of a run, as C gives them: `paldwosk_limits`.
#[repr(C)]
#[derive(Clone, Copy, Debug, Drop)]
pub struct GivenLimits {
    pub acts: u32,
    pub finishes: u32,
    pub history: u32,
    pub phasers: u32,
    pub regs: u32,
    pub tasks: u32,
}

impl GivenLimits {
    /// The limits.
    pub(crate) fn limits(&self) -> Limits
        ensures { result ≡ limits_of self.now }
    {
        Limits {
            acts: self.acts,
            finishes: self.finishes,
            history: self.history,
            phasers: self.phasers,
            regs: self.regs,
            tasks: self.tasks,
        }
    }
}

/// The modes, by their numbers.
const MODES: [Mode; 4] = [Mode::Sig, Mode::Wait, Mode::SigWait, Mode::Single];

/// The operators, by their numbers.
const OPERATORS: [Op; 3] = [Op::Sum, Op::Least, Op::Greatest];

/// The mode of this number; none if no mode has it.
pub(crate) fn mode_of(number: u32) -> Option<Mode>
    ensures { result ≡ mode_of number }
{
    MODES.get(number as usize).copied()
}

/// The operator of this number; none if no operator has it.
fn op_of(number: u32) -> Option<Op>
    ensures { result ≡ op_of number }
{
    OPERATORS.get(number as usize).copied()
}

/// The operators of these numbers; none if one is no operator's, or there are more than four.
pub(crate) fn ops_of(numbers: &[u32]) -> Option<Ops>
    ensures { result ≡ ops_of numbers.now }
{
    if numbers.len() > 4 {
        return None;
    }
    let mut ops = Ops::none();
    for number in numbers {
        ops.push(op_of(*number)?);
    }
    Some(ops)
}

/// The bound of this number, where 0 is no bound; none where it is over 65,536.
pub(crate) fn bound_of(number: u32) -> Option<Option<Bound>>
    ensures { result ≡ bound_of number }
{
    if number == 0 {
        return Some(None);
    }
    let bound = Bound::of(number)?;
    Some(Some(bound))
}
