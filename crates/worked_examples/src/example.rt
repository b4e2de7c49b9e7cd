//! What an example is made of.
ghost use Rattle.std.specs.Prelude.{◌≡◌, ◌<◌, ◌≤◌, take, ◌∷◌, [], None, Some, MatchOption};
ghost use Rattle.phase_model.specs.declared.op.Op.TheVariants.{Sum, Least, Greatest};

use phase_model::{Bound, Call, Op, Ops, Reply, Terms};
use phase_modes::Limits;

/// A call, and the reply to it.
pub type Row = (Call, Reply);

/// A phaser that nobody has made yet, and calls with their replies.
#[derive(Clone, Copy, Debug)]
pub struct Example {
    /// How many events its history has room for.
    pub history: u32,
    /// How many tasks can be registered at once.
    pub regs: u32,
    /// How many accumulators it has, of those of [`first_ops`].
    pub operators: usize,
    /// By how many phases at most a signaller may be ahead of a waiter, if that is bounded.
    pub bound: Option<u32>,
    /// The calls in order, each with its reply.
    pub rows: &'static [Row],
}

/// The default limits, no accumulators, no bound, and no calls.
pub const PLAIN: Example = Example {
    history: 4_096,
    regs: 256,
    operators: 0,
    bound: None,
    rows: &[],
};

/// The first so many of a sum, a least, a greatest and another sum.
pub fn first_ops(count: usize) -> Ops
    ensures { result ≡ take count (Sum ∷ Least ∷ Greatest ∷ Sum ∷ []) }
{
    let mut ops = Ops::none();
    if count > 0 {
        ops.push(Op::Sum);
    }
    if count > 1 {
        ops.push(Op::Least);
    }
    if count > 2 {
        ops.push(Op::Greatest);
    }
    if count > 3 {
        ops.push(Op::Sum);
    }
    ops
}

impl Example {
    /// The default limits, but for those of the example.
    pub fn limits(&self) -> Limits
        ensures { result ≡ record {
          acts = 4096;
          finishes = 64;
          history = self.now.history;
          phasers = 64;
          regs = self.now.regs;
          tasks = 256;
        } }
    {
        Limits {
            history: self.history,
            regs: self.regs,
            ..Limits::default()
        }
    }

    /// What the example's phaser is made with.
    pub fn terms(&self) -> Terms
        ensures ops { result.ops ≡ take self.now.operators (Sum ∷ Least ∷ Greatest ∷ Sum ∷ []) }
        ensures bound { MatchOption self.now.bound (result.bound ≡ None)
            (λ phases. 0 < phases → phases ≤ 65536 → result.bound ≡ Some phases) }
    {
        Terms {
            ops: first_ops(self.operators),
            bound: match self.bound {
                Some(phases) => Bound::of(phases),
                None => None,
            },
        }
    }
}
