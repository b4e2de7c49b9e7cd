//! Whether an explained trace goes by a body.
ghost use Rattle.std.specs.Prelude.{◌≡◌, true, IfOk, IfErr};
ghost use Rattle.trace_model.specs.Explained.{is_explained};
ghost use Rattle.trace_walk.specs.History.{history};
ghost use Rattle.trace_walk.specs.Going.{goes_by, IsRefusedAt};

use crate::{Goes, walk};
use phase_modes::Refusal;
use std::alloc::Global;
use trace_model::Trace;

/// Whether the tasks of an explained trace went by this root's body and those that come of it: `Ok`,
/// or `NotExplained` with the place of the first act that its task's body doesn't give, counted from
/// 1. `Memory` if there is too little for the bodies. Any trace is taken; of one that no world
/// explains the answer says nothing.
pub fn goes_by<B: Goes>(alloc: Global, root: B, trace: &Trace) -> Result<(), Refusal>
    ensures goes { is_explained trace.now ≡ true
        → IfOk result (λ _. goes_by B.next root (history trace.now.events) ≡ true) }
    ensures refused { is_explained trace.now ≡ true → IfErr result (IsRefusedAt B.next root trace.now.events) }
{
    walk(alloc, root, trace)
}
