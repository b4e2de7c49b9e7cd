//! The rear of a marching column: the least phase at which one stands, and how many stand there.
ghost use Rattle.std.specs.Prelude.{◌≡◌, ◌+◌, ◌<◌, ◌^◌, ℕ, IfNone, IfSome};
ghost use Rattle.phaser_engine.specs.Rears.{IsRear, IsLeast, HasEntered, HasLeft, NobodyUpTo};

/// Where the hindmost of many stand. Of those further on nothing is kept, so it takes the same
/// memory however far apart they stand.
#[derive(Clone, Copy)]
pub(crate) struct Rear {
    /// The least phase at which one stands.
    least: u64,
    /// How many stand there; 0 where nobody stands anywhere.
    count: u32,
}

impl Rear {
    /// Nobody stands anywhere.
    pub(crate) fn nobody() -> Rear
        ensures { IsRear (λ n. 0) result }
    {
        Rear { least: 0, count: 0 }
    }

    /// The least phase at which one stands; none where nobody stands anywhere.
    pub(crate) fn least(self) -> Option<u64>
        ensures { (counts : ℕ → ℕ) → IsRear counts self → IsLeast result counts }
    {
        if self.count == 0 {
            None
        } else {
            Some(self.least)
        }
    }

    /// Where the hindmost stand once one more stands at the phase.
    pub(crate) fn with(self, phase: u64) -> Rear
        requires { self.count + 1 < 2 ^ 32 }
        ensures { (before after : ℕ → ℕ) → IsRear before self → HasEntered phase before after
            → IsRear after result }
    {
        if self.count == 0 || phase < self.least {
            Rear {
                least: phase,
                count: 1,
            }
        } else if phase == self.least {
            Rear {
                least: phase,
                count: self.count + 1,
            }
        } else {
            self
        }
    }

    /// Where the hindmost stand once one has left the phase. None if it was the last there and
    /// nobody stood behind: whoever comes next has to be looked for.
    #[inline(always)]
    pub(crate) fn without(self, phase: u64) -> Option<Rear>
        ensures some { IfSome result (λ rear. (before after : ℕ → ℕ) → IsRear before self
            → HasLeft phase before after → IsRear after rear) }
        ensures none { IfNone result ((before after : ℕ → ℕ) → IsRear before self
            → HasLeft phase before after → NobodyUpTo phase after) }
    {
        if phase != self.least {
            return Some(self);
        }
        if self.count <= 1 {
            return None;
        }
        Some(Rear {
            least: phase,
            count: self.count - 1,
        })
    }
}
