//! A program as it was read.
ghost use Rattle.std.specs.Prelude.{◌≡◌, ◌<◌, true};
ghost use Rattle.phase_modes.specs.Limits.{limits_fit};
ghost use Rattle.job_script.specs.Acts.{flat_length, too_many};
ghost use Rattle.job_script.specs.Steps.{begun, no_meanings};

use crate::script_body::ScriptBody;
use crate::stored::Body;
use phase_modes::Limits;
use std::marker::Model;

/// A program: the limits of its run, and the acts of the root. Contracts see both.
#[derive(Drop)]
pub struct Program {
    limits: Limits,
    main: Body,
}

impl Model for Program {
    ghost use Rattle.std.specs.Prelude.{◌≡◌, ◌<◌, true};
    ghost use Rattle.phase_modes.specs.Limits.{limits_fit};
    ghost use Rattle.job_script.specs.Acts.{flat_length, too_many};
    ghost use Rattle.job_script.specs.Program as programs;
    ghost use Rattle.job_script.specs.inner.ProgramCode.{program_code};
    ghost use Rattle.job_script.specs.contracts.head.Head as head;

    ghost Value = { programs.Program };

    ghost coded = { program_code head.the_row.coded };

    ghost view = { λ p. record { limits = p.limits; main = p.main } };

    ghost invariant = { λ p. (limits_fit p.limits ≡ true) × (flat_length p.main < too_many) };
}

impl Program {
    /// A program of these limits and acts.
    pub(crate) fn new(limits: Limits, main: Body) -> Program
        requires fit { limits_fit limits ≡ true }
        requires short { flat_length main < too_many }
        ensures { result ≡ record { limits = limits; main = main } }
    {
        Program { limits, main }
    }

    /// The limits of its run. A limit that the text doesn't name has its default.
    pub fn limits(&self) -> Limits
        ensures limits { result ≡ self.now.limits }
        ensures fit { limits_fit result ≡ true }
    {
        self.limits
    }

    /// The root's body, before its first act.
    pub fn root(&self) -> ScriptBody<'_>
        ensures { result ≡ begun self.now.main no_meanings }
    {
        ScriptBody::root(&self.main)
    }
}
