//! Whether one run of a program tells what each of its runs prints.
ghost use Rattle.std.specs.Prelude.{IfOk, IfErr};
ghost use Rattle.run_laws.specs.Certified.{IsCertified, IsOfCertifying};

use crate::luck::LuckAt;
use crate::trace_luck::first_luck;
use job_script::Program;
use phase_modes::Refusal;
use schedule_run::run_picks;
use std::alloc::Global;
use world_model::WorldReport;

/// Why one run doesn't tell what each prints.
#[derive(Clone, Copy, Debug, PartialEq, Eq)]
pub enum NoAnswer {
    /// Luck has a part in the run by rounds, first in this event.
    Luck(LuckAt),
    /// There was too little memory for the run.
    Memory,
}

impl From<Refusal> for NoAnswer {
    ghost use Rattle.std.specs.Prelude.{◌≡◌};
    ghost use Rattle.run_laws.specs.declared.certificate.NoAnswer.TheVariants.{Memory};

    ghost from_gives = { λ _ why. why ≡ Memory };

    /// Nothing else is refused if a program is certified.
    fn from(_refusal: Refusal) -> NoAnswer {
        NoAnswer::Memory
    }
}

/// The report of each run of the program, by any number of workers and in any order of its tasks, if
/// there is memory and the least free numbers are drawn. It is that of one run, by rounds; the law that
/// one run tells all says the rest. `Luck` if luck has a part in that run: other runs may then have
/// another report.
pub fn certify(alloc: Global, program: &Program) -> Result<WorldReport, NoAnswer>
    ensures answer { IfOk result (λ r. IsCertified program.now r) }
    ensures no_answer { IfErr result (IsOfCertifying program.now) }
{
    let run = run_picks(alloc, program, &[])?;
    match first_luck(alloc, &run.trace)? {
        None => Ok(run.report),
        Some(at) => Err(NoAnswer::Luck(at)),
    }
}
