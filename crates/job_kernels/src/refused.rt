//! Whether a task of a kernel was refused.
ghost use Rattle.std.specs.Prelude.{◌≡◌, is_some};
ghost use Rattle.std.specs.List.{find};
ghost use Rattle.job_kernels.specs.Results.{lowest_refused, refusal_of};

use phase_modes::Refusal;
use world_model::{TaskLine, WorldReport};

/// The first of these lines that tells of a refusal.
fn first_refused(lines: &[TaskLine]) -> Option<TaskLine>
    ensures { result ≡ find (λ l. is_some l.refused) lines.now }
{
    for line in lines {
        if line.refused.is_some() {
            return Some(*line);
        }
    }
    None
}

/// The line of the lowest task that was refused, if one was: it is printed `task 1 refused 23 Memory`.
pub fn lowest_refused(report: &WorldReport) -> Option<TaskLine>
    ensures { result ≡ lowest_refused report.now }
{
    first_refused(&report.tasks)
}

/// The refusal of that task, which is printed `refused 23 Memory`.
pub fn refusal_of(report: &WorldReport) -> Option<Refusal>
    ensures { result ≡ refusal_of report.now }
{
    match lowest_refused(report)?.refused {
        Some(number) => Refusal::of_number(number),
        None => None,
    }
}
