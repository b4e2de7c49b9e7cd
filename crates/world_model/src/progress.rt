//! How far each task has come on a phaser, by its number.
ghost use Rattle.std.specs.Prelude.{◌≡◌, ◌<◌, true, length, replicate, get_or, IfOk, IfErr, All};
ghost use Rattle.world_model.specs.inner.Tallied.{start, fits, phase_at, progress_noted};

use phase_model::Event;
use phase_modes::Refusal;
use std::alloc::Global;

/// How many phases a task has signalled, and how many turns it has ended.
#[derive(Clone, Copy, Debug, PartialEq, Eq)]
pub(crate) struct Progress {
    pub(crate) signals: u32,
    pub(crate) waits: u32,
}

impl Progress {
    /// Where a phaser's maker begins.
    pub(crate) fn start() -> Progress
        ensures { result ≡ start }
    {
        Progress {
            signals: 0,
            waits: 0,
        }
    }
}

/// So many tasks that have come nowhere.
pub(crate) fn fresh_tasks(alloc: Global, tasks: u32) -> Result<Vec<Progress>, Refusal>
    ensures fresh { IfOk result (λ v. v.items ≡ replicate tasks start) }
    ensures memory { IfErr result (λ r. r ≡ Refusal.Memory) }
{
    let Ok(fresh) = vec![in alloc; Progress::start(); tasks as usize] else {
        return Err(Refusal::Memory);
    };
    Ok(fresh)
}

/// The phase of a signal, a pass or a value; other events are of none.
pub(crate) fn phase_of(tasks: &[Progress], event: Event) -> Option<u32>
    requires { fits (length tasks.now) event ≡ true }
    ensures { result ≡ phase_at tasks.now event }
{
    match event {
        Event::Sig(task, _) | Event::Send(task, _, _) => Some(tasks[task as usize].signals),
        Event::Pass(task) => Some(tasks[task as usize].waits),
        _ => None,
    }
}

/// Takes one event more in.
pub(crate) fn note_progress(tasks: &mut [Progress], event: Event)
    requires known { fits (length tasks.old) event ≡ true }
    requires signals { All (λ p. p.signals < 65536) tasks.old }
    requires waits { All (λ p. p.waits < 65536) tasks.old }
    ensures { tasks.new ≡ progress_noted event tasks.old }
{
    match event {
        Event::Make(task, _) => tasks[task as usize] = Progress::start(),
        Event::Reg(parent, task, _) => tasks[task as usize] = tasks[parent as usize],
        Event::Sig(task, _) => tasks[task as usize].signals += 1,
        Event::Pass(task) => tasks[task as usize].waits += 1,
        _ => {}
    }
}
