//! Replays a trace on a world: each of its events is handed to the world in turn.
ghost use Rattle.std.specs.Prelude.{◌≡◌, List, [], ◌∷◌, true, IfOk, IfErr};
ghost use Rattle.phase_modes.specs.Limits.{limits_fit};
ghost use Rattle.trace_model.specs.Run.{Entry};
ghost use Rattle.trace_model.specs.Explained.{may_follow};
ghost use Rattle.trace_model.specs.Views.{viewed};
ghost use Rattle.trace_replay.specs.Replaying.{Replays};
ghost use Rattle.trace_replay.specs.inner.HandedOver.{HandedOver, HandsOver, Plays, is_later_than};

use phase_model::{Bound, Terms};
use phase_modes::{Limits, Refusal};
use std::alloc::Global;
use trace_model::{EventView, Trace, TracedStep};
use world_core::World;
use world_model::{Begun, Tried, WorldReport};

/// A world to which the events so far were handed.
#[derive(Drop)]
struct Player {
    world: World,
    /// The newest event's ticket.
    last: Option<u64>,
    /// Whether finish 0 is shut.
    over: bool,
}

impl Player {
    /// No event was handed over yet.
    fn new(alloc: Global, limits: Limits) -> Result<Player, Refusal>
        requires { limits_fit limits ≡ true }
        ensures first { IfOk result (λ s. HandedOver limits [] s) }
        ensures memory { IfErr result (λ r. r ≡ Refusal.Memory) }
    {
        let world = World::new(alloc, limits)?;
        Ok(Player {
            world,
            last: None,
            over: false,
        })
    }

    /// Whether the ticket is greater than the newest.
    fn is_later(&self, ticket: u64) -> bool
        ensures { result ≡ is_later_than ticket self.now.last }
    {
        match self.last {
            None => true,
            Some(last) => last < ticket,
        }
    }

    /// Hands the event to the world. Whether it may follow those before it; if it may not, the
    /// replay is at its end.
    fn take(&mut self, ticket: u64, event: EventView<'_>) -> bool
        ensures answer { (l : Limits) (es : List Entry) → HandedOver l es self.old
            → result ≡ may_follow l es (ticket, viewed event.entry) }
        ensures goes_on { (l : Limits) (es : List Entry) → HandedOver l es self.old → result ≡ true
            → HandedOver l ((ticket, viewed event.entry) ∷ es) self.new }
    {
        let later = self.is_later(ticket);
        let reply = self.world.step_traced(event);
        let answered = event.is_answered(reply);
        let ends = event.ends_run();
        self.last = Some(ticket);
        self.over = ends || self.over;
        later && answered
    }

    /// Hands the trace's events to the world, up to the first that may not follow; its place.
    fn take_all(&mut self, trace: &Trace) -> Option<u64>
        ensures { (l : Limits) → HandedOver l [] self.old → HandsOver l trace.now.events result self.new }
    {
        // The prover has to be shown the types inside an event: it doesn't find them by itself.
        let _step: Option<TracedStep> = None;
        let _begun: Option<Begun> = None;
        let _tried: Option<Tried> = None;
        let _terms: Option<Terms> = None;
        let _bound: Option<Bound> = None;
        for index in 0..trace.len() {
            let (ticket, event) = trace.entry(index);
            if !self.take(ticket, event) {
                return Some(index as u64 + 1);
            }
        }
        None
    }
}

/// The world that the trace's events lead to, the whole run long.
fn played(alloc: Global, trace: &Trace) -> Result<World, Refusal>
    ensures { Plays trace.now result }
{
    let mut player = Player::new(alloc, trace.limits())?;
    if let Some(place) = player.take_all(trace) {
        return Err(Refusal::NotExplained(place));
    }
    if !player.over {
        return Err(Refusal::NotExplained(trace.len() as u64 + 1));
    }
    Ok(player.world)
}

/// The report of the run that left this trace. `NotExplained` at the first place, counted from 1,
/// that is at fault: a ticket that isn't greater than the one before, an event that the world
/// refuses or answers `NotYet`, a look that saw something else; or the place after the last event,
/// if finish 0 isn't shut. `Memory` if there is too little for the world or its report.
pub fn replay(alloc: Global, trace: &Trace) -> Result<WorldReport, Refusal>
    ensures { Replays trace.now result }
{
    let world = played(alloc, trace)?;
    world.report(alloc)
}
