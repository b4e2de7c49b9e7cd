//! A slow world: the events that were made, a phaser for each number, and what each task still has
//! to make. All else that it replies is computed from the whole list of events.
use super::past::*;
use super::*;
use phase_model::{Call, Reply as PhaserReply};
use phase_modes::Reg;
use phaser_core::PhaserState;

/// What a world replies.
pub(super) type Answer = Result<Reply, Refusal>;

#[derive(Drop)]
pub(super) struct Plain {
    alloc: Global,
    limits: Limits,
    events: Vec<WorldEvent>,
    phasers: Vec<PhaserState>,
    due: Vec<Vec<WorldEvent>>,
}

/// The first refusal whose condition isn't met.
fn first_of(conditions: &[(bool, Refusal)]) -> Option<Refusal> {
    for (is_met, refusal) in conditions {
        if !*is_met {
            return Some(*refusal);
        }
    }
    None
}

pub(super) fn is_made(answer: Answer) -> bool {
    !matches!(answer, Err(_) | Ok(Reply::NotYet))
}

fn is_refused_by(answer: Answer, number: u8) -> bool {
    match answer {
        Err(refusal) => refusal.number() == number,
        Ok(_) => false,
    }
}

fn is_registration(event: Option<WorldEvent>) -> bool {
    match event {
        Some(WorldEvent::Phaser(_, Step::Reg(_, _, _))) => true,
        _ => false,
    }
}

/// An entry is made or comes at the wrong moment.
fn done_where(is_made: bool) -> Answer {
    if is_made {
        Ok(Reply::Done)
    } else {
        Err(Refusal::NotNow)
    }
}

/// The call that makes the step.
fn call_for(step: Step) -> Call {
    match step {
        Step::Make(task, mode, _) => Call::Make(task, mode),
        Step::Reg(parent, child, mode) => Call::Register(parent, child, mode),
        Step::Sig(task, number) => Call::Signal(task, number),
        Step::Claim(task) | Step::Pass(task) => Call::Pass(task),
        Step::Did(task) => Call::SingleDone(task),
        Step::Send(task, accumulator, value) => Call::Send(task, accumulator, value),
        Step::Look(task, accumulator) => Call::Look(task, accumulator),
        Step::Drop(task) => Call::Drop(task),
    }
}

fn as_answer(reply: PhaserReply) -> Answer {
    match reply {
        PhaserReply::Done | PhaserReply::Claim(_) => Ok(Reply::Done),
        PhaserReply::Phase(phase) => Ok(Reply::Phase(phase)),
        PhaserReply::Saw(value) => Ok(Reply::Value(value)),
        PhaserReply::NotYet => Ok(Reply::NotYet),
        PhaserReply::Refused(refusal) => Err(refusal),
    }
}

/// A phaser for each number, of which none was made.
fn unmade_phasers(alloc: Global, limits: Limits) -> Result<Vec<PhaserState>, Refusal> {
    let mut phasers = Vec::new(alloc);
    for _ in 0..limits.phasers {
        add_unmade(&mut phasers, alloc, limits)?;
    }
    Ok(phasers)
}

/// A further phaser; `NotNow` if the limits are none.
fn add_unmade(
    phasers: &mut Vec<PhaserState>,
    alloc: Global,
    limits: Limits,
) -> Result<(), Refusal> {
    if !limits.fits() {
        return Err(Refusal::NotNow);
    }
    phasers.push(PhaserState::new(alloc, limits, Ops::none(), None)?)?;
    Ok(())
}

/// For each task that nothing is due.
fn nothing_due(alloc: Global, limits: Limits) -> Result<Vec<Vec<WorldEvent>>, Refusal> {
    let mut due = Vec::new(alloc);
    for _ in 0..limits.tasks {
        due.push(Vec::new(alloc))?;
    }
    Ok(due)
}

/// If the step makes the phaser, it begins anew with the step's terms.
fn renew(
    state: &mut PhaserState,
    alloc: Global,
    limits: Limits,
    step: &Step,
) -> Result<(), Refusal> {
    if let Step::Make(_, _, terms) = *step
        && limits.fits()
    {
        *state = PhaserState::new(alloc, limits, terms.ops, terms.bound)?;
    }
    Ok(())
}

/// The step is made on the phaser.
fn call(state: &mut PhaserState, alloc: Global, limits: Limits, step: Step) -> Result<(), Refusal> {
    renew(state, alloc, limits, &step)?;
    let _replied = state.apply(call_for(step));
    Ok(())
}

impl Plain {
    pub(super) fn new(alloc: Global, limits: Limits) -> Result<Plain, Refusal> {
        let phasers = unmade_phasers(alloc, limits)?;
        let due = nothing_due(alloc, limits)?;
        Ok(Plain {
            alloc,
            limits,
            events: Vec::new(alloc),
            phasers,
            due,
        })
    }

    /// How the task is registered now.
    pub(super) fn registration(&self, phaser: PhaserNumber, task: u32) -> Option<Reg> {
        let state = self.phasers.get(phaser.place())?;
        state.registration(task)
    }

    /// The first event that is due to the task.
    fn first_due(&self, task: u32) -> Option<WorldEvent> {
        let due = self.due.get(task as usize)?;
        due.first().copied()
    }

    /// The event that continues the task's act: if a pass is due, the single may come first.
    pub(super) fn next_event(&self, task: u32) -> Option<WorldEvent> {
        let first = self.first_due(task)?;
        if let WorldEvent::Phaser(phaser, Step::Pass(_)) = first
            && let Some(state) = self.phasers.get(phaser as usize)
        {
            if state.may_claim(task) {
                return Some(on(phaser, Step::Claim(task)));
            }
            if state.may_report(task) {
                return Some(on(phaser, Step::Did(task)));
            }
        }
        Some(first)
    }

    /// Whether the task was spawned, or is the root, and hasn't ended.
    pub(super) fn goes_on(&self, task: u32) -> bool {
        let events = self.events.as_slice();
        is_born(events, task) && !is_ended(events, task)
    }

    fn is_idle(&self, task: u32) -> bool {
        self.goes_on(task) && self.first_due(task).is_none()
    }

    /// The reply of the phaser; a number without a phaser knows no task.
    fn phaser_reply(&self, phaser: u32, step: Step) -> Answer {
        match self.phasers.get(phaser as usize) {
            Some(state) => as_answer(state.reply_to(call_for(step))),
            None => Err(Refusal::NotRegistered),
        }
    }

    /// The reply of the finish to an event that continues an act.
    fn finish_reply(&self, finish: u32, event: FinishEvent) -> Answer {
        if event == FinishEvent::Shut && !all_ended(self.events.as_slice(), finish) {
            return Ok(Reply::NotYet);
        }
        Ok(Reply::Done)
    }

    /// The refusal of an act, whatever it is: `used` is whether its number is in use.
    fn refusal_of_act(&self, task: u32, used: bool, counted: bool) -> Option<Refusal> {
        let events = self.events.as_slice();
        let conditions = [
            (self.is_idle(task), Refusal::NotNow),
            (!used, Refusal::NotNow),
            (
                !counted || acts(events, task) < self.limits.acts as usize,
                Refusal::ActsFull,
            ),
        ];
        first_of(conditions.as_slice())
    }

    /// The refusal of a spawn's pairs, one after the other.
    fn refusal_of_pairs(&self, task: u32, pairs: &[Pair]) -> Option<Refusal> {
        let events = self.events.as_slice();
        for i in 0..pairs.len() {
            let pair = pairs[i];
            let Some(reg) = self.registration(PhaserNumber::of(pair.phaser), task) else {
                return Some(Refusal::NotRegistered);
            };
            let before = &pairs[..i];
            let conditions = [
                (Mode::within(pair.mode, reg.mode), Refusal::MoreThanParent),
                (
                    enclosing(events, pair.phaser) == inner(events, task),
                    Refusal::OutsideScope,
                ),
                (
                    !before.iter().any(|other| other.phaser == pair.phaser),
                    Refusal::RegisteredTwice,
                ),
            ];
            if let Some(refusal) = first_of(conditions.as_slice()) {
                return Some(refusal);
            }
        }
        None
    }

    /// Whether one of the task's phasers has it signal ahead of its last turn.
    fn leads(&self, task: u32, own: &[u32]) -> bool {
        own.iter().any(|phaser| self
            .registration(PhaserNumber::of(*phaser), task)
            .is_some_and(|reg| reg.ahead))
    }

    /// Whether it owes a signal on the phaser.
    fn is_behind(&self, phaser: PhaserNumber, task: u32) -> bool {
        self.registration(phaser, task)
            .is_some_and(|reg| reg.mode.can_signal() && !reg.ahead)
    }

    /// The refusal of a single statement, of a task that is on these phasers.
    fn refusal_of_single(&self, task: u32, own: &[u32]) -> Option<Refusal> {
        let single = own.iter().all(|phaser| {
            self.registration(PhaserNumber::of(*phaser), task)
                .is_some_and(|reg| reg.mode.can_single())
        });
        let conditions = [
            (own.len() == 1, Refusal::OnePhaserOnly),
            (single, Refusal::NoSingle),
            (!self.leads(task, own), Refusal::AlreadySignalled),
        ];
        first_of(conditions.as_slice())
    }

    /// The refusal of a task that is on these phasers, with these finishes open.
    fn refusal_of_begun(
        &self,
        task: u32,
        begun: Begun,
        own: &[u32],
        finishes: &[u32],
    ) -> Option<Refusal> {
        match begun {
            Begun::Async(child, pairs) => {
                if child >= self.limits.tasks {
                    Some(Refusal::TasksFull)
                } else {
                    self.refusal_of_pairs(task, pairs.as_slice())
                }
            }
            Begun::Signal => {
                first_of([(!self.leads(task, own), Refusal::AlreadySignalled)].as_slice())
            }
            Begun::Wait => {
                let owes = own
                    .iter()
                    .any(|phaser| self.is_behind(PhaserNumber::of(*phaser), task));
                first_of([(!owes, Refusal::NotSignalled)].as_slice())
            }
            Begun::Next => None,
            Begun::NextSingle(_) => self.refusal_of_single(task, own),
            Begun::Shut => first_of([(!finishes.is_empty(), Refusal::NoFinish)].as_slice()),
            Begun::End => first_of([(finishes.is_empty(), Refusal::FinishOpen)].as_slice()),
        }
    }

    /// The refusal of an act that is begun, once it may be begun at all.
    fn own_refusal(&self, task: u32, begun: Begun) -> Result<Option<Refusal>, Refusal> {
        let events = self.events.as_slice();
        let own = phasers_of(events, task, self.alloc)?;
        let finishes = open_finishes(events, task, self.alloc)?;
        Ok(self.refusal_of_begun(task, begun, own.as_slice(), finishes.as_slice()))
    }

    /// Whether the task is on as many phasers as a task may be on.
    fn is_on_many(&self, task: u32) -> Result<bool, Refusal> {
        let own = phasers_of(self.events.as_slice(), task, self.alloc)?;
        Ok(own.len() >= 16)
    }

    /// The reply to a phaser that the task may make.
    fn new_reply(
        &self,
        phaser: PhaserNumber,
        task: u32,
        mode: Mode,
        terms: Terms,
    ) -> Result<Answer, Refusal> {
        let phaser = phaser.get();
        if phaser >= self.limits.phasers || self.is_on_many(task)? {
            return Ok(Err(Refusal::PhasersFull));
        }
        Ok(self.phaser_reply(phaser, Step::Make(task, mode, terms)))
    }

    /// The reply to an act that the task tries.
    pub(super) fn act_reply(&self, task: u32, tried: Tried) -> Result<Answer, Refusal> {
        let events = self.events.as_slice();
        let used = match tried {
            Tried::New(phaser, _, _) => is_phaser(events, phaser),
            Tried::Open(finish) => is_finish(events, finish),
            Tried::Begun(Begun::Async(child, _)) => is_named(events, child),
            _ => false,
        };
        let counted = tried != Tried::Begun(Begun::End);
        if let Some(refusal) = self.refusal_of_act(task, used, counted) {
            return Ok(Err(refusal));
        }
        match tried {
            Tried::Begun(begun) => Ok(match self.own_refusal(task, begun)? {
                Some(refusal) => Err(refusal),
                None => Ok(Reply::Done),
            }),
            Tried::New(phaser, mode, terms) => self.new_reply(
                PhaserNumber::of(phaser),
                task,
                mode,
                terms,
            ),
            Tried::Open(finish) => {
                if finish >= self.limits.finishes {
                    return Ok(Err(Refusal::FinishesFull));
                }
                Ok(Ok(Reply::Done))
            }
            Tried::Send(phaser, accumulator, value) => {
                Ok(self.phaser_reply(phaser, Step::Send(task, accumulator, value)))
            }
            Tried::Look(phaser, accumulator) => {
                Ok(self.phaser_reply(phaser, Step::Look(task, accumulator)))
            }
        }
    }

    /// What its phaser or its finish replies to an event that continues an act.
    fn part_reply(&self, event: &WorldEvent) -> Answer {
        match *event {
            WorldEvent::Phaser(phaser, step) => self.phaser_reply(phaser, step),
            WorldEvent::Finish(finish, event) => self.finish_reply(finish, event),
            _ => Err(Refusal::NotNow),
        }
    }

    /// Whether the event that continues the task's act is refused now by this number.
    fn is_next_refused(&self, task: u32, number: u8) -> bool {
        match self.next_event(task) {
            Some(event) => is_refused_by(self.part_reply(&event), number),
            None => false,
        }
    }

    /// Whether the task may give up by this number.
    fn may_fail(&self, task: u32, number: u8) -> bool {
        match number {
            7 | 15 => self.is_next_refused(task, number),
            14 => is_registration(self.next_event(task)),
            23 => self.is_idle(task),
            _ => false,
        }
    }

    /// Whether the task may note that the act is refused by this number.
    fn may_refuse(&self, task: u32, tried: Tried, number: u8) -> Result<bool, Refusal> {
        let answer = self.act_reply(task, tried)?;
        Ok(is_refused_by(answer, number) && number != 22 && number != 23)
    }

    /// The reply to an event that is to continue an act.
    fn next_reply(&self, event: &WorldEvent) -> Answer {
        match self.next_event(actor(self.events.as_slice(), event)) {
            Some(due) => {
                if due == *event {
                    self.part_reply(event)
                } else {
                    Err(Refusal::NotNow)
                }
            }
            None => Err(Refusal::NotNow),
        }
    }

    /// The reply to a step on a phaser.
    fn step_reply(&self, phaser: u32, step: Step) -> Result<Answer, Refusal> {
        match step {
            Step::Make(task, mode, terms) => {
                self.act_reply(task, Tried::New(phaser, mode, terms))
            }
            Step::Send(task, accumulator, value) => {
                self.act_reply(task, Tried::Send(phaser, accumulator, value))
            }
            Step::Look(task, accumulator) => self.act_reply(task, Tried::Look(phaser, accumulator)),
            _ => Ok(self.next_reply(&on(phaser, step))),
        }
    }

    /// The reply to an event of a finish.
    fn event_reply(&self, finish: u32, event: FinishEvent) -> Result<Answer, Refusal> {
        match event {
            FinishEvent::Opened(task) => self.act_reply(task, Tried::Open(finish)),
            _ => Ok(self.next_reply(&within(finish, event))),
        }
    }

    /// The reply to an event.
    pub(super) fn reply(&self, event: &WorldEvent) -> Result<Answer, Refusal> {
        match *event {
            WorldEvent::Phaser(phaser, step) => self.step_reply(phaser, step),
            WorldEvent::Finish(finish, event) => self.event_reply(finish, event),
            WorldEvent::Begin(task, begun) => self.act_reply(task, Tried::Begun(begun)),
            WorldEvent::Refuse(task, tried, number) => {
                Ok(done_where(self.may_refuse(task, tried, number)?))
            }
            WorldEvent::Fail(task, number) => Ok(done_where(self.may_fail(task, number))),
        }
    }

    /// A signal with this number wherever the task owes one.
    fn fix_signals(
        &self,
        due: &mut Vec<WorldEvent>,
        task: u32,
        number: Option<u32>,
    ) -> Result<(), Refusal> {
        let own = phasers_of(self.events.as_slice(), task, self.alloc)?;
        for phaser in own.as_slice() {
            if self.is_behind(PhaserNumber::of(*phaser), task) {
                due.push(on(*phaser, Step::Sig(task, number)))?;
            }
        }
        Ok(())
    }

    /// A pass of each of its phasers.
    fn fix_passes(&self, due: &mut Vec<WorldEvent>, task: u32) -> Result<(), Refusal> {
        let own = phasers_of(self.events.as_slice(), task, self.alloc)?;
        for phaser in own.as_slice() {
            due.push(on(*phaser, Step::Pass(task)))?;
        }
        Ok(())
    }

    /// A drop from each phaser of the task.
    fn fix_drops(&self, due: &mut Vec<WorldEvent>, task: u32) -> Result<(), Refusal> {
        let own = phasers_of(self.events.as_slice(), task, self.alloc)?;
        for phaser in own.as_slice() {
            due.push(on(*phaser, Step::Drop(task)))?;
        }
        Ok(())
    }

    /// What leads to the task's end.
    fn fix_end(&self, due: &mut Vec<WorldEvent>, task: u32) -> Result<(), Refusal> {
        let events = self.events.as_slice();
        self.fix_drops(due, task)?;
        let finishes = open_finishes(events, task, self.alloc)?;
        for finish in finishes.as_slice() {
            due.push(within(*finish, FinishEvent::Shut))?;
        }
        if task == 0 {
            due.push(within(0, FinishEvent::Shut))?;
        } else {
            due.push(within(home(events, task), FinishEvent::Ended(task)))?;
        }
        Ok(())
    }

    /// What a shut of the task's innermost finish takes.
    fn fix_shut(&self, due: &mut Vec<WorldEvent>, task: u32) -> Result<(), Refusal> {
        let events = self.events.as_slice();
        let own = phasers_of(events, task, self.alloc)?;
        let finish = inner(events, task);
        for phaser in own.as_slice() {
            if enclosing(events, *phaser) == finish {
                due.push(on(*phaser, Step::Drop(task)))?;
            }
        }
        due.push(within(finish, FinishEvent::Shut))?;
        Ok(())
    }

    /// What an act fixes that the task begins.
    fn fix_act(&self, due: &mut Vec<WorldEvent>, task: u32, begun: Begun) -> Result<(), Refusal> {
        match begun {
            Begun::Async(child, pairs) => {
                for pair in pairs.as_slice() {
                    due.push(on(pair.phaser, Step::Reg(task, child, pair.mode)))?;
                }
                let finish = inner(self.events.as_slice(), task);
                due.push(within(finish, FinishEvent::Spawned(child)))?;
                Ok(())
            }
            Begun::Signal => self.fix_signals(due, task, None),
            Begun::Wait => self.fix_passes(due, task),
            Begun::Next => {
                self.fix_signals(due, task, None)?;
                self.fix_passes(due, task)
            }
            Begun::NextSingle(number) => {
                self.fix_signals(due, task, Some(number))?;
                self.fix_passes(due, task)
            }
            Begun::Shut => self.fix_shut(due, task),
            Begun::End => self.fix_end(due, task),
        }
    }

    /// What a failure fixes: children that were never spawned leave their phasers first.
    fn fix_failure(&self, due: &mut Vec<WorldEvent>, task: u32) -> Result<(), Refusal> {
        let events = self.events.as_slice();
        for event in events.iter().rev() {
            match *event {
                WorldEvent::Begin(by, Begun::Async(child, _)) => {
                    if by == task && !is_born(events, child) {
                        self.fix_drops(due, child)?;
                    }
                }
                _ => {}
            }
        }
        self.fix_end(due, task)
    }

    /// The events that an entry fixes.
    fn fixed(&self, entry: &WorldEvent) -> Result<Vec<WorldEvent>, Refusal> {
        let mut due = Vec::new(self.alloc);
        match *entry {
            WorldEvent::Begin(task, begun) => self.fix_act(&mut due, task, begun)?,
            WorldEvent::Refuse(task, _, _) => self.fix_end(&mut due, task)?,
            WorldEvent::Fail(task, _) => self.fix_failure(&mut due, task)?,
            _ => {}
        }
        Ok(due)
    }

    /// The step is made on the phaser, if there is one.
    fn call(&mut self, phaser: u32, step: Step) -> Result<(), Refusal> {
        match self.phasers.get_mut(phaser as usize) {
            Some(state) => call(state, self.alloc, self.limits, step),
            None => Ok(()),
        }
    }

    /// What the acting task still has to make after the event.
    fn note_due(&mut self, event: &WorldEvent) -> Result<(), Refusal> {
        let task = actor(self.events.as_slice(), event);
        let fixed = self.fixed(event)?;
        let Some(due) = self.due.get_mut(task as usize) else {
            return Ok(());
        };
        match *event {
            WorldEvent::Begin(_, _) | WorldEvent::Refuse(_, _, _) | WorldEvent::Fail(_, _) => {
                *due = fixed;
            }
            WorldEvent::Phaser(_, Step::Claim(_)) | WorldEvent::Phaser(_, Step::Did(_)) => {}
            _ => {
                if !due.is_empty() {
                    let _made = due.remove(0);
                }
            }
        }
        Ok(())
    }

    /// What the phaser of the event, if it has one, makes of it.
    fn note_call(&mut self, event: &WorldEvent) -> Result<(), Refusal> {
        match *event {
            WorldEvent::Phaser(phaser, step) => self.call(phaser, step),
            _ => Ok(()),
        }
    }

    /// The event was made.
    fn keep(&mut self, event: WorldEvent) -> Result<(), Refusal> {
        // The prover has to be shown the types inside an event: it doesn't find them by itself.
        let _step: Option<Step> = None;
        let _begun: Option<Begun> = None;
        let _tried: Option<Tried> = None;
        let _terms: Option<Terms> = None;
        let _bound: Option<Bound> = None;
        self.events.push(event)?;
        Ok(())
    }

    /// Hands the event to the world: what isn't made changes nothing.
    pub(super) fn step(&mut self, event: &WorldEvent) -> Result<Answer, Refusal> {
        let answer = self.reply(event)?;
        if !is_made(answer) {
            return Ok(answer);
        }
        self.note_due(event)?;
        self.note_call(event)?;
        self.keep(*event)?;
        Ok(answer)
    }
}
