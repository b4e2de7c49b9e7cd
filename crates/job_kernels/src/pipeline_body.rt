//! The pipeline as tasks: a source, the stages, and a sink, each with a phaser between it and the
//! next.
ghost use Rattle.std.specs.Prelude.{◌≡◌, ◌≤◌, ◌<◌, ◌+◌, Some, Ok, IfErr};
ghost use Rattle.job_kernels.specs.PipelineTasks.{is_sink, source_next, stage_turns, stage_sends, stage_at, stage_next, sink_turns, sink_next, spawn_source, spawn_stage, spawn_sink, spawn, root_next, root_task, pipeline_next};

use crate::heard::{operator, pair, seen_in};
use crate::pipeline::PipelineSize;
use job_script::{Act, Answer};
use phase_model::Op;
use phase_modes::{Mode, Phased, Refusal};
use tasks_in_flight::Body;
use trace_walk::Goes;

/// The greatest value of an item: with the number of a stage added it fits a message.
const GREATEST: u32 = 2_000_001_000;

/// The root: it makes a phaser before the first stage and one behind each, then spawns the source,
/// the stages and the sink, and ends.
#[derive(Clone, Copy)]
struct Root {
    stages: u8,
    items: u32,
    made: u32,
    spawned: u32,
}

/// The source: it sends each item, and ends a turn after each.
#[derive(Clone, Copy)]
struct Source {
    items: u32,
    sent: u32,
    sends: bool,
}

/// What a stage does next.
#[derive(Clone, Copy)]
enum Moment {
    /// It ends its turn, or ends if no turn is left.
    Turns,
    /// It looks at the phaser before it.
    Looks,
    /// It hears what is there, and sends it on with its own number added, if there is an item.
    Hears,
}

/// A stage: it adds its number, which is one more than that of the phaser before it, to each item.
#[derive(Clone, Copy)]
struct Stage {
    before: u8,
    turns: u64,
    moment: Moment,
}

/// The sink: it sees each item come out.
#[derive(Clone, Copy)]
struct Sink {
    phaser: u32,
    turns: u64,
    looks: bool,
}

/// Which task it is.
#[derive(Clone, Copy)]
enum Role {
    Root(Root),
    Source(Source),
    Stage(Stage),
    Sink(Sink),
}

/// A task of the pipeline.
#[derive(Clone, Copy)]
pub struct PipelineBody {
    role: Role,
}

impl Root {
    /// The next act.
    fn next(&mut self) -> Act<PipelineBody>
        ensures does { result ≡ (root_next self.old).0 }
        ensures is { self.new ≡ (root_next self.old).1 }
    {
        let stages = u32::from(self.stages);
        if self.made <= stages {
            self.made += 1;
            return Act::New(Mode::SigWait, operator(Op::Least), None);
        }
        let place = self.spawned;
        if place > stages + 1 {
            return Act::End;
        }
        self.spawned += 1;
        self.spawn(place)
    }

    /// The spawn of this place: that of the source, of a stage or of the sink.
    fn spawn(&self, place: u32) -> Act<PipelineBody>
        requires { place ≤ self.now.stages + 1 }
        ensures { result ≡ spawn self.now.items self.now.stages place }
    {
        if place == 0 {
            self.spawn_source()
        } else if place <= u32::from(self.stages) {
            self.spawn_stage((place - 1) as u8)
        } else {
            self.spawn_sink()
        }
    }

    fn spawn_source(&self) -> Act<PipelineBody>
        ensures { result ≡ spawn_source self.now.items }
    {
        let source = Source {
            items: self.items,
            sent: 0,
            sends: true,
        };
        let mut phasers = Phased::none();
        phasers.push(pair(0, Mode::Sig));
        spawned(Role::Source(source), phasers)
    }

    fn spawn_stage(&self, before: u8) -> Act<PipelineBody>
        ensures { result ≡ spawn_stage self.now.items before }
    {
        let phaser = u32::from(before);
        let stage = Stage {
            before,
            turns: u64::from(self.items) + u64::from(before),
            moment: Moment::Turns,
        };
        let mut phasers = Phased::none();
        phasers.push(pair(phaser, Mode::Wait));
        phasers.push(pair(phaser + 1, Mode::Sig));
        spawned(Role::Stage(stage), phasers)
    }

    fn spawn_sink(&self) -> Act<PipelineBody>
        ensures { result ≡ spawn_sink self.now.items self.now.stages }
    {
        let phaser = u32::from(self.stages);
        let sink = Sink {
            phaser,
            turns: u64::from(self.items) + u64::from(self.stages),
            looks: false,
        };
        let mut phasers = Phased::none();
        phasers.push(pair(phaser, Mode::Wait));
        spawned(Role::Sink(sink), phasers)
    }
}

/// The spawn of a task on these phasers.
fn spawned(role: Role, phasers: Phased) -> Act<PipelineBody>
    ensures { result ≡ Act.Async (record { role = role }) phasers }
{
    Act::Async(PipelineBody { role }, phasers)
}

impl Source {
    /// The next act.
    fn next(&mut self) -> Act<PipelineBody>
        ensures does { result ≡ (source_next self.old).0 }
        ensures is { self.new ≡ (source_next self.old).1 }
    {
        if !self.sends {
            self.sends = true;
            return Act::Next;
        }
        if self.sent >= self.items {
            return Act::End;
        }
        self.sent += 1;
        self.sends = false;
        Act::Send(0, 0, self.sent.min(GREATEST) as i32)
    }
}

impl Stage {
    /// The next act, after the answer to the one before.
    fn next(&mut self, answer: Answer) -> Act<PipelineBody>
        ensures does { result ≡ (stage_next answer self.old).0 }
        ensures is { self.new ≡ (stage_next answer self.old).1 }
    {
        match self.moment {
            Moment::Turns => self.turn(),
            Moment::Looks => self.look(),
            Moment::Hears => match seen_in(answer, GREATEST) {
                Some(value) => self.send(value),
                None => self.turn(),
            },
        }
    }

    /// It ends its turn; if no turn is left, it ends.
    fn turn(&mut self) -> Act<PipelineBody>
        ensures does { result ≡ (stage_turns self.old.turns self.old).0 }
        ensures is { self.new ≡ (stage_turns self.old.turns self.old).1 }
    {
        if self.turns == 0 {
            return Act::End;
        }
        self.turns -= 1;
        self.moment = Moment::Looks;
        Act::Next
    }

    /// It looks at the phaser before it.
    fn look(&mut self) -> Act<PipelineBody>
        ensures does { result ≡ (stage_at Moment.Looks Answer.Started self.old).0 }
        ensures is { self.new ≡ (stage_at Moment.Looks Answer.Started self.old).1 }
    {
        self.moment = Moment::Hears;
        Act::Look(u32::from(self.before), 0)
    }

    /// It sends this item on, with its number added.
    fn send(&mut self, item: u32) -> Act<PipelineBody>
        requires { item ≤ GREATEST }
        ensures does { result ≡ (stage_sends (Some item) self.old).0 }
        ensures is { self.new ≡ (stage_sends (Some item) self.old).1 }
    {
        self.moment = Moment::Turns;
        let number = u32::from(self.before) + 1;
        let sum = item + number;
        Act::Send(number, 0, sum as i32)
    }
}

impl Sink {
    /// The next act.
    fn next(&mut self) -> Act<PipelineBody>
        ensures does { result ≡ (sink_next self.old).0 }
        ensures is { self.new ≡ (sink_next self.old).1 }
    {
        if self.looks {
            self.looks = false;
            return Act::Look(self.phaser, 0);
        }
        if self.turns == 0 {
            return Act::End;
        }
        self.turns -= 1;
        self.looks = true;
        Act::Next
    }
}

impl PipelineBody {
    /// The root of a pipeline of this size.
    pub fn root(size: PipelineSize) -> PipelineBody
        requires stages { size.stages ≤ 15 }
        ensures { result ≡ root_task size.stages size.items }
    {
        PipelineBody {
            role: Role::Root(Root {
                stages: size.stages as u8,
                items: size.items,
                made: 0,
                spawned: 0,
            }),
        }
    }

    /// Whether this is the sink, which sees the items behind the last stage.
    pub fn is_sink(&self) -> bool
        ensures { result ≡ is_sink self.now }
    {
        match self.role {
            Role::Sink(_) => true,
            _ => false,
        }
    }
}

impl Body for PipelineBody {
    fn step(&mut self, answer: Answer) -> Result<Act<PipelineBody>, Refusal>
        ensures memory { IfErr result (λ e. e ≡ Refusal.Memory) }
        ensures does { result ≡ Ok (pipeline_next answer self.old).0 }
        ensures is { self.new ≡ (pipeline_next answer self.old).1 }
    {
        Ok(match &mut self.role {
            Role::Root(root) => root.next(),
            Role::Source(source) => source.next(),
            Role::Stage(stage) => stage.next(answer),
            Role::Sink(sink) => sink.next(),
        })
    }

    /// There is none.
    fn single(&mut self, _number: u32)
        ensures { self.new ≡ self.old }
    {}
}

impl Goes for PipelineBody {
    ghost next = { pipeline_next };

    fn go(&mut self, heard: Answer) -> Act<PipelineBody> {
        let Ok(act) = self.step(heard) else {
            unreachable!()
        };
        act
    }
}
