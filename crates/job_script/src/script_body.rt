//! A task that goes through the acts of a body, one after the other.
ghost use Rattle.std.specs.Prelude.{◌≡◌, ◌<◌, true, map, Ok};
ghost use Rattle.job_script.specs.Acts.{flat_length, too_many, is_short_spawn};
ghost use Rattle.job_script.specs.Steps.{begun, no_meanings, meaning, pair_for, named_as, named, given_by, act_for, given, stepped};

use crate::act::{Act, Answer};
use crate::head::{Head, NamedList};
use crate::stored::{Body, Item};
use phase_modes::{Pair, Phased, Refusal};
use std::marker::Model;

/// Stands for a name without a meaning: a phaser on which nobody is registered.
const NOWHERE: u32 = u32::MAX;

/// A task that goes through the acts of a body. Contracts see the acts that are left, every repeat
/// written out, and what the names mean to the task. The body is shared by all tasks that go
/// through it, so a spawn copies no act.
#[derive(Drop)]
pub struct ScriptBody<'p> {
    body: &'p Body,
    done: u32,
    meanings: [u32; 64],
    naming: Option<u8>,
}

impl<'p> Model for ScriptBody<'p> {
    ghost use Rattle.std.specs.Prelude.{◌≤◌, ◌<◌, drop};
    ghost use Rattle.job_script.specs.Acts.{flat, flat_length, too_many};
    ghost use Rattle.job_script.specs.Steps.{Script};
    ghost use Rattle.job_script.specs.inner.StepsCode.{script_code};
    ghost use Rattle.job_script.specs.contracts.head.Head as head;

    ghost Value = { Script };

    ghost coded = { script_code head.the_row.coded };

    ghost view = { λ s.
        record { left = drop s.done (flat s.body.now); meanings = s.meanings; naming = s.naming } };

    ghost invariant = { λ s. (flat_length s.body.now < too_many) × (s.done ≤ flat_length s.body.now) };
}

/// The phaser that the name means.
fn meaning(meanings: &[u32; 64], name: u8) -> u32
    ensures { result ≡ meaning meanings.now name }
{
    meanings.get(name as usize).copied().unwrap_or(NOWHERE)
}

/// The name means the phaser from now on.
fn named_as(meanings: &mut [u32; 64], name: Option<u8>, phaser: u32)
    ensures { meanings.new ≡ named_as name phaser meanings.old }
{
    if let Some(name) = name {
        if usize::from(name) < 64 {
            meanings[name as usize] = phaser;
        }
    }
}

/// What the names mean once the last act is answered: the phaser of a `new` gets its name.
fn answered(meanings: &mut [u32; 64], naming: Option<u8>, answer: Answer)
    ensures { meanings.new ≡ named answer naming meanings.old }
{
    if let Answer::Made(phaser) = answer {
        named_as(meanings, naming, phaser);
    }
}

/// The phasers that a spawn names, each with its mode.
fn pairs_of(meanings: &[u32; 64], list: &NamedList) -> Phased
    ensures { result ≡ map (pair_for meanings.now) list.now }
{
    let mut pairs = Phased::none();
    for named in list.as_slice() {
        pairs.push(Pair {
            phaser: meaning(meanings, named.name),
            mode: named.mode,
        });
    }
    pairs
}

impl Head {
    /// The name that it gives to the phaser that is made.
    fn given_name(&self) -> Option<u8>
        ensures { result ≡ given_by self.now }
    {
        match self {
            Head::New(name, _, _) => Some(*name),
            _ => None,
        }
    }
}

/// The act as the task is given it.
fn act_for<'p>(meanings: &[u32; 64], item: &'p Item) -> Act<ScriptBody<'p>>
    requires { is_short_spawn item.now.head item.now.body ≡ true }
    ensures { result ≡ act_for meanings.now item.now.head item.now.body }
{
    match &item.head {
        Head::New(_, mode, terms) => Act::New(*mode, terms.ops, terms.bound),
        Head::Async(list) => {
            let pairs = pairs_of(meanings, list);
            Act::Async(ScriptBody::begun(&item.body, *meanings), pairs)
        }
        Head::AsyncAll => Act::AsyncAll(ScriptBody::begun(&item.body, *meanings)),
        Head::OpenFinish => Act::OpenFinish,
        Head::ShutFinish => Act::ShutFinish,
        Head::Signal => Act::Signal,
        Head::Wait => Act::Wait,
        Head::Next => Act::Next,
        Head::NextSingle(number) => Act::NextSingle(*number),
        Head::Send(name, accumulator, value) => {
            Act::Send(meaning(meanings, *name), *accumulator, *value)
        }
        Head::Look(name, accumulator) => Act::Look(meaning(meanings, *name), *accumulator),
        Head::Repeat(_) => Act::End,
    }
}

impl<'p> ScriptBody<'p> {
    /// A task before its first act, to which the names mean this.
    fn begun(body: &'p Body, meanings: [u32; 64]) -> ScriptBody<'p>
        requires { flat_length body.now < too_many }
        ensures { result ≡ begun body.now meanings }
    {
        ScriptBody {
            body,
            done: 0,
            meanings,
            naming: None,
        }
    }

    /// A program's root before its first act. No name has a meaning yet.
    pub(crate) fn root(body: &'p Body) -> ScriptBody<'p>
        requires { flat_length body.now < too_many }
        ensures { result ≡ begun body.now no_meanings }
    {
        ScriptBody::begun(body, [NOWHERE; 64])
    }

    /// The next act, after the answer to the one before; `End` if none is left. It takes no
    /// memory and is never refused. A phaser that was `Made` has the name of its `new` from then
    /// on; a name without a meaning stands for phaser 4,294,967,295, on which nobody is registered.
    pub fn step(&mut self, answer: Answer) -> Result<Act<ScriptBody<'p>>, Refusal>
        ensures gives { result ≡ Ok (given answer self.old) }
        ensures goes_on { self.new ≡ stepped answer self.old }
    {
        answered(&mut self.meanings, self.naming, answer);
        let body: &'p Body = self.body;
        let item = match body.at(self.done) {
            None => {
                self.naming = None;
                return Ok(Act::End);
            }
            Some(item) => item,
        };
        self.naming = item.head.given_name();
        self.done += 1;
        Ok(act_for(&self.meanings, item))
    }
}
