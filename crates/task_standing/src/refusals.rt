//! What an act is refused by, as the task itself can tell: no lock is asked.
ghost use Rattle.std.specs.Prelude.{◌≡◌, ◌∷◌, not, List, [], true, false};
ghost use Rattle.std.specs.List.{list_any, list_all};
ghost use Rattle.phase_modes.specs.Mode.{can_single};
ghost use Rattle.phase_modes.specs.Refusal.{first_refusal};
ghost use Rattle.world_model.specs.ActConditions.{free_unless, pair_names, hand_conditions, pair_conditions, begin_conditions, own_conditions};
ghost use Rattle.world_model.specs.Acts.{act_conditions, is_number_used};
ghost use Rattle.world_model.specs.Due.{is_idle};
ghost use Rattle.world_model.specs.Replies.{is_legal_world};
ghost use Rattle.world_model.specs.declared.event.WorldEvent.{WorldEvent as Event};
ghost use Rattle.task_standing.specs.Standing.{owes};
ghost use Rattle.task_standing.specs.Histories.{IsOf};
ghost use Rattle.task_standing.specs.inner.Conditions.{facts, try_conditions};

use crate::standing::Standing;
use phase_modes::{Limits, Mode, Pair, Phased, Refusal};
use world_model::{Begun, Tried};

/// Whether one of the pairs is on this phaser.
fn is_among(pairs: &[Pair], phaser: u32) -> bool
    ensures { result ≡ list_any (pair_names phaser) pairs.now }
{
    pairs.iter().any(|pair| pair.phaser == phaser)
}

impl Standing {
    /// What handing on the phaser of a pair is refused by, if the spawn has named others before.
    fn may_hand(&self, before: &[Pair], pair: Pair) -> Result<(), Refusal>
        ensures { result ≡ free_unless (first_refusal (hand_conditions (facts self.now) (list_any (pair_names pair.phaser) before.now) pair)) }
    {
        let Some(held) = self.held(pair.phaser) else {
            return Err(Refusal::NotRegistered);
        };
        if !Mode::within(pair.mode, held.mode) {
            return Err(Refusal::MoreThanParent);
        }
        if held.finish != self.inner() {
            return Err(Refusal::OutsideScope);
        }
        if is_among(before, pair.phaser) {
            return Err(Refusal::RegisteredTwice);
        }
        Ok(())
    }

    /// What handing on these phasers is refused by, pair by pair.
    fn may_hand_on(&self, pairs: &[Pair]) -> Result<(), Refusal>
        ensures { result ≡ free_unless (first_refusal (pair_conditions (facts self.now) [] pairs.now)) }
    {
        for i in 0..pairs.len() {
            if let Err(refusal) = self.may_hand(&pairs[..i], pairs[i]) {
                return Err(refusal);
            }
        }
        Ok(())
    }

    /// What a spawn of this child is refused by.
    fn may_spawn(&self, limits: Limits, child: u32, pairs: &Phased) -> Result<(), Refusal>
        ensures { result
            ≡ free_unless (first_refusal (begin_conditions limits (facts self.now) (Begun.Async child pairs.now))) }
    {
        if child >= limits.tasks {
            return Err(Refusal::TasksFull);
        }
        self.may_hand_on(pairs.as_slice())
    }

    /// Whether it has signalled anywhere since its last turn there.
    fn is_ahead(&self) -> bool
        ensures { result ≡ list_any (λ h. h.ahead) self.now.holding }
    {
        self.holding.iter().any(|h| h.ahead)
    }

    /// Whether it owes a signal anywhere.
    fn owes_anywhere(&self) -> bool
        ensures { result ≡ list_any owes self.now.holding }
    {
        self.holding.iter().any(|h| h.owes())
    }

    /// Whether it may propose singles wherever it is.
    fn has_singles(&self) -> bool
        ensures { result ≡ list_all (λ h. can_single h.mode) self.now.holding }
    {
        self.holding.iter().all(|h| h.mode.can_single())
    }

    /// What a `next` with a single is refused by.
    fn may_next_single(&self, limits: Limits, number: u32) -> Result<(), Refusal>
        ensures { result
            ≡ free_unless (first_refusal (begin_conditions limits (facts self.now) (Begun.NextSingle number))) }
    {
        if self.holding.len() != 1 {
            return Err(Refusal::OnePhaserOnly);
        }
        if !self.has_singles() {
            return Err(Refusal::NoSingle);
        }
        refused_if(self.is_ahead(), Refusal::AlreadySignalled)
    }

    /// What the act is refused by, if it goes on by a plan, however many acts were begun.
    pub fn may_begin(&self, limits: Limits, begun: &Begun) -> Result<(), Refusal>
        ensures { result ≡ free_unless (first_refusal (begin_conditions limits (facts self.now) begun.now)) }
    {
        match begun {
            Begun::Async(child, pairs) => self.may_spawn(limits, *child, pairs),
            Begun::Signal => refused_if(self.is_ahead(), Refusal::AlreadySignalled),
            Begun::Wait => refused_if(self.owes_anywhere(), Refusal::NotSignalled),
            Begun::Next => Ok(()),
            Begun::NextSingle(number) => self.may_next_single(limits, *number),
            Begun::Shut => refused_if(self.finishes.is_empty(), Refusal::NoFinish),
            Begun::End => refused_if(!self.finishes.is_empty(), Refusal::FinishOpen),
        }
    }

    /// What the act is refused by, however many acts were begun: for a run that counts none.
    pub fn may_make(&self, limits: Limits, tried: &Tried) -> Result<(), Refusal>
        ensures { result ≡ free_unless (first_refusal (own_conditions limits (facts self.now) tried.now)) }
    {
        match tried {
            Tried::Begun(begun) => self.may_begin(limits, begun),
            Tried::New(phaser, _, _) => refused_if(
                *phaser >= limits.phasers || self.holding.len() >= 16,
                Refusal::PhasersFull,
            ),
            Tried::Open(finish) => refused_if(*finish >= limits.finishes, Refusal::FinishesFull),
            Tried::Send(_, _, _) | Tried::Look(_, _) => Ok(()),
        }
    }

    /// The same of any act, by what the task knows alone.
    fn may_try_now(&self, limits: Limits, tried: &Tried) -> Result<(), Refusal>
        ensures { result ≡ free_unless (first_refusal (try_conditions limits self.now tried.now)) }
    {
        if !matches!(tried, Tried::Begun(Begun::End)) && self.acts >= u64::from(limits.acts) {
            return Err(Refusal::ActsFull);
        }
        self.may_make(limits, tried)
    }

    /// What the act is refused by: the first of the world's conditions that isn't met, in each
    /// history that has the task so, where the task may begin an act and the number that the act
    /// would give isn't in use. What a phaser says of a value that is sent or looked at isn't asked.
    pub fn may_try(&self, limits: Limits, tried: &Tried) -> Result<(), Refusal>
        ensures { (w : List Event) → IsOf w self.now → is_legal_world limits w ≡ true
            → is_idle self.now.number w ≡ true → is_number_used w tried.now ≡ false
            → result ≡ free_unless (first_refusal (act_conditions limits w self.now.number tried.now)) }
    {
        self.may_try_now(limits, tried)
    }
}

/// The refusal, where it stands.
fn refused_if(refused: bool, refusal: Refusal) -> Result<(), Refusal>
    ensures { result ≡ free_unless (first_refusal ((refusal, not refused) ∷ [])) }
{
    if refused { Err(refusal) } else { Ok(()) }
}
