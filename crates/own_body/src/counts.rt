//! What a task counts: its turns, and its children.
ghost use Rattle.std.specs.Prelude.{◌≡◌, ◌+◌, ◌≤◌, ℕ, true, false, None};
ghost use Rattle.job_script.specs.declared.act.Answer.TheVariants.{Made, Spawned};
ghost use Rattle.tasks_in_flight.specs.Heard.{Asked, Seen, next, IsHeard};
ghost use Rattle.own_body.specs.Turns.{none, TakesNone, AreCounted};

use job_script::Answer;

/// How often the task has passed phaser 0, and how many children it has spawned, as far as it has heard
/// of that. Its turns it counts only once it has heard that it made the phaser.
#[derive(Clone, Copy)]
pub struct Counts {
    /// Whether it has made phaser 0, which it then holds.
    pub holds: bool,
    pub turns: u32,
    pub children: u32,
}

/// Whether it hears that it made phaser 0.
fn is_first(answer: Answer) -> bool
    ensures { result ≡ true → answer ≡ Made 0 }
{
    matches!(answer, Answer::Made(0))
}

/// Whether it hears of a child.
fn is_child(answer: Answer) -> bool
    ensures { result ≡ true → (child : ℕ) × (answer ≡ Spawned child) }
{
    matches!(answer, Answer::Spawned(_))
}

/// One more, if there is one.
fn counted(number: u32, one: bool) -> u32
    ensures same { one ≡ false → result ≡ number }
    ensures more { result ≤ number + 1 }
{
    if one {
        number.saturating_add(1)
    } else {
        number
    }
}

impl Counts {
    /// Before anything is heard.
    pub fn none() -> Counts
        ensures { result ≡ none }
    {
        Counts {
            holds: false,
            turns: 0,
            children: 0,
        }
    }

    /// Counts what came of the last act, if it is known whether that was to end a turn.
    pub fn hear(&mut self, turns: bool, answer: Answer)
        ensures { (task : ℕ) (asked : Asked) (seen now : Seen) → (turns ≡ true → asked ≡ next None)
            → (self.old.holds ≡ true → TakesNone asked) → AreCounted task self.old seen
            → IsHeard task asked answer seen now → AreCounted task self.new now }
    {
        self.turns = counted(self.turns, turns && self.holds);
        self.children = counted(self.children, is_child(answer));
        self.holds = self.holds || is_first(answer);
    }
}
