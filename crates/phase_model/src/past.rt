//! The history as its definitions see it: the stored events, and one after them that is not stored,
//! if there is one.
ghost use Rattle.std.specs.Prelude.{◌≡◌, ◌≤◌, ◌∷◌, [], length, reverse, IfNone, IfSome};
ghost use Rattle.phase_modes.specs.Lists.{is_empty};

use crate::history::Event;
use std::marker::Model;

/// The stored events, the oldest first, and the event after them that is not stored, if there is
/// one. Contracts see them all, the newest first.
#[derive(Drop)]
pub(crate) struct Past<'a> {
    events: &'a [Event],
    next: Option<Event>,
}

impl<'a> Model for Past<'a> {
    ghost use Rattle.std.specs.Prelude.{List, ◌≤◌, length, reverse};
    ghost use Rattle.phase_model.specs.declared.history.Event.{Event};
    ghost use Rattle.phase_model.specs.inner.Next.{with_next};

    ghost Value = { List Event };

    ghost view = { λ p. with_next p.next (reverse p.events.now) };

    ghost invariant = { λ p. length p.events.now ≤ 65536 };
}

impl<'a> Past<'a> {
    /// The stored events.
    pub(crate) fn of(events: &'a [Event]) -> Past<'a>
        requires { length events.now ≤ 65536 }
        ensures { result ≡ reverse events.now }
    {
        Past { events, next: None }
    }

    /// The stored events, and one more.
    pub(crate) fn and(events: &'a [Event], next: Event) -> Past<'a>
        requires { length events.now ≤ 65536 }
        ensures { result ≡ next ∷ reverse events.now }
    {
        Past {
            events,
            next: Some(next),
        }
    }

    /// All of it.
    pub(crate) fn all(&self) -> Past<'a>
        ensures same { result ≡ self.now }
        ensures few { length self.now ≤ 65537 }
    {
        Past {
            events: self.events,
            next: self.next,
        }
    }

    /// The newest event, and what was there before it.
    pub(crate) fn newest(&self) -> Option<(Event, Past<'a>)>
        ensures none { IfNone result (self.now ≡ []) }
        ensures some { IfSome result (λ x. self.now ≡ x.0 ∷ x.1) }
    {
        let events = self.events;
        if let Some(event) = self.next {
            return Some((event, Past { events, next: None }));
        }
        match events {
            [before @ .., event] => Some((
                *event,
                Past {
                    events: before,
                    next: None,
                },
            )),
            [] => None,
        }
    }

    /// How many events there are.
    pub(crate) fn len(&self) -> usize
        ensures length { result ≡ length self.now }
        ensures few { result ≤ 65537 }
    {
        match self.next {
            Some(_) => self.events.len() + 1,
            None => self.events.len(),
        }
    }

    /// Whether nothing was done.
    pub(crate) fn is_empty(&self) -> bool
        ensures { result ≡ is_empty self.now }
    {
        self.next.is_none() && self.events.is_empty()
    }
}
