//! The items of those whom a call wakes.
ghost use Rattle.std.specs.Prelude.{◌≡◌, ◌++◌, ◌∷◌, [], ◌<◌, length, IfOk, IfErr, MatchOption};

use phase_modes::Refusal;
use std::alloc::Global;
use std::collections::VecDeque;
use std::marker::Model;

/// A list of items, first in, first out, with room for 256: as many as can wait at one phaser.
/// Contracts see the items.
#[derive(Drop)]
pub struct Out<T> {
    items: VecDeque<T>,
}

impl<T> Model for Out<T> {
    ghost use Rattle.std.specs.Prelude.{List, ◌≤◌};
    ghost use Rattle.std.specs.VecDeque.{deque_capacity};

    ghost Value = { List T };

    ghost view = { λ o. o.items.items };

    ghost invariant = { λ o. 256 ≤ deque_capacity o.items };
}

impl<T> Out<T> {
    /// An empty list. All its memory is taken here; `Memory` if that is refused.
    pub fn new(alloc: Global) -> Result<Out<T>, Refusal>
        ensures empty { IfOk result (λ o. o ≡ []) }
        ensures memory { IfErr result (λ e. e ≡ Refusal.Memory) }
    {
        let items = VecDeque::with_capacity(alloc, 256)?;
        Ok(Out { items })
    }

    /// How many items there are, at most 256.
    pub fn len(&self) -> usize
        ensures { result ≡ length self.now }
    {
        self.items.len()
    }

    /// Takes the item that was put in first.
    pub fn take(&mut self) -> Option<T>
        ensures { MatchOption result ((self.old ≡ []) × (self.new ≡ [])) (λ x. self.old ≡ x ∷ self.new) }
    {
        self.items.pop_front()
    }

    /// Puts an item last. There is room for 256.
    pub fn put(&mut self, item: T)
        requires { length self.old < 256 }
        ensures { self.new ≡ self.old ++ item ∷ [] }
    {
        self.items.push_back_reserved(item)
    }
}
