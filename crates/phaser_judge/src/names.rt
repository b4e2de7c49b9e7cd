//! The tasks of a phaser by the runtime's numbers.
ghost use Rattle.std.specs.Prelude.{◌≡◌, ◌<◌, ◌++◌, ◌∷◌, [], nat_eq, vec_len, vec_capacity, IfOk, OnOk};
ghost use Rattle.phase_modes.specs.Lists.{is_empty};
ghost use Rattle.std.specs.Map.{lookup, remove_entry};

use std::alloc::{AllocError, Global};

/// The registered tasks in the order of their registration: the runtime's number of each, and the
/// phaser's.
#[derive(Drop)]
pub(crate) struct Names {
    pub(crate) tasks: Vec<(u64, u64)>,
}

impl Names {
    /// One task; an error if there is no memory.
    pub(crate) fn of(alloc: Global, name: u64, number: u64) -> Result<Names, AllocError>
        ensures { IfOk result (λ n. n.tasks.items ≡ (name, number) ∷ []) }
    {
        let mut tasks = Vec::with_capacity(alloc, 2)?;
        tasks.push_reserved((name, number));
        Ok(Names { tasks })
    }

    /// The phaser's number of a task.
    pub(crate) fn number_of(&self, name: u64) -> Option<u64>
        ensures { result ≡ lookup (nat_eq name) self.now.tasks.items }
    {
        for (task, number) in &self.tasks {
            if *task == name {
                return Some(*number);
            }
        }
        None
    }

    /// Makes room for one task more.
    pub(crate) fn reserve(&mut self) -> Result<(), AllocError>
        ensures kept { self.new.tasks.items ≡ self.old.tasks.items }
        ensures room { OnOk result (vec_len self.new.tasks < vec_capacity self.new.tasks) }
    {
        self.tasks.reserve(1)
    }

    /// Adds a task at the end.
    pub(crate) fn push(&mut self, name: u64, number: u64)
        requires { vec_len self.old.tasks < vec_capacity self.old.tasks }
        ensures { self.new.tasks.items ≡ self.old.tasks.items ++ (name, number) ∷ [] }
    {
        self.tasks.push_reserved((name, number));
    }

    /// Takes the task out.
    pub(crate) fn remove(&mut self, name: u64)
        ensures { self.new.tasks.items ≡ remove_entry (nat_eq name) self.old.tasks.items }
    {
        for place in 0..self.tasks.len() {
            if self.tasks[place].0 == name {
                self.tasks.remove(place);
                return;
            }
        }
    }

    /// Whether there is none.
    pub(crate) fn is_empty(&self) -> bool
        ensures { result ≡ is_empty self.now.tasks.items }
    {
        self.tasks.is_empty()
    }
}
