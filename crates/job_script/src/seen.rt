//! What a reader has seen so far: the names of phasers, and faults that don't end the reading.
ghost use Rattle.std.specs.Prelude.{◌≡◌, [], IfOk, IfErr};
ghost use Rattle.phase_modes.specs.declared.refusal.Refusal.TheVariants.{Memory as NoMemory};
ghost use Rattle.job_script.specs.Names.{none_seen, number_of, noted, fails_at};

use indexmap::IndexSet;
use phase_modes::Refusal;
use std::alloc::Global;
use std::marker::Model;

/// The names that stood so far, numbered in the order in which they first stood, and the least
/// place of a fault that was noted.
#[derive(Drop)]
pub(crate) struct Seen {
    names: IndexSet<String>,
    fault: Option<u64>,
}

impl Model for Seen {
    ghost use Rattle.std.specs.Prelude.{◌≤◌, map, string_bytes, length};
    ghost use Rattle.job_script.specs.Names as spec;

    ghost Value = { spec.Seen };

    ghost view = { λ s. record { names = map string_bytes s.names.keys; fault = s.fault } };

    ghost invariant = { λ s. length s.names.keys ≤ 64 };
}

impl Seen {
    /// Nothing yet.
    pub(crate) fn new(alloc: Global) -> Seen
        ensures { result ≡ none_seen }
    {
        Seen {
            names: IndexSet::new(alloc),
            fault: None,
        }
    }

    /// The least place of a fault that was noted.
    pub(crate) fn fault(&self) -> Option<u64>
        ensures { result ≡ self.now.fault }
    {
        self.fault
    }

    /// The place of a fault, or the lesser one that was noted.
    pub(crate) fn first_fault(&self, place: u64) -> u64
        ensures { result ≡ fails_at self.now place }
    {
        match self.fault {
            None => place,
            Some(noted) => noted.min(place),
        }
    }

    /// Notes a fault at a place; the least place is kept.
    pub(crate) fn note(&mut self, place: u64)
        ensures { self.new ≡ noted self.old place }
    {
        self.fault = Some(self.first_fault(place));
    }

    /// The number of a name, 0 to 63, in an act at a place. The sixty-fifth name has none: that is
    /// a fault at the act in which it first stands.
    /// `Memory` if there is too little for the name.
    pub(crate) fn number_of(&mut self, alloc: Global, place: u64, name: &str) -> Result<u8, Refusal>
        ensures numbered { IfOk result (λ n. number_of self.old place name.now ≡ (n, self.new)) }
        ensures memory { IfErr result (λ e. e ≡ NoMemory) }
    {
        if let Some(index) = self.names.get_index_of(name) {
            return Ok(index as u8);
        }
        let count = self.names.len();
        if count >= 64 {
            self.note(place);
            return Ok(0);
        }
        let key = String::from_str(alloc, name)?;
        self.names.insert(key)?;
        Ok(count as u8)
    }
}
