//! The variables of a scope.

ghost use Rattle.std.specs.Prelude.{◌≡◌, [], length, nat_eq, OnOk};
ghost use Rattle.std.specs.Cmp.Lexicographic.{pointwise};
ghost use Rattle.std.specs.Option.{option_copied};
ghost use Rattle.std.specs.List.{list_any};
ghost use Rattle.std.specs.Prelude.{slice_get};
ghost use Rattle.indexmap.specs.IndexSet.{insert_key};
ghost use Rattle.pl_resolve.specs.Functions.{place_in};

use indexmap::IndexSet;
use pl_base::{NoMemory, Text};
use std::alloc::Global;
use std::marker::Model;

/// The names of the variables of a scope. A variable's slot is its place. A look-up by name takes the
/// same time in a large scope as in a small one.
#[derive(Debug, Drop)]
pub struct Scope {
    names: IndexSet<Text>,
}

impl Model for Scope {
    ghost use Rattle.std.specs.Prelude.{List, ℕ, ◌<◌, length};

    ghost Value = { List (List ℕ) };

    ghost view = { λ s. s.names.keys };

    ghost invariant = { λ s. length s.names.keys < 4000000000 };
}

impl Scope {
    /// No variables.
    pub(crate) fn new(alloc: Global) -> Scope
        ensures { result ≡ [] }
    {
        Scope {
            names: IndexSet::new(alloc),
        }
    }

    /// Adds a name behind the others, unless it is there.
    pub(crate) fn add(&mut self, alloc: Global, name: &[u8]) -> Result<(), NoMemory>
        ensures { OnOk result (self.new ≡ insert_key (pointwise nat_eq) self.old name.now) }
    {
        if self.names.len() >= 3_999_999_999 {
            return Err(NoMemory);
        }
        self.names.insert(Text::of(alloc, name)?)?;
        Ok(())
    }

    /// Whether there is such a variable.
    pub fn has(&self, name: &Text) -> bool
        ensures { result ≡ list_any (pointwise nat_eq name.now) self.now }
    {
        self.names.contains(name)
    }

    /// How many variables there are.
    pub fn len(&self) -> usize
        ensures { result ≡ length self.now }
    {
        self.names.len()
    }

    /// The slot of a variable: the first place of its name.
    pub fn slot(&self, name: &Text) -> Option<u32>
        ensures { result ≡ place_in self.now name.now }
    {
        match self.names.get_index_of(name) {
            Some(place) => Some(place as u32),
            None => None,
        }
    }

    /// The variable of a slot.
    pub fn name(&self, slot: u32) -> Option<&Text>
        ensures { option_copied result ≡ slice_get self.now slot }
    {
        self.names.get_index(slot as usize)
    }
}
