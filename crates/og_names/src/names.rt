ghost use Rattle.std.specs.Prelude.{◌≡◌, ◌++◌, ◌∷◌, [], false, length, OnErr, OnOk};
ghost use Rattle.std.specs.Option.{option_copied};
ghost use Rattle.og_names.specs.Names.{lookup, has_name, place};

use indexmap::IndexMap;
use std::alloc::{AllocError, Global};
use std::marker::Model;

/// What each name stands for. Contracts see the names in the order in which they came, each with what it stands for.
#[derive(Drop)]
pub struct Names<V> {
    held: IndexMap<String, V>,
}

impl<V> Model for Names<V> {
    ghost use Rattle.std.specs.Prelude.{List, ℕ};
    ghost use Rattle.std.specs.Coded.{coded_list, coded_ℕ, coded×};
    ghost use Rattle.og_names.specs.Names.{named};

    ghost Value = { List (List ℕ × V) };

    ghost coded = { coded_list (coded× (coded_list coded_ℕ) V.code) };

    ghost view = { λ n. named n.held.entries };
}

impl<V> Names<V> {
    /// The table without a name. It takes no memory.
    pub fn new(alloc: Global) -> Names<V>
        ensures { result ≡ [] }
    {
        Names {
            held: IndexMap::new(alloc),
        }
    }

    /// How many names there are.
    pub fn len(&self) -> usize
        ensures { result ≡ length self.now }
    {
        self.held.len()
    }

    /// What the name stands for, or `None` where it isn't there.
    pub fn get(&self, name: &str) -> Option<&V>
        ensures { option_copied result ≡ lookup name.now self.now }
    {
        self.held.get(name)
    }

    /// The place of the name in the order in which the names came, from 0, or `None` where it isn't there.
    pub fn place(&self, name: &str) -> Option<usize>
        ensures { result ≡ place name.now self.now }
    {
        self.held.get_index_of(name)
    }

    /// Whether the name is there.
    pub fn has(&self, name: &str) -> bool
        ensures { result ≡ has_name name.now self.now }
    {
        self.held.contains_key(name)
    }
}

impl<V: Drop> Names<V> {
    /// Adds a name that isn't there. A refusal is for want of memory, and changes nothing.
    pub fn insert(&mut self, alloc: Global, name: &str, value: V) -> Result<(), AllocError>
        requires { has_name name.now self.old ≡ false }
        ensures ok { OnOk result (self.new ≡ self.old ++ (name.entry.now, value) ∷ []) }
        ensures refused { OnErr result (self.new ≡ self.old) }
    {
        let key = String::from_str(alloc, name)?;
        match self.held.insert(key, value) {
            Ok(_) => Ok(()),
            Err(_) => Err(AllocError),
        }
    }
}
