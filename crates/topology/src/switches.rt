//! The switches by name, numbered in the order of the file.
ghost use Rattle.std.specs.Prelude.{◌≡◌, ◌<◌, ◌≤◌, ◌++◌, ◌∷◌, [], None, Some, length, option_map, slice_get, slice_index_or, IfSome, OnOk, OnErr};
ghost use Rattle.topology.specs.Networks.{switch_named};
ghost use Rattle.net_base.specs.Switches.{most_switches};

use indexmap::IndexMap;
use net_base::SwitchId;
use std::alloc::{AllocError, Global};
use std::marker::Model;

/// The switches by name, each numbered by its place.
#[derive(Drop)]
pub struct Switches {
    capacities: IndexMap<String, u32>,
}

impl Model for Switches {
    ghost use Rattle.std.specs.Prelude.{◌≤◌, length};
    ghost use Rattle.topology.specs.Named.{Named, named_entries};
    ghost use Rattle.net_base.specs.Switches.{most_switches};

    ghost Value = { Named };

    ghost view = { λ s. named_entries s.capacities };

    ghost invariant = { λ s. length (named_entries s.capacities).names ≤ most_switches };
}

impl Switches {
    /// No switches.
    pub fn new(alloc: Global) -> Self
        ensures { result ≡ record { names = []; capacities = [] } }
    {
        Switches {
            capacities: IndexMap::new(alloc),
        }
    }

    /// How many there are.
    pub fn len(&self) -> u32
        ensures { result ≡ length self.now.names }
    {
        self.capacities.len() as u32
    }

    /// The switch of that name.
    pub fn find(&self, name: &str) -> Option<SwitchId>
        ensures value { option_map (λ s. s.0) result ≡ switch_named self.now.names name.now }
        ensures within { IfSome result (λ s. s.0 < length self.now.names) }
    {
        let number = self.capacities.get_index_of(name)?;
        Some(SwitchId(number as u32))
    }

    /// The name of a switch.
    pub fn name(&self, s: SwitchId) -> &str
        requires { s.0 < length self.now.names }
        ensures { slice_get self.now.names s.0 ≡ Some result.now }
    {
        let (name, _) = self.capacities.get_index(s.0 as usize).unwrap();
        name.as_str()
    }

    /// The capacity of a switch.
    pub fn capacity(&self, s: SwitchId) -> u32
        requires { s.0 < length self.now.names }
        ensures { result ≡ slice_index_or self.now.capacities s.0 0 }
    {
        let (_, capacity) = self.capacities.get_index(s.0 as usize).unwrap();
        *capacity
    }

    /// Adds a switch at the end.
    pub fn add(&mut self, alloc: Global, name: &str, capacity: u32) -> Result<(), AllocError>
        requires room { length self.old.names < most_switches }
        requires new { switch_named self.old.names name.now ≡ None }
        ensures ok { OnOk result (self.new ≡ record {
          names = self.old.names ++ name.now ∷ [];
          capacities = self.old.capacities ++ capacity ∷ [];
        }) }
        ensures err { OnErr result (self.new ≡ self.old) }
    {
        self.capacities
            .insert(String::from_str(alloc, name)?, capacity)?;
        Ok(())
    }
}
