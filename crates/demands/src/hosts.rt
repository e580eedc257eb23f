//! The host ports that a demand names.
ghost use Rattle.std.specs.Prelude.{◌≡◌, ◌∷◌, [], IfOk, OnOk};
ghost use Rattle.std.specs.List.{list_any};
ghost use Rattle.topology.specs.Networks.{stop_eq};
ghost use Rattle.demands.specs.Policy.{with_source};

use indexmap::IndexSet;
use net_base::{Memory, Stop};
use std::alloc::{AllocError, Global};
use std::marker::Model;

/// Host ports, each once, in the order in which they were put.
#[derive(Drop)]
pub(crate) struct Hosts {
    ports: IndexSet<Stop>,
}

impl Model for Hosts {
    ghost use Rattle.std.specs.Prelude.{List};
    ghost use Rattle.net_base.specs.declared.ids.Stop.{Stop};

    ghost Value = { List Stop };

    ghost view = { λ h. h.ports.keys };
}

impl Hosts {
    /// No ports.
    pub(crate) fn none(alloc: Global) -> Hosts
        ensures { result ≡ [] }
    {
        Hosts {
            ports: IndexSet::new(alloc),
        }
    }

    /// This port alone.
    pub(crate) fn one(alloc: Global, stop: Stop) -> Result<Hosts, AllocError>
        ensures { IfOk result (λ h. h ≡ stop ∷ []) }
    {
        let mut hosts = Hosts::none(alloc);
        hosts.put(stop)?;
        Ok(hosts)
    }

    /// Puts a port as the last one, unless it is there.
    pub(crate) fn put(&mut self, stop: Stop) -> Result<(), AllocError>
        ensures { OnOk result (self.new ≡ with_source self.old stop) }
    {
        self.ports.insert(stop)?;
        Ok(())
    }

    /// Whether the port is among them. It takes the time of one look-up in a hash table, and less where there is one port, as in
    /// most demands.
    pub(crate) fn has(&self, stop: Stop) -> bool
        ensures { result ≡ list_any (λ s. stop_eq s stop) self.now }
    {
        let ports = self.ports.as_slice();
        if ports.len() == 1 {
            return ports[0] == stop;
        }
        self.ports.contains(&stop)
    }

    /// Equal ports.
    pub(crate) fn copy(&self) -> Result<Hosts, Memory>
        ensures { IfOk result (λ h. h ≡ self.now) }
    {
        Ok(Hosts {
            ports: self.ports.clone()?,
        })
    }
}
