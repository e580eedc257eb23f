//! Classes of packets: host ports, declared VLANs and ranges of addresses that no prefix tells apart.
#![tactic(auto)]

mod laws;
mod numbering;
mod ranges;

pub use laws::one_atom_one_class;
use net_base::{Place, Prefix, Stop, Vlan};
pub use numbering::{MAX_CLASSES, class_map};
use std::alloc::AllocError;
use std::marker::Model;

/// The atoms of addresses: the ranges between neighbouring boundaries, by their first addresses, ascending from 0.
#[derive(Drop)]
pub struct Atoms {
    firsts: Vec<u32>,
}

impl Model for Atoms {
    ghost use Rattle.std.specs.Prelude.{List, ℕ};
    ghost use Rattle.dest_classes.specs.Atoms.{AreFirsts};

    ghost Value = { List ℕ };

    ghost view = { λ a. a.firsts.items };

    ghost invariant = { λ a. AreFirsts a.firsts.items };
}

/// A class: the packets that enter at one host port with one declared VLAN, and go to the addresses of one atom. No prefix
/// of its class map tells these addresses apart. A class is numbered from 0, and at most 8191.
#[derive(Clone, Copy, Debug, PartialEq, Eq)]
pub struct Class {
    /// Where its packets enter: a host port, by its switch and port, and a declared VLAN.
    pub entry: Place,
    /// The first address of its atom, an IPv4 address as a number of 32 bits, its first byte the highest. It stands for all
    /// addresses of the class.
    pub first: u32,
}

/// A class of a map, with its number there.
#[derive(Clone, Copy, Debug, PartialEq, Eq)]
pub struct NumberedClass {
    /// Its number, from 0.
    pub number: u32,
    /// The class.
    pub class: Class,
}

/// The classes of a network for a list of prefixes. Class `((host * vlans) + vlan) * atoms + atom` is made of the host
/// port, the declared VLAN and the atom with these numbers, where `vlans` and `atoms` are counts.
#[derive(Drop)]
pub struct ClassMap {
    hosts: Vec<Stop>,
    vlans: Vec<Vlan>,
    prefixes: Vec<Prefix>,
    atoms: Atoms,
}

impl Model for ClassMap {
    ghost use Rattle.std.specs.Prelude.{◌≡◌, ◌≤◌, ◌*◌, length};
    ghost use Rattle.dest_classes.specs.Classes.{ClassList, boundaries};

    ghost Value = { ClassList };

    ghost view = { λ m. record { hosts = m.hosts.items; vlans = m.vlans.items; prefixes = m.prefixes.items } };

    ghost invariant = { λ m. (m.atoms ≡ boundaries m.prefixes.items) × (length m.hosts.items * length m.vlans.items * length m.atoms ≤ 8192) };
}

/// The atoms from one up to but not including another, by their numbers from 0.
#[derive(Clone, Copy, Debug, PartialEq, Eq)]
pub struct AtomRange {
    /// The first atom.
    pub from: u32,
    /// The atom after the last one.
    pub to: u32,
}

/// Why there is no class map.
#[derive(Clone, Copy, Debug, PartialEq, Eq)]
pub enum ClassFault {
    /// There are more than 8192 classes: how many.
    TooManyClasses(u64),
    /// Memory was wanting.
    Memory,
}

impl From<net_base::Memory> for ClassFault {
    ghost use Rattle.std.specs.Prelude.{◌≡◌};
    ghost use Rattle.dest_classes.specs.declared.ClassFault.TheVariants.{Memory};

    ghost from_gives = { λ _ e. e ≡ Memory };

    fn from(_: net_base::Memory) -> Self {
        ClassFault::Memory
    }
}

impl From<AllocError> for ClassFault {
    ghost use Rattle.std.specs.Prelude.{◌≡◌};
    ghost use Rattle.dest_classes.specs.declared.ClassFault.TheVariants.{Memory};

    ghost from_gives = { λ _ e. e ≡ Memory };

    fn from(_: AllocError) -> Self {
        ClassFault::Memory
    }
}
