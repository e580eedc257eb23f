//! Class maps: the classes of a network for a list of prefixes, and their numbers.
ghost use Rattle.std.specs.Prelude.{◌≡◌, ℕ, ◌*◌, ◌%◌, ◌^◌, ◌<◌, ◌≤◌, ◌↔◌, true, IfOk, IfErr, IfSome, IfNone, IsNone, Some, length, slice_get, slice_index, ◌≢◌, All};
ghost use Rattle.net_base.specs.Blocks.{IsSameClass, in_block};
ghost use Rattle.net_base.specs.Members.{IsIn};
ghost use Rattle.topology.specs.Networks.{IsEntry};
ghost use Rattle.dest_classes.specs.Classes.{classes_of, class_count, atom_count, boundaries, IsClass};
ghost use Rattle.dest_classes.specs.Atoms.{IsAtomOf, IsAmong};
ghost use Rattle.dest_classes.specs.declared.Class.{Class};
ghost use Rattle.dest_classes.specs.Numbered.{IsClassOf, IsCauseOf};

use crate::ranges::end_of;
use crate::{AtomRange, Atoms, Class, ClassFault, ClassMap};
use net_base::{Memory, Place, Prefix, Stop, Vlan};
use std::alloc::Global;
use topology::Net;

/// The greatest number of classes of a map.
pub const MAX_CLASSES: u64 = 8192;

/// The class map of a network for a list of prefixes. It takes time n log n in the number of prefixes. It is refused
/// with the number of classes where that exceeds 8192.
pub fn class_map(alloc: Global, net: &Net, prefixes: &[Prefix]) -> Result<ClassMap, ClassFault>
    ensures ok { IfOk result (λ m. (m ≡ classes_of net.now prefixes.now)
        × (class_count (classes_of net.now prefixes.now) ≤ 8192)) }
    ensures too_many { IfErr result (IsCauseOf (classes_of net.now prefixes.now)) }
{
    net.keeps_rules();
    let atoms = Atoms::of_prefixes(alloc, prefixes)?;
    let product = net.hosts().len() as u64 * net.vlans().len() as u64 * atoms.count() as u64;
    if product > MAX_CLASSES {
        return Err(ClassFault::TooManyClasses(product));
    }
    Ok(ClassMap {
        hosts: Vec::from_slice(alloc, net.hosts())?,
        vlans: Vec::from_slice(alloc, net.vlans())?,
        prefixes: Vec::from_slice(alloc, prefixes)?,
        atoms,
    })
}

/// The position of a host port.
fn host_at(hosts: &[Stop], stop: Stop) -> Option<usize>
    ensures some { IfSome result (λ i. slice_get hosts.now i ≡ Some stop) }
    ensures none { IfNone result (All (λ host. host ≢ stop) hosts.now) }
{
    hosts.iter().position(|host| *host == stop)
}

/// The position of a declared VLAN.
fn vlan_at(vlans: &[Vlan], vlan: Vlan) -> Option<usize>
    ensures some { IfSome result (λ i. slice_get vlans.now i ≡ Some vlan) }
    ensures none { IfNone result (All (λ declared. declared ≢ vlan) vlans.now) }
{
    vlans.iter().position(|declared| *declared == vlan)
}

impl ClassMap {
    /// An equal map.
    pub fn copy(&self) -> Result<ClassMap, Memory>
        ensures { IfOk result (λ m. m ≡ self.now) }
    {
        let alloc = *self.hosts.allocator();
        Ok(ClassMap {
            hosts: Vec::from_slice(alloc, self.hosts.as_slice())?,
            vlans: Vec::from_slice(alloc, self.vlans.as_slice())?,
            prefixes: Vec::from_slice(alloc, self.prefixes.as_slice())?,
            atoms: self.atoms.copy()?,
        })
    }

    /// How many classes there are, at most 8192.
    pub fn count(&self) -> u32
        ensures count { result ≡ class_count self.now }
        ensures few { result ≤ 8192 }
    {
        (self.hosts.len() * self.vlans.len() * self.atoms.count()) as u32
    }

    /// The class with this number, which is below the count.
    pub fn class(&self, n: u32) -> Class
        requires { n < class_count self.now }
        ensures is { IsClass self.now n result }
        ensures only { (class : Class) → IsClass self.now n class → class ≡ result }
    {
        let n = n as usize;
        let row = n / self.atoms.count();
        let host = self.hosts[row / self.vlans.len()];
        let vlan = self.vlans[row % self.vlans.len()];
        Class {
            entry: Place {
                switch: host.switch,
                port: host.port,
                vlan,
            },
            first: self.atoms.first(n % self.atoms.count()),
        }
    }

    /// How many atoms there are, at least one; the map has at least one class. The classes of a host port and a VLAN have
    /// as many numbers in a row, one for each atom, in the atoms' order.
    pub fn atoms(&self) -> u32
        requires some { 0 < class_count self.now }
        ensures count { result ≡ atom_count self.now }
        ensures some { 0 < result }
        ensures few { result ≤ 8192 }
        ensures classes { class_count self.now
            ≡ length self.now.hosts * length self.now.vlans * result }
        ensures first { (n : ℕ) (class : Class) → IsClass self.now n class
            → slice_get (boundaries self.now.prefixes) (n % result) ≡ Some class.first }
    {
        self.atoms.count() as u32
    }

    /// The atoms whose addresses lie in a prefix of the map, at least one; the map has at least one class. It takes time
    /// log n.
    pub fn touched(&self, p: Prefix) -> AtomRange
        requires some { 0 < class_count self.now }
        requires known { IsIn p self.now.prefixes }
        ensures within { result.to ≤ atom_count self.now }
        ensures some { result.from < result.to }
        ensures first { (i : ℕ) → i < atom_count self.now → IsAmong result i
            ↔ (in_block p (slice_index (boundaries self.now.prefixes) i) ≡ true) }
        ensures address { (i address : ℕ) → address < 2 ^ 32
            → IsAtomOf (boundaries self.now.prefixes) i address → IsAmong result i
            ↔ (in_block p address ≡ true) }
        // By a class's number: its first address lies in the prefix exactly where the range has its atom.
        ensures class { (n : ℕ) (class : Class) → IsClass self.now n class
            → IsAmong result (n % atom_count self.now) ↔ (in_block p class.first ≡ true) }
    {
        AtomRange {
            from: self.atoms.begun_before(u64::from(p.base)) as u32,
            to: self.atoms.begun_before(end_of(&p)) as u32,
        }
    }

    /// The number of the class of an entry and an address; None where the entry is no host port with a declared VLAN.
    /// The map was made for the network. It takes time linear in the host ports and VLANs, and log n in the atoms.
    pub fn number_of(&self, net: &Net, entry: Place, addr: u32) -> Option<u32>
        requires hosts { self.now.hosts ≡ net.now.hosts }
        requires vlans { self.now.vlans ≡ net.now.vlans }
        ensures none { IsNone result ↔ ¬ IsEntry net.now entry }
        ensures some { IfSome result (λ n. (n < class_count self.now)
            × IsClassOf self.now n entry addr) }
        ensures only { IfSome result (λ n. (m : ℕ) → IsClassOf self.now m entry addr → m ≡ n) }
        // Of this class is the entry, and no prefix tells the address apart from the class's first one.
        ensures class { IfSome result (λ n. (class : Class) → IsClass self.now n class
            → (class.entry ≡ entry) × IsSameClass self.now.prefixes class.first addr) }
    {
        net.keeps_rules();
        let stop = Stop {
            switch: entry.switch,
            port: entry.port,
        };
        let host = host_at(&self.hosts, stop)?;
        let vlan = vlan_at(&self.vlans, entry.vlan)?;
        let atom = self.atoms.index_of(addr);
        Some(((host * self.vlans.len() + vlan) * self.atoms.count() + atom) as u32)
    }
}
