//! The network that contracts see, and what is at a port.

ghost use Rattle.std.specs.Prelude.{◌≡◌, ◌≢◌, ◌↔◌, ◌<◌, ◌≤◌, ◌++◌, ◌∷◌, [], IsTrue, ◌&&◌, not, length, count_by, option_map, map, slice_get, IfSome, OnOk, OnErr, None, Some, true, false};
ghost use Rattle.std.specs.List.{list_any};
ghost use Rattle.topology.specs.Networks.{IsNetwork, IsVlan, IsVlanId, IsUsed, IsAvailableTag, stop_eq, end_at, vlan_eq, IsEntry, switch_count, switch_named, capacity_of, used_ports, is_used, is_host, is_on, is_tag, in_range, is_name, is_capacity};
ghost use Rattle.topology.specs.Growth.{no_network, with_switch, with_link, with_host, with_vlan, with_tags};
ghost use Rattle.topology.specs.Ends.{IsPort};
ghost use Rattle.topology.specs.Ends as seen;
ghost use Rattle.topology.specs.declared.net.End.TheVariants as at;
ghost use Rattle.net_base.specs.Switches.{most_switches};

use crate::ports::Ports;
use crate::switches::Switches;
use net_base::{Place, Port, Stop, SwitchId, Vlan};
use std::alloc::{AllocError, Global};
use std::marker::Model;

/// What is at a port of a switch.
#[derive(Clone, Copy, Debug, PartialEq, Eq)]
pub enum End {
    /// A host: packets enter and leave the network here.
    Host,
    /// One end of a two-way link: the switch and the port at its other end.
    Link(SwitchId, Port),
    /// Neither. What is sent out here is discarded.
    Nothing,
}

/// A two-way link between two ports.
#[derive(Clone, Copy, Debug, PartialEq, Eq)]
pub struct Link {
    pub one: Stop,
    pub other: Stop,
}

/// A network: switches with their names and capacities, two-way links, host ports, declared VLANs and the tag range. It is
/// wide where its topology has format 2: then policies may say more.
#[derive(Drop)]
pub struct Net {
    switches: Switches,
    ends: Ports,
    links: Vec<Link>,
    hosts: Vec<Stop>,
    vlans: Vec<Vlan>,
    tags: Option<(u16, u16)>,
    wide: bool,
}

impl Model for Net {
    ghost use Rattle.topology.specs.Networks.{Network};

    ghost Value = { Network };

    ghost use Rattle.topology.specs.Seen.{network_of, IsNetKept};

    ghost view = { network_of };

    ghost invariant = { IsNetKept };
}

/// Whether two VLANs are the same.
fn is_same_vlan(a: Vlan, b: Vlan) -> bool
    ensures { result ≡ vlan_eq a b }
{
    match (a, b) {
        (Vlan::Untagged, Vlan::Untagged) => true,
        (Vlan::Id(m), Vlan::Id(n)) => m == n,
        _ => false,
    }
}

/// Whether a VLAN is among the declared ones.
fn is_declared(vlans: &[Vlan], vlan: Vlan) -> bool
    ensures { result ≡ list_any (vlan_eq vlan) vlans.now }
{
    vlans.iter().any(|declared| is_same_vlan(vlan, *declared))
}

/// Whether a host is there.
fn is_host_end(end: End) -> bool
    ensures { result ≡ seen.is_host_end end }
{
    match end {
        End::Host => true,
        _ => false,
    }
}

impl Net {
    /// Does nothing: its contract says what every network keeps, for crates that do not see its fields.
    pub fn keeps_rules(&self)
        ensures { IsNetwork self.now }
    {
        let _ = &self.links;
    }

    /// Whether the network is wide: its topology has format 2.
    pub fn is_wide(&self) -> bool
        ensures { result ≡ self.now.wide }
    {
        self.wide
    }

    /// How many switches there are, at most 128.
    pub fn switches(&self) -> u32
        ensures value { result ≡ switch_count self.now }
        ensures few { result ≤ most_switches }
    {
        self.switches.len()
    }

    /// The most table entries of a switch, 1 to 8192.
    pub fn capacity(&self, s: SwitchId) -> u32
        requires { s.0 < switch_count self.now }
        ensures value { result ≡ capacity_of self.now s }
        ensures within { (1 ≤ result) × (result ≤ 8192) }
    {
        self.switches.capacity(s)
    }

    /// The name of a switch, 1 to 32 ASCII letters, digits, `-` and `_`.
    pub fn name(&self, s: SwitchId) -> &str
        requires { s.0 < switch_count self.now }
        ensures { slice_get self.now.names s.0 ≡ Some result.now }
    {
        self.switches.name(s)
    }

    /// The switch of that name.
    pub fn find(&self, name: &str) -> Option<SwitchId>
        ensures value { option_map (λ s. s.0) result ≡ switch_named self.now.names name.now }
        ensures within { IfSome result (λ s. s.0 < switch_count self.now) }
    {
        self.switches.find(name)
    }

    /// What is at a port. The cost is that of a look-up by number, or of one in a hash table for a port that isn't used or
    /// shares its number's last six bits with another one of its switch.
    pub fn end(&self, s: SwitchId, p: Port) -> End
        ensures { result ≡ end_at self.now (record { switch = s; port = p }) }
    {
        self.ends.end(Stop { switch: s, port: p })
    }

    /// Whether the port is a host port or one end of a link. That is where its end isn't nothing.
    pub fn is_used(&self, s: SwitchId, p: Port) -> bool
        ensures value { result ≡ is_used self.now (record { switch = s; port = p }) }
        ensures meaning { IsTrue result ↔ IsUsed self.now (record { switch = s; port = p }) }
        ensures ends { end_at self.now (record { switch = s; port = p }) ≢ at.Nothing
            ↔ IsUsed self.now (record { switch = s; port = p }) }
    {
        self.ends.contains(Stop { switch: s, port: p })
    }

    /// Whether the port is a host port. That is where its end is a host.
    pub fn is_host(&self, stop: Stop) -> bool
        ensures value { result ≡ is_host self.now stop }
        ensures ends { IsTrue result ↔ (end_at self.now stop ≡ at.Host) }
    {
        is_host_end(self.ends.end(stop))
    }

    /// The host ports in the order of the file.
    pub fn hosts(&self) -> &[Stop]
        ensures { result.now ≡ self.now.hosts }
    {
        &self.hosts
    }

    /// The declared VLANs in the order of the file, at most 64.
    pub fn vlans(&self) -> &[Vlan]
        ensures { result.now ≡ self.now.vlans }
    {
        &self.vlans
    }

    /// The first and the last id of the tag range, where there is one.
    pub fn tags(&self) -> Option<(u16, u16)>
        ensures { option_map (λ t. record { first = t.0; last = t.1 }) result ≡ self.now.tags }
    {
        self.tags
    }

    /// Whether a VLAN is declared.
    pub fn is_declared(&self, vlan: Vlan) -> bool
        ensures { result ≡ list_any (vlan_eq vlan) self.now.vlans }
    {
        is_declared(&self.vlans, vlan)
    }

    /// Whether the id lies in the tag range.
    fn is_in_range(&self, id: u16) -> bool
        ensures { result ≡ in_range self.now.tags id }
    {
        match self.tags {
            None => false,
            Some((first, last)) => first <= id && id <= last,
        }
    }

    /// Whether the id lies in the tag range and no declared VLAN has it.
    fn is_available(&self, id: u16) -> bool
        ensures { result ≡ is_tag self.now id }
    {
        self.is_in_range(id) && !self.is_declared(Vlan::Id(id))
    }

    /// Whether the port is a host port and the VLAN is declared.
    fn takes_in(&self, stop: Stop, vlan: Vlan) -> bool
        ensures { result ≡ (is_host self.now stop && list_any (vlan_eq vlan) self.now.vlans) }
    {
        self.is_host(stop) && self.is_declared(vlan)
    }

    /// Whether the id is an available tag: of the tag range, and of no declared VLAN.
    pub fn is_tag(&self, id: u16) -> bool
        ensures value { result ≡ is_tag self.now id }
        ensures meaning { IsTrue result ↔ IsAvailableTag self.now id }
    {
        self.is_available(id)
    }

    /// Whether a packet may enter at the place: a host port with a declared VLAN.
    pub fn is_entry(&self, place: Place) -> bool
        ensures { IsTrue result ↔ IsEntry self.now place }
    {
        let stop = Stop {
            switch: place.switch,
            port: place.port,
        };
        self.takes_in(stop, place.vlan)
    }
}

/// Puts a link between two ports, and what is at each. Where memory is wanting nothing changes.
fn put_link(ends: &mut Ports, links: &mut Vec<Link>, a: Stop, b: Stop) -> Result<(), AllocError>
    requires a_free { list_any (stop_eq a) (map (λ p. p.0) ends.old) ≡ false }
    requires b_free { list_any (stop_eq b) (map (λ p. p.0) ends.old ++ a ∷ []) ≡ false }
    requires within { (a.switch.0 < most_switches) × (b.switch.0 < most_switches) }
    requires a_room { count_by (is_on a.switch) (map (λ p. p.0) ends.old) < 64 }
    requires b_room { count_by (is_on b.switch) (map (λ p. p.0) ends.old ++ a ∷ []) < 64 }
    ensures ends { OnOk result (ends.new
        ≡ (ends.old ++ (a, at.Link b.switch b.port) ∷ []) ++ (b, at.Link a.switch a.port) ∷ []) }
    ensures links { OnOk result (links.new.items
        ≡ links.old.items ++ record { one = a; other = b } ∷ []) }
    ensures ends_kept { OnErr result (ends.new ≡ ends.old) }
    ensures links_kept { OnErr result (links.new.items ≡ links.old.items) }
{
    links.reserve(1)?;
    ends.add_both(
        a,
        End::Link(b.switch, b.port),
        b,
        End::Link(a.switch, a.port),
    )?;
    links.push(Link { one: a, other: b })?;
    Ok(())
}

/// Puts a host port, and what is there. Where memory is wanting nothing changes.
fn put_host(ends: &mut Ports, hosts: &mut Vec<Stop>, stop: Stop) -> Result<(), AllocError>
    requires free { list_any (stop_eq stop) (map (λ p. p.0) ends.old) ≡ false }
    requires within { stop.switch.0 < most_switches }
    requires room { count_by (is_on stop.switch) (map (λ p. p.0) ends.old) < 64 }
    ensures ends { OnOk result (ends.new ≡ ends.old ++ (stop, at.Host) ∷ []) }
    ensures hosts { OnOk result (hosts.new.items ≡ hosts.old.items ++ stop ∷ []) }
    ensures ends_kept { OnErr result (ends.new ≡ ends.old) }
    ensures hosts_kept { OnErr result (hosts.new.items ≡ hosts.old.items) }
{
    hosts.reserve(1)?;
    ends.add(stop, End::Host)?;
    hosts.push(stop)?;
    Ok(())
}

impl Net {
    /// No switch, link, host port, VLAN or tag; a wide network, or a narrow one.
    pub fn empty(alloc: Global, wide: bool) -> Self
        ensures { result ≡ no_network wide }
    {
        Net {
            switches: Switches::new(alloc),
            ends: Ports::new(alloc),
            links: Vec::new(alloc),
            hosts: Vec::new(alloc),
            vlans: Vec::new(alloc),
            tags: None,
            wide,
        }
    }

    /// How many ports of the switch are used, at most 64. The cost is that of one look-up by number.
    pub fn count_on(&self, switch: SwitchId) -> usize
        ensures value { result ≡ count_by (is_on switch) (used_ports self.now) }
        ensures few { result ≤ 64 }
    {
        self.ends.count_on(switch)
    }

    /// Adds a switch by a name that no other one has, with the most table entries that it takes. Where memory is
    /// wanting the network stays as it was.
    pub fn add_switch(&mut self, alloc: Global, name: &str, capacity: u32) -> Result<(), AllocError>
        requires room { length self.old.names < most_switches }
        requires form { is_name name.now ≡ true }
        requires new { switch_named self.old.names name.now ≡ None }
        requires capacity { is_capacity capacity ≡ true }
        ensures ok { OnOk result (self.new ≡ with_switch self.old name.now capacity) }
        ensures err { OnErr result (self.new ≡ self.old) }
    {
        self.switches.add(alloc, name, capacity)?;
        Ok(())
    }

    /// Adds a link between ports that aren't used. No host port stands yet. Where memory is wanting the network stays
    /// as it was.
    pub fn add_link(&mut self, a: Stop, b: Stop) -> Result<(), AllocError>
        requires first { self.old.hosts ≡ [] }
        requires ports { IsPort self.old a × IsPort self.old b }
        requires a_free { list_any (stop_eq a) (used_ports self.old) ≡ false }
        requires b_free { list_any (stop_eq b) (used_ports self.old ++ a ∷ []) ≡ false }
        requires a_room { count_by (is_on a.switch) (used_ports self.old) < 64 }
        requires b_room { count_by (is_on b.switch) (used_ports self.old ++ a ∷ []) < 64 }
        ensures ok { OnOk result (self.new ≡ with_link self.old a b) }
        ensures err { OnErr result (self.new ≡ self.old) }
    {
        put_link(&mut self.ends, &mut self.links, a, b)?;
        Ok(())
    }

    /// Adds a host port, which isn't used. Where memory is wanting the network stays as it was.
    pub fn add_host(&mut self, stop: Stop) -> Result<(), AllocError>
        requires port { IsPort self.old stop }
        requires free { list_any (stop_eq stop) (used_ports self.old) ≡ false }
        requires room { count_by (is_on stop.switch) (used_ports self.old) < 64 }
        ensures ok { OnOk result (self.new ≡ with_host self.old stop) }
        ensures err { OnErr result (self.new ≡ self.old) }
    {
        put_host(&mut self.ends, &mut self.hosts, stop)?;
        Ok(())
    }

    /// Adds a VLAN that isn't declared yet. Where memory is wanting the network stays as it was.
    pub fn add_vlan(&mut self, vlan: Vlan) -> Result<(), AllocError>
        requires room { length self.old.vlans < 64 }
        requires form { IsVlan vlan }
        requires new { list_any (vlan_eq vlan) self.old.vlans ≡ false }
        ensures ok { OnOk result (self.new ≡ with_vlan self.old vlan) }
        ensures err { OnErr result (self.new ≡ self.old) }
    {
        self.vlans.push(vlan)?;
        Ok(())
    }

    /// Takes this tag range, the first and the last id, or none, in place of the one before.
    pub fn set_tags(&mut self, tags: Option<(u16, u16)>)
        requires { IfSome tags (λ t. IsVlanId t.0 × IsVlanId t.1 × (t.0 ≤ t.1)) }
        ensures { self.new ≡ with_tags self.old
            (option_map (λ t. record { first = t.0; last = t.1 }) tags) }
    {
        self.tags = tags;
    }
}
