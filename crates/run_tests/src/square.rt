//! A network of four switches, its tables, and an update of it in two rounds.
ghost use Rattle.std.specs.Prelude.{◌≡◌};

use flow_rules::{Action, Config, Key, Pattern, Rewrite, Rule, VlanTest};
use net_base::{Place, Port, Prefix, SwitchId, Vlan};
use std::alloc::Global;
use std::process::Abort;
use topology::Net;
use topology_files::read_net;
use update_model::{Change, Rounds, World, applies, change_tables};

/// Four switches in a line, and links from the first to the third and to the fourth. Each has a host.
const SQUARE: &[u8] =
    b"{\"switches\":[{\"name\":\"s1\",\"capacity\":8},{\"name\":\"s2\",\"capacity\":8},{\"name\":\"s3\",\"capacity\":8},{\"name\":\"s4\",\"capacity\":8}],\"links\":[[\"s1:2\",\"s2:1\"],[\"s2:2\",\"s3:1\"],[\"s3:2\",\"s4:1\"],[\"s1:3\",\"s3:3\"],[\"s1:4\",\"s4:2\"]],\"hosts\":[\"s1:1\",\"s2:3\",\"s3:4\",\"s4:3\"],\"vlans\":[\"untagged\"],\"tags\":[3000,3009]}";

/// The host of the first switch.
pub(crate) const FIRST_HOST: Place = Place {
    switch: SwitchId(0),
    port: Port(1),
    vlan: Vlan::Untagged,
};

pub(crate) fn network(rt: &impl Abort, alloc: Global) -> Net {
    read_net(alloc, SQUARE).expect(rt, "a network")
}

/// A rule of the priority for the addresses from 10.0.0.0 to 10.0.0.255, which sends out of the port.
pub(crate) fn rule(priority: u16, port: u16) -> Rule {
    let pattern = Pattern {
        in_port: None,
        vlan: VlanTest::Any,
        dst: Prefix {
            base: 0x0a00_0000,
            len: 24,
        },
    };
    Rule {
        key: Key { priority, pattern },
        action: Action::Out(Port(port), Rewrite::Keep),
    }
}

/// Adds such a rule of priority 100.
pub(crate) fn add_rule(rt: &impl Abort, config: &mut Config, switch: u32, port: u16) {
    let change = Change::Insert(SwitchId(switch), rule(100, port));
    assert!(rt; applies(config, &change));
    change_tables(config, &change).expect(rt, "room");
}

/// Each switch sends along the line, and the last to its host.
fn line(rt: &impl Abort, alloc: Global) -> Config {
    let mut config = Config::make(alloc, 4).expect(rt, "tables");
    for (switch, port) in [(0, 2), (1, 2), (2, 2), (3, 3)] {
        add_rule(rt, &mut config, switch, port);
    }
    config
}

/// Rounds of one change each.
pub(crate) fn rounds_of(rt: &impl Abort, alloc: Global, changes: &[Change]) -> Rounds {
    let mut rounds = Rounds::make(alloc).expect(rt, "rounds");
    for change in changes {
        rounds.add_round().expect(rt, "a round");
        assert!(rt; rounds.count() > 0);
        rounds.add_change(*change).expect(rt, "a change");
    }
    rounds
}

/// The first switch sends over its link to the fourth, and then the third to the first.
pub(crate) fn two_rounds(rt: &impl Abort, alloc: Global) -> Rounds {
    let first = Change::Replace(SwitchId(0), rule(100, 4));
    let second = Change::Replace(SwitchId(2), rule(100, 3));
    rounds_of(rt, alloc, &[first, second])
}

/// The world in the beginning.
pub(crate) fn begun<'a>(
    rt: &impl Abort,
    alloc: Global,
    net: &'a Net,
    rounds: &'a Rounds,
) -> World<'a>
    ensures { result.net ≡ net.now }
{
    let old = line(rt, alloc);
    assert!(rt; old.count() == net.switches() as usize);
    assert!(rt; rounds.count() <= 2);
    World::begin(alloc, net, &old, rounds).expect(rt, "a world")
}
