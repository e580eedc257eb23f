//! Walks in a ring of three switches, with a fourth one that has the host.
ghost use Rattle.std.specs.Prelude.{◌≡◌};
ghost use Rattle.topology.specs.Networks.{switch_count};

use flow_rules::{Action, Config, Key, Pattern, Rewrite, Rule, VlanTest};
use net_base::{Place, Port, Prefix, Stop, SwitchId, Vlan};
use path_walk::{PathEnd, PathRoom, walk};
use std::alloc::Global;
use std::process::Abort;
use topology::Net;
use topology_files::read_net;

const SWITCHES: &str =
    "{\"switches\":[{\"name\":\"h\",\"capacity\":8},{\"name\":\"a\",\"capacity\":8},\
{\"name\":\"b\",\"capacity\":8},{\"name\":\"c\",\"capacity\":8}],";

const LINKS: &str =
    "\"links\":[[\"a:2\",\"b:1\"],[\"b:2\",\"c:1\"],[\"c:2\",\"a:1\"],[\"h:2\",\"a:3\"]],";

const HOSTS: &str = "\"hosts\":[\"h:1\"],\"vlans\":[\"untagged\"],\"tags\":[3000,3009]}";

fn ring(rt: &impl Abort, alloc: Global) -> Net {
    let mut text = String::new(alloc);
    for part in [SWITCHES, LINKS, HOSTS] {
        text.push_str(part).expect(rt, "room");
    }
    read_net(alloc, text.as_bytes()).expect(rt, "a network")
}

/// Sends packets to 10.0.0.0/8 out of a port of a switch.
fn send_out(rt: &impl Abort, config: &mut Config, switch: u32, port: u16) {
    assert!(rt; (switch as usize) < config.count());
    let pattern = Pattern {
        in_port: None,
        vlan: VlanTest::Any,
        dst: Prefix {
            base: 0x0a00_0000,
            len: 8,
        },
    };
    let key = Key {
        priority: 100,
        pattern,
    };
    let action = Action::Out(Port(port), Rewrite::Keep);
    let table = config.table_mut(SwitchId(switch));
    table.reserve(1).expect(rt, "room");
    assert!(rt; !table.has_key(&key));
    table.insert(Rule { key, action });
}

/// The tables of switches that each send out of a port.
fn tables(rt: &impl Abort, alloc: Global, net: &Net, ports: &[(u32, u16)]) -> Config {
    let mut config = Config::make(alloc, net.switches()).expect(rt, "tables");
    for (switch, port) in ports {
        send_out(rt, &mut config, *switch, *port);
    }
    config
}

fn stop(switch: u32, port: u16) -> Stop {
    Stop {
        switch: SwitchId(switch),
        port: Port(port),
    }
}

/// A packet to 10.0.0.1 goes from the first stop over the others, and ends so.
fn goes(
    rt: &impl Abort,
    net: &Net,
    config: &Config,
    room: &mut PathRoom,
    stops: &[Stop],
    want: PathEnd,
)
    requires { room.old.switches ≡ switch_count net.now }
    ensures { room.new.switches ≡ switch_count net.now }
{
    let from = stops.first().expect(rt, "a stop");
    let entry = Place {
        switch: from.switch,
        port: from.port,
        vlan: Vlan::Untagged,
    };
    assert!(rt; entry.switch.0 < net.switches());
    assert!(rt; config.count() == net.switches() as usize);
    let end = walk(net, config, entry, 0x0a00_0001, room);
    assert!(rt; end == want);
    assert!(rt; room.stops() == stops);
}

#[test]
fn stops_where_it_comes_again_to_a_switch(rt: HostRuntime) {
    let net = ring(&rt, rt.alloc());
    let config = tables(&rt, rt.alloc(), &net, &[(0, 2), (1, 2), (2, 2), (3, 2)]);
    let mut room = PathRoom::make(rt.alloc(), &net).expect(&rt, "room");
    let stops = [stop(0, 1), stop(1, 3), stop(2, 1), stop(3, 1), stop(1, 1)];
    let end = PathEnd::Repeats(SwitchId(1));
    goes(&rt, &net, &config, &mut room, &stops, end);
}

#[test]
fn leaves_by_the_host_port_and_is_dropped_where_no_rule_covers(rt: HostRuntime) {
    let net = ring(&rt, rt.alloc());
    let config = tables(&rt, rt.alloc(), &net, &[(0, 1), (1, 3)]);
    let mut room = PathRoom::make(rt.alloc(), &net).expect(&rt, "room");
    let end = PathEnd::Left(SwitchId(0), Port(1));
    goes(
        &rt,
        &net,
        &config,
        &mut room,
        &[stop(1, 1), stop(0, 2)],
        end,
    );
    let end = PathEnd::Dropped(SwitchId(2));
    goes(&rt, &net, &config, &mut room, &[stop(2, 1)], end);
    // Nothing is sent back out of the port that it came in by.
    let end = PathEnd::Dropped(SwitchId(0));
    goes(&rt, &net, &config, &mut room, &[stop(0, 1)], end);
}
