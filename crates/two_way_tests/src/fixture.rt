//! Two rounds over two switches, and those that take them back.
ghost use Rattle.std.specs.Prelude.{◌≡◌, ◌∷◌, []};
ghost use Rattle.topology.specs.Networks.{switch_count};
ghost use Rattle.two_way_driver.specs.Calls.{AreTurnable};
ghost use Rattle.two_way_tests.specs.Fixture.{rule_out, two_rounds, two_inverses};

use flow_rules::{Action, Key, Pattern, Rewrite, Rule, VlanTest};
use net_base::{Port, Prefix, SwitchId};
use std::alloc::Global;
use std::process::Abort;
use topology::Net;
use topology_files::read_net;
use update_model::{Change, Rounds};

/// Two switches with a link and a host each.
const NETWORK: &[u8] =
    b"{\"switches\":[{\"name\":\"s1\",\"capacity\":8},{\"name\":\"s2\",\"capacity\":8}],\"links\":[[\"s1:2\",\"s2:2\"]],\"hosts\":[\"s1:1\",\"s2:1\"],\"vlans\":[\"untagged\"],\"tags\":[3000,3009]}";

pub(crate) fn network(rt: &impl Abort, alloc: Global) -> Net
    ensures { switch_count result ≡ 2 }
{
    let net = read_net(alloc, NETWORK).expect(rt, "a network");
    assert!(rt; net.switches() == 2);
    net
}

/// The rule of priority 100 for the addresses from 10.0.0.0 to 10.0.0.255 that sends out of a port.
fn rule(port: u16) -> Rule
    ensures { result ≡ rule_out port }
{
    let pattern = Pattern {
        in_port: None,
        vlan: VlanTest::Any,
        dst: Prefix {
            base: 0x0a00_0000,
            len: 24,
        },
    };
    Rule {
        key: Key {
            priority: 100,
            pattern,
        },
        action: Action::Out(Port(port), Rewrite::Keep),
    }
}

/// A round of two changes, and one of one change.
fn rounds_of(rt: &impl Abort, alloc: Global, first: Change, second: Change, third: Change) -> Rounds
    ensures { result ≡ (first ∷ second ∷ []) ∷ (third ∷ []) ∷ [] }
{
    let mut rounds = Rounds::make(alloc).expect(rt, "memory");
    rounds
        .push_round(Vec::from_slice(alloc, &[first, second]).expect(rt, "memory"))
        .expect(rt, "memory");
    rounds
        .push_round(Vec::from_slice(alloc, &[third]).expect(rt, "memory"))
        .expect(rt, "memory");
    rounds
}

/// A rule comes to each switch; then that of the first sends back.
pub(crate) fn two_rounds(rt: &impl Abort, alloc: Global) -> Rounds
    ensures { result ≡ two_rounds }
{
    let first = Change::Insert(SwitchId(0), rule(2));
    let second = Change::Insert(SwitchId(1), rule(1));
    rounds_of(
        rt,
        alloc,
        first,
        second,
        Change::Replace(SwitchId(0), rule(1)),
    )
}

/// The rounds that take these back, spelled by hand.
pub(crate) fn two_inverses(rt: &impl Abort, alloc: Global) -> Rounds
    ensures { result ≡ two_inverses }
{
    let first = Change::Delete(SwitchId(1), rule(1));
    let second = Change::Delete(SwitchId(0), rule(2));
    rounds_of(
        rt,
        alloc,
        first,
        second,
        Change::Replace(SwitchId(0), rule(2)),
    )
}
