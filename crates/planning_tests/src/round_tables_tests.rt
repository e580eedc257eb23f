//! A test of changes that are tried on the tables of two switches.
ghost use Rattle.round_tables.specs.Trials.{IsBetweenTrials};

use crate::empty_tables::no_rules;
use flow_rules::{Action, Config, Key, Pattern, Rewrite, Rule, VlanTest};
use net_base::{Port, Prefix, SwitchId};
use round_tables::PreparedTables;
use std::alloc::Global;
use std::process::Abort;
use topology::Net;
use topology_files::read_net;
use update_model::{Change, applies};

/// Two switches with a link, each with a host. The first has room for two entries.
const PAIR: &[u8] =
    b"{\"switches\":[{\"name\":\"s1\",\"capacity\":2},{\"name\":\"s2\",\"capacity\":8}],\"links\":[[\"s1:2\",\"s2:2\"]],\"hosts\":[\"s1:1\",\"s2:1\"],\"vlans\":[\"untagged\"],\"tags\":[3000,3009]}";

const FIRST: SwitchId = SwitchId(0);

const SECOND: SwitchId = SwitchId(1);

/// A rule for the addresses from 10.0.0.0 to 10.0.0.255.
fn rule(priority: u16, vlan: VlanTest, port: u16) -> Rule {
    let pattern = Pattern {
        in_port: None,
        vlan,
        dst: Prefix {
            base: 0x0a00_0000,
            len: 24,
        },
    };
    Rule {
        key: Key { priority, pattern },
        action: Action::Out(Port(port), Rewrite::Keep),
    }
}

/// The first rule that is made.
fn top() -> Rule {
    rule(100, VlanTest::Any, 2)
}

/// A rule of the same priority for some of the same packets.
fn clash() -> Rule {
    rule(100, VlanTest::Untagged, 1)
}

/// A rule of a lower priority.
fn middle() -> Rule {
    rule(50, VlanTest::Any, 1)
}

/// A rule of a still lower priority.
fn low() -> Rule {
    rule(40, VlanTest::Any, 2)
}

/// The first rule with another port.
fn turned() -> Rule {
    rule(100, VlanTest::Any, 1)
}

/// Whether a change may be made. Then it is made, or given up.
fn tries(
    rt: &impl Abort,
    alloc: Global,
    trial: &mut PreparedTables,
    net: &Net,
    change: &Change,
    is_kept: bool,
) -> bool
    requires { IsBetweenTrials net.now trial.old }
    ensures { IsBetweenTrials net.now trial.new }
{
    if !applies(trial.tables(), change) || !trial.begin(alloc, net, change).expect(rt, "room") {
        return false;
    }
    if is_kept {
        trial.keep(net, change).expect(rt, "room");
    } else {
        trial.give_up(net, change);
    }
    true
}

/// The position of the first change of which it is wrong whether it may be made. All before it are made, or given up.
fn first_wrong(
    rt: &impl Abort,
    alloc: Global,
    trial: &mut PreparedTables,
    net: &Net,
    steps: &[(Change, bool, bool)],
) -> Option<usize>
    requires { IsBetweenTrials net.now trial.old }
{
    for (i, (change, is_kept, want)) in steps.iter().enumerate() {
        if tries(rt, alloc, trial, net, change, *is_kept) != *want {
            return Some(i);
        }
    }
    None
}

/// Changes, whether each is kept where it may be made, and whether it may.
fn steps() -> [(Change, bool, bool); 9] {
    [
        (Change::Insert(FIRST, top()), false, true),
        (Change::Insert(FIRST, top()), true, true),
        (Change::Insert(FIRST, clash()), true, false),
        (Change::Insert(FIRST, middle()), true, true),
        (Change::Insert(FIRST, low()), true, false),
        (Change::Replace(FIRST, turned()), true, true),
        (Change::Delete(FIRST, middle()), true, true),
        (Change::Insert(FIRST, low()), true, true),
        (Change::Insert(SECOND, clash()), true, true),
    ]
}

/// The rules that the steps leave.
fn has_rules(rt: &impl Abort, tables: &Config) {
    assert!(rt; tables.count() == 2);
    assert!(rt; tables.table(FIRST).rules() == [turned(), low()].as_slice());
    assert!(rt; tables.table(SECOND).rules() == [clash()].as_slice());
}

#[test]
fn a_change_is_made_only_where_it_is_clear_and_has_room(rt: HostRuntime) {
    let net = read_net(rt.alloc(), PAIR).expect(&rt, "a network");
    let config = no_rules(rt.alloc(), &net).expect(&rt, "tables");
    let mut trial = PreparedTables::for_trials(rt.alloc(), &net, &config).expect(
        &rt,
        "trial tables",
    );
    assert_eq!(rt;
        first_wrong(&rt, rt.alloc(), &mut trial, &net, &steps()),
        None
    );
    assert!(rt; trial.mixes().len() == 2);
    has_rules(&rt, trial.tables());
}
