//! The needs and the plan between configurations without rules, why there is no plan, and the rounds of the plan by depth.
ghost use Rattle.flow_rules.specs.Tables.{rules_of_all};
ghost use Rattle.path_walk.specs.UserConfigs.{IsUserConfig};

use crate::empty_tables::no_rules;
use certificates::{Evidence, Plan, TwoPhaseEvidence};
use config_files::read_config;
use flow_rules::Config;
use net_base::SwitchId;
use std::process::Abort;
use topology::Net;
use topology_files::read_net;
use two_phase::{TwoFault, need, two_phase, two_phase_by_depth};
use update_model::Rounds;

const ROOMY: &str =
    "[{\"name\":\"a\",\"capacity\":4},{\"name\":\"b\",\"capacity\":4},{\"name\":\"c\",\"capacity\":4}]";

const SMALL: &str =
    "[{\"name\":\"a\",\"capacity\":4},{\"name\":\"b\",\"capacity\":1},{\"name\":\"c\",\"capacity\":2}]";

/// Three switches, with two host ports, none and one, and two declared VLANs.
fn net_with(rt: &(impl Abort + AllocGlobal), switches: &str, tags: &str) -> Net {
    let before =
        "{\"links\":[],\"hosts\":[\"a:1\",\"a:2\",\"c:1\"],\"vlans\":[\"untagged\",10],\"switches\":";
    let text = format!(in rt.alloc(); "{before}{switches},\"tags\":{tags}}}").expect(rt, "a text");
    read_net(rt.alloc(), text.as_bytes()).expect(rt, "a network")
}

/// The plan from no rules to no rules.
fn plan_for(rt: &(impl Abort + AllocGlobal), net: &Net) -> Result<Plan, TwoFault> {
    let old = no_rules(rt.alloc(), net).expect(rt, "tables");
    let new = no_rules(rt.alloc(), net).expect(rt, "tables");
    let tried = Rounds::make(rt.alloc()).expect(rt, "rounds");
    two_phase(rt.alloc(), net, &old, &new, &tried)
}

/// How many entries a switch needs from no rules to no rules.
fn need_at(rt: &(impl Abort + AllocGlobal), net: &Net, switch: u32) -> u64 {
    let old = no_rules(rt.alloc(), net).expect(rt, "tables");
    let new = no_rules(rt.alloc(), net).expect(rt, "tables");
    assert!(rt; switch < net.switches());
    need(net, &old, &new, SwitchId(switch))
}

/// One entry for each tag, and one for each host port.
#[test]
fn needs_the_defaults(rt: HostRuntime) {
    let net = net_with(&rt, ROOMY, "[3000,3009]");
    assert!(rt; net.switches() == 3);
    for (switch, want) in [(0, 4), (1, 2), (2, 3)] {
        assert!(rt; need_at(&rt, &net, switch) == want, "{switch}");
    }
}

/// Two label tables of four labels each, the second from round 3 on.
fn has_two_tables(rt: &impl Abort, evidence: &TwoPhaseEvidence) {
    let tables = evidence.labels.list();
    assert!(rt; tables.len() == 2);
    assert!(rt; tables[1].list().len() == 4);
    let picks = evidence.picks.list();
    assert!(rt; picks.len() == 2);
    assert!(rt; picks[1].round == 3);
}

/// Six rounds: the defaults of tags come first and go last, those of host ports within them.
fn has_six_rounds(rt: &impl Abort, rounds: &Rounds) {
    assert!(rt; rounds.count() == 6);
    assert!(rt; rounds.round(0).len() == 6);
    assert!(rt; rounds.round(1).len() == 3);
    assert!(rt; rounds.round(5).len() == 6);
}

fn has_counts(rt: &impl Abort, plan: &Plan) {
    has_six_rounds(rt, &plan.rounds);
    match &plan.evidence {
        Evidence::Ordered(_) => assert!(rt; false, "ordered"),
        Evidence::TwoPhase(evidence) => has_two_tables(rt, evidence),
    }
}

#[test]
fn lays_the_defaults_and_takes_them_out_again(rt: HostRuntime) {
    let net = net_with(&rt, ROOMY, "[3000,3009]");
    let plan = plan_for(&rt, &net).expect(&rt, "a plan");
    has_counts(&rt, &plan);
}

fn has_no_plan(rt: &(impl Abort + AllocGlobal), tags: &str, want: TwoFault) {
    let net = net_with(rt, SMALL, tags);
    let fault = plan_for(rt, &net).err();
    assert!(rt; fault == Some(want), "{tags}");
}

/// Too few tags are told before switches that are too small, of which the first is named.
#[test]
fn tells_why_there_is_no_plan(rt: HostRuntime) {
    has_no_plan(&rt, "[3000,3000]", TwoFault::TooFewTags { need: 2, has: 1 });
    let small = TwoFault::TooSmall {
        switch: SwitchId(1),
        need: 2,
        capacity: 1,
    };
    has_no_plan(&rt, "[3000,3009]", small);
}

/// A switch with two host ports, and two declared VLANs.
const SINGLE: &[u8] =
    b"{\"switches\":[{\"name\":\"a\",\"capacity\":100}],\"links\":[],\"hosts\":[\"a:1\",\"a:2\"],\"vlans\":[\"untagged\",10],\"tags\":[3000,3009]}";

/// The tables that the rules of a file describe.
fn tables_of(rt: &(impl Abort + AllocGlobal), net: &Net, rules: &str) -> Config
    ensures { IsUserConfig net.now (rules_of_all result) }
{
    let text = format!(in rt.alloc(); "{{\"rules\":[{rules}]}}").expect(rt, "a text");
    read_config(rt.alloc(), net, text.as_bytes()).expect(rt, "a configuration")
}

/// The plan by depth from no rules to these.
fn plan_by_depth(rt: &(impl Abort + AllocGlobal), net: &Net, rules: &str) -> Plan {
    let old = no_rules(rt.alloc(), net).expect(rt, "tables");
    let new = tables_of(rt, net, rules);
    let tried = Rounds::make(rt.alloc()).expect(rt, "rounds");
    two_phase_by_depth(rt.alloc(), net, &old, &new, &tried).expect(rt, "a plan")
}

/// The rounds have so many changes each.
fn has_sizes(rt: &impl Abort, rounds: &Rounds, rules: &str, sizes: &[usize]) {
    assert!(rt; rounds.count() == sizes.len(), "{rules}");
    for (k, size) in sizes.iter().enumerate() {
        assert!(rt; rounds.round(k).len() == *size, "{rules} {k}");
    }
}

/// Rules, and how many changes the rounds have: three prefixes in one another and a default have depths of their own, rules of
/// other prefixes, ports or VLANs share one, and the defaults of host ports lie below.
#[test]
fn rules_without_a_common_packet_share_a_round(rt: HostRuntime) {
    let rows: [(&str, &[usize]); 5] = [
        ("", &[2, 2, 0, 0, 2, 2]),
        (
            "{\"switch\":\"a\",\"priority\":30,\"dst\":\"10.0.0.0/24\",\"out\":1},{\"switch\":\"a\",\"priority\":20,\"dst\":\"10.0.0.0/16\",\"out\":2},{\"switch\":\"a\",\"priority\":10,\"dst\":\"10.0.0.0/8\",\"out\":1},{\"switch\":\"a\",\"priority\":1,\"dst\":\"0.0.0.0/0\",\"out\":2}",
            &[10, 4, 4, 4, 4, 2, 0, 4, 2, 4, 4, 4, 4, 10],
        ),
        (
            "{\"switch\":\"a\",\"priority\":20,\"in_port\":1,\"dst\":\"10.0.0.0/8\",\"out\":2},{\"switch\":\"a\",\"priority\":10,\"in_port\":2,\"dst\":\"10.0.0.0/8\",\"out\":1}",
            &[2, 4, 2, 0, 2, 2, 4, 2],
        ),
        (
            "{\"switch\":\"a\",\"priority\":30,\"dst\":\"10.0.0.0/24\",\"out\":1},{\"switch\":\"a\",\"priority\":20,\"dst\":\"10.0.1.0/24\",\"out\":1},{\"switch\":\"a\",\"priority\":10,\"dst\":\"10.0.2.0/24\",\"out\":1}",
            &[8, 12, 2, 0, 3, 2, 12, 8],
        ),
        (
            "{\"switch\":\"a\",\"priority\":20,\"vlan\":\"untagged\",\"dst\":\"10.0.0.0/8\",\"out\":1},{\"switch\":\"a\",\"priority\":10,\"vlan\":10,\"dst\":\"10.0.0.0/8\",\"out\":1}",
            &[4, 4, 2, 0, 2, 2, 4, 4],
        ),
    ];
    let net = read_net(rt.alloc(), SINGLE).expect(&rt, "a network");
    for (rules, sizes) in &rows {
        let plan = plan_by_depth(&rt, &net, rules);
        has_sizes(&rt, &plan.rounds, rules, sizes);
    }
}
