//! The plan of two phases of the detour as a file of format 1: written in format 2, checked as it stands and as it was
//! written, and written again.
use crate::answers::{checked, held};
use command_base::Status;
use example_files::{Answer, answer_of, detour, detour_plans, plan_names};
use std::alloc::Global;
use std::process::Abort;
use upgrade_command::upgrade;

const IN_FORMAT_1: &[u8] =
    br#"{"format":1,"kind":"two-phase","labels":[[["untagged","old","untagged"],[3000,"new","untagged"]],[["untagged","new","untagged"],[3000,"new","untagged"]]],"picks":[[1,0],[4,1]],"rounds":[[{"do":"insert","dst":"10.0.0.0/24","out":3,"priority":16484,"switch":"s","vlan":3000},{"do":"insert","dst":"0.0.0.0/0","out":"drop","priority":16384,"switch":"s","vlan":3000},{"do":"insert","dst":"10.0.0.0/24","out":3,"priority":16484,"switch":"x","vlan":3000},{"do":"insert","dst":"0.0.0.0/0","out":"drop","priority":16384,"switch":"x","vlan":3000},{"do":"insert","dst":"10.0.0.0/24","out":1,"priority":16484,"switch":"w","vlan":3000},{"do":"insert","dst":"0.0.0.0/0","out":"drop","priority":16384,"switch":"w","vlan":3000},{"do":"insert","dst":"10.0.0.0/24","out":1,"priority":16484,"switch":"y","vlan":3000},{"do":"insert","dst":"0.0.0.0/0","out":"drop","priority":16384,"switch":"y","vlan":3000},{"do":"insert","dst":"10.0.0.0/24","out":3,"priority":16484,"strip":true,"switch":"d","vlan":3000},{"do":"insert","dst":"0.0.0.0/0","out":"drop","priority":16384,"switch":"d","vlan":3000}],[{"do":"insert","dst":"10.0.0.0/24","in_port":1,"out":3,"priority":32868,"set":3000,"switch":"s","vlan":"untagged"},{"do":"insert","dst":"10.0.0.0/24","in_port":3,"out":3,"priority":32868,"switch":"d","vlan":"untagged"}],[{"do":"insert","dst":"0.0.0.0/0","in_port":1,"out":"drop","priority":32768,"switch":"s"},{"do":"insert","dst":"0.0.0.0/0","in_port":3,"out":"drop","priority":32768,"switch":"d"}],[{"do":"replace","dst":"10.0.0.0/24","out":3,"priority":100,"switch":"s"},{"do":"replace","dst":"10.0.0.0/24","out":3,"priority":100,"switch":"x"},{"do":"replace","dst":"10.0.0.0/24","out":1,"priority":100,"switch":"w"},{"do":"replace","dst":"10.0.0.0/24","out":1,"priority":100,"switch":"y"}],[],[{"do":"delete","dst":"0.0.0.0/0","in_port":1,"out":"drop","priority":32768,"switch":"s"},{"do":"delete","dst":"0.0.0.0/0","in_port":3,"out":"drop","priority":32768,"switch":"d"}],[{"do":"delete","dst":"10.0.0.0/24","in_port":1,"out":3,"priority":32868,"set":3000,"switch":"s","vlan":"untagged"},{"do":"delete","dst":"10.0.0.0/24","in_port":3,"out":3,"priority":32868,"switch":"d","vlan":"untagged"}],[{"do":"delete","dst":"10.0.0.0/24","out":3,"priority":16484,"switch":"s","vlan":3000},{"do":"delete","dst":"0.0.0.0/0","out":"drop","priority":16384,"switch":"s","vlan":3000},{"do":"delete","dst":"10.0.0.0/24","out":3,"priority":16484,"switch":"x","vlan":3000},{"do":"delete","dst":"0.0.0.0/0","out":"drop","priority":16384,"switch":"x","vlan":3000},{"do":"delete","dst":"10.0.0.0/24","out":1,"priority":16484,"switch":"w","vlan":3000},{"do":"delete","dst":"0.0.0.0/0","out":"drop","priority":16384,"switch":"w","vlan":3000},{"do":"delete","dst":"10.0.0.0/24","out":1,"priority":16484,"switch":"y","vlan":3000},{"do":"delete","dst":"0.0.0.0/0","out":"drop","priority":16384,"switch":"y","vlan":3000},{"do":"delete","dst":"10.0.0.0/24","out":3,"priority":16484,"strip":true,"switch":"d","vlan":3000},{"do":"delete","dst":"0.0.0.0/0","out":"drop","priority":16384,"switch":"d","vlan":3000}]],"tried":[]}"#;

/// What `upgrade` answers to the plan.
fn written(rt: &impl Abort, alloc: Global, plan: &[u8]) -> Answer {
    let mut source = held(rt, alloc, &detour::update(), plan, 0);
    answer_of(alloc, upgrade(alloc, &mut source, &plan_names()))
}

/// `check` accepts the plan.
fn is_accepted(rt: &impl Abort, alloc: Global, plan: &[u8]) {
    let answer = checked(rt, alloc, &detour::update(), plan, 0);
    let line = b"accepted: two-phase, 8 rounds, 6 classes\n";
    assert!(rt; answer.is(Status::Done, line));
}

#[test]
fn a_plan_of_format_1_is_written_in_format_2_and_stays_accepted(rt: HostRuntime) {
    let alloc = rt.alloc();
    let first = written(&rt, alloc, IN_FORMAT_1);
    assert!(rt; first.is(Status::Done, detour_plans::two_phases()));
    is_accepted(&rt, alloc, IN_FORMAT_1);
    is_accepted(&rt, alloc, &first.text);
    let again = written(&rt, alloc, &first.text);
    assert!(rt; again.is(Status::Done, &first.text));
}
