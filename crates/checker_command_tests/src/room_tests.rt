//! One room for two checks. Each step owns one value, so that its proof is short.
ghost use Rattle.flow_rules.specs.Tables.{rules_of_all};
ghost use Rattle.path_walk.specs.UserConfigs.{IsUserConfig};
ghost use Rattle.certificates.specs.Valid.{IsValidPlan};

use crate::answers::held;
use certificates::Plan;
use command_base::{UpdateFiles, read_plan_file, read_update};
use example_files::{square, update_names};
use plan_checker::{CheckRoom, Verdict, check};
use std::alloc::Global;
use std::process::Abort;

/// The verdicts of two checks in one room.
fn checked_twice(
    rt: &impl Abort,
    alloc: Global,
    files: &UpdateFiles,
    plan: &Plan,
) -> (Verdict, Verdict)
    requires old { IsUserConfig files.now.net (rules_of_all files.now.old) }
    requires new { IsUserConfig files.now.net (rules_of_all files.now.new) }
    requires valid { IsValidPlan files.now.net plan.now }
{
    let UpdateFiles {
        net,
        old,
        new,
        demands,
    } = files;
    let Ok(mut room) = CheckRoom::make(alloc, net, old, new, demands, plan) else {
        panic!(rt; "a room");
    };
    let first = check(net, old, new, demands, plan, &mut room);
    let second = check(net, old, new, demands, plan, &mut room);
    (first, second)
}

/// The verdicts on the plan of the square.
fn verdicts(rt: &impl Abort, alloc: Global) -> (Verdict, Verdict) {
    let mut source = held(rt, alloc, &square::update(), square::plan(), 0);
    let Ok(files) = read_update(alloc, &mut source, &update_names()) else {
        panic!(rt; "an update");
    };
    let Ok(plan) = read_plan_file(alloc, &mut source, &files.net, "plan") else {
        panic!(rt; "a plan");
    };
    checked_twice(rt, alloc, &files, &plan)
}

#[test]
fn a_room_serves_twice(rt: HostRuntime) {
    let (first, second) = verdicts(&rt, rt.alloc());
    assert!(rt; matches!(first, Verdict::Accepted));
    assert!(rt; matches!(second, Verdict::Accepted));
}
