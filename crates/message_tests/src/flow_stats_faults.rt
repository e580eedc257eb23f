//! What is printed of each refusal: its number, its words and its place.
use flow_stats::{StatsFault, StatsField};
use net_base::SwitchId;
use std::alloc::Global;
use std::process::Abort;

/// A refusal as it stands in a line on a bad file.
fn line_of(rt: &impl Abort, alloc: Global, fault: StatsFault) -> String {
    let (number, name, place) = (fault.number(), fault.name(), fault.place());
    let text = format!(in alloc; "{number} {name} at {place}");
    text.expect(rt, "memory")
}

#[test]
fn each_refusal_has_its_words(rt: HostRuntime) {
    for (fault, line) in [
        (StatsFault::BadLine(7), "1 BadLine at 7"),
        (StatsFault::BadMessage(7), "2 BadMessage at 7"),
        (StatsFault::Incomplete(SwitchId(7)), "3 Incomplete at 7"),
        (StatsFault::KeyTwice(7), "5 KeyTwice at 7"),
        (StatsFault::Overlap(7), "6 Overlap at 7"),
        (StatsFault::BadPort(7), "7 BadPort at 7"),
        (StatsFault::ReservedVlan(7), "8 ReservedVlan at 7"),
        (StatsFault::OverCapacity(SwitchId(7)), "9 OverCapacity at 7"),
        (StatsFault::TooMany, "10 TooMany at 0"),
        (StatsFault::Memory, "0 Memory at 0"),
    ] {
        assert_eq!(rt; line_of(&rt, rt.alloc(), fault).as_str(), line);
    }
}

#[test]
fn a_field_outside_the_profile_is_named(rt: HostRuntime) {
    for (field, line) in [
        (StatsField::Wildcards, "4 Profile Wildcards at 7"),
        (StatsField::InPort, "4 Profile InPort at 7"),
        (StatsField::Vlan, "4 Profile Vlan at 7"),
        (StatsField::DlType, "4 Profile DlType at 7"),
        (StatsField::Priority, "4 Profile Priority at 7"),
        (StatsField::Timeouts, "4 Profile Timeouts at 7"),
        (StatsField::Actions, "4 Profile Actions at 7"),
    ] {
        let fault = StatsFault::Profile(7, field);
        assert_eq!(rt; line_of(&rt, rt.alloc(), fault).as_str(), line);
    }
}
