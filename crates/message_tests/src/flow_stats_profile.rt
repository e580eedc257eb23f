//! Entries with a field outside the profile.
use crate::flow_stats_tests::{ENTRY, EntryText, alone, refusal};
use flow_stats::StatsField::{Actions, DlType, InPort, Priority, Timeouts, Vlan, Wildcards};
use flow_stats::{StatsFault, StatsField};

/// Entries with a field outside the profile, and the field.
const OUTSIDE: &[(EntryText<'static>, StatsField)] = &[
    // The frame type is a wildcard; a field is exact, each in turn; 31 bits of the source are ignored.
    (
        EntryText {
            wildcards: "003220ff",
            ..ENTRY
        },
        Wildcards,
    ),
    (
        EntryText {
            wildcards: "003220eb",
            ..ENTRY
        },
        Wildcards,
    ),
    (
        EntryText {
            wildcards: "003220e7",
            ..ENTRY
        },
        Wildcards,
    ),
    (
        EntryText {
            wildcards: "002220ef",
            ..ENTRY
        },
        Wildcards,
    ),
    (
        EntryText {
            wildcards: "001220ef",
            ..ENTRY
        },
        Wildcards,
    ),
    (
        EntryText {
            wildcards: "003220cf",
            ..ENTRY
        },
        Wildcards,
    ),
    (
        EntryText {
            wildcards: "003220af",
            ..ENTRY
        },
        Wildcards,
    ),
    (
        EntryText {
            wildcards: "0032206f",
            ..ENTRY
        },
        Wildcards,
    ),
    (
        EntryText {
            wildcards: "00321fef",
            ..ENTRY
        },
        Wildcards,
    ),
    // An untagged packet with an exact VLAN priority, as Open vSwitch reports it.
    (
        EntryText {
            wildcards: "002220ec",
            in_port: "0001",
            dl_vlan: "ffff",
            ..ENTRY
        },
        Wildcards,
    ),
    (
        EntryText {
            wildcards: "003220ee",
            in_port: "0000",
            ..ENTRY
        },
        InPort,
    ),
    (
        EntryText {
            wildcards: "003220ee",
            in_port: "ff00",
            ..ENTRY
        },
        InPort,
    ),
    (
        EntryText {
            wildcards: "003220ed",
            dl_vlan: "0000",
            ..ENTRY
        },
        Vlan,
    ),
    (
        EntryText {
            wildcards: "003220ed",
            dl_vlan: "0fff",
            ..ENTRY
        },
        Vlan,
    ),
    (
        EntryText {
            wildcards: "003220ed",
            dl_vlan: "fffe",
            ..ENTRY
        },
        Vlan,
    ),
    (
        EntryText {
            dl_type: "0806",
            ..ENTRY
        },
        DlType,
    ),
    (
        EntryText {
            priority: "0000",
            ..ENTRY
        },
        Priority,
    ),
    (
        EntryText {
            priority: "4000",
            ..ENTRY
        },
        Priority,
    ),
    (
        EntryText {
            timeouts: "00010000",
            ..ENTRY
        },
        Timeouts,
    ),
    (
        EntryText {
            timeouts: "00000001",
            ..ENTRY
        },
        Timeouts,
    ),
    (
        EntryText {
            actions: "0001000800020000",
            ..ENTRY
        },
        Actions,
    ),
    (
        EntryText {
            actions: "0000001000020000",
            ..ENTRY
        },
        Actions,
    ),
    (
        EntryText {
            actions: "0000000800000000",
            ..ENTRY
        },
        Actions,
    ),
    (
        EntryText {
            actions: "00000008fffd0000",
            ..ENTRY
        },
        Actions,
    ),
    // Two fields are outside: the first is named.
    (
        EntryText {
            dl_type: "0806",
            priority: "0000",
            timeouts: "00010000",
            ..ENTRY
        },
        DlType,
    ),
];

#[test]
fn the_first_field_outside_the_profile_is_named(rt: HostRuntime) {
    let alloc = rt.alloc();
    for (entry, field) in OUTSIDE {
        let lines = alone(&rt, alloc, entry);
        let fault = StatsFault::Profile(0, *field);
        assert!(rt;
            refusal(&rt, alloc, lines.as_bytes()) == Some(fault),
            "{lines}"
        );
    }
}
