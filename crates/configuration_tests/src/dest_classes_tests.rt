//! Atoms of lists of prefixes: where each begins, the atom of an address, and the atoms of a prefix.
ghost use Rattle.std.specs.Prelude.{◌≡◌};

use dest_classes::{AtomRange, Atoms, ClassMap, class_map};
use net_base::{Prefix, read_prefix};
use std::alloc::Global;
use std::process::Abort;
use topology_files::read_net;

/// Prefixes, the first addresses of their atoms, and the atoms of other addresses.
#[derive(Clone, Copy)]
struct Row {
    prefixes: &'static [&'static str],
    firsts: &'static [u32],
    inside: &'static [(u32, usize)],
}

const ROWS: [Row; 3] = [
    // The whole range and its last address: the last atom has no upper neighbour.
    Row {
        prefixes: &["0.0.0.0/0", "255.255.255.255/32"],
        firsts: &[0, 4294967295],
        inside: &[(4294967294, 0)],
    },
    // Nested, repeated and neighbouring prefixes share their boundaries.
    Row {
        prefixes: &["10.1.0.0/16", "10.0.0.0/8", "10.0.0.0/16", "10.1.0.0/16"],
        firsts: &[0, 167772160, 167837696, 167903232, 184549376],
        inside: &[(167837695, 1)],
    },
    // No prefix makes one atom.
    Row {
        prefixes: &[],
        firsts: &[0],
        inside: &[(4294967295, 0)],
    },
];

fn prefixes_of(rt: &impl Abort, alloc: Global, texts: &[&str]) -> Vec<Prefix> {
    let mut prefixes = Vec::new(alloc);
    for text in texts {
        let prefix = read_prefix(text).ok().expect(rt, "a prefix");
        prefixes.push(prefix).expect(rt, "memory");
    }
    prefixes
}

fn atoms_of(rt: &impl Abort, alloc: Global, texts: &[&str]) -> Atoms {
    let prefixes = prefixes_of(rt, alloc, texts);
    Atoms::of_prefixes(alloc, prefixes.as_slice()).expect(rt, "memory")
}

fn begins_at(rt: &impl Abort, atoms: &Atoms, i: usize, first: u32) {
    assert!(rt; i < atoms.count());
    assert!(rt; atoms.first(i) == first, "at {i}");
}

fn is_in(rt: &impl Abort, atoms: &Atoms, address: u32, i: usize) {
    assert!(rt; atoms.index_of(address) == i, "at {i}");
}

fn has_firsts(rt: &impl Abort, atoms: &Atoms, firsts: &[u32]) {
    assert!(rt; atoms.count() == firsts.len());
    for (i, first) in firsts.iter().enumerate() {
        begins_at(rt, atoms, i, *first);
        is_in(rt, atoms, *first, i);
    }
}

#[test]
fn an_atom_begins_at_each_boundary(rt: HostRuntime) {
    for row in ROWS {
        let atoms = atoms_of(&rt, rt.alloc(), row.prefixes);
        has_firsts(&rt, &atoms, row.firsts);
        for (address, i) in row.inside {
            is_in(&rt, &atoms, *address, *i);
        }
    }
}

/// Prefixes, how many atoms their map has, and for each prefix the first atom in it and the one after the last.
#[derive(Clone, Copy)]
struct Touching {
    prefixes: &'static [&'static str],
    atoms: u32,
    touched: &'static [(u32, u32)],
}

const TOUCHING: [Touching; 4] = [
    Touching {
        prefixes: &["10.0.0.0/24"],
        atoms: 3,
        touched: &[(1, 2)],
    },
    // Boundaries 0.0.0.0, 10.0.0.0, 10.0.1.0 and 11.0.0.0.
    Touching {
        prefixes: &["10.0.0.0/8", "10.0.0.0/24"],
        atoms: 4,
        touched: &[(1, 3), (1, 2)],
    },
    // Boundaries 0.0.0.0, 9.255.255.255, 10.0.0.0, 10.255.255.255 and 11.0.0.0: prefixes of one address before another and at its end.
    Touching {
        prefixes: &["9.255.255.255/32", "10.0.0.0/8", "10.255.255.255/32"],
        atoms: 5,
        touched: &[(1, 2), (2, 4), (3, 4)],
    },
    // The last address has no boundary after it.
    Touching {
        prefixes: &["0.0.0.0/0", "128.0.0.0/1", "255.255.255.255/32"],
        atoms: 3,
        touched: &[(0, 3), (1, 3), (2, 3)],
    },
];

const NET: &str =
    r#"{"switches":[{"name":"a","capacity":10}],"links":[],"hosts":["a:1","a:2"],"vlans":["untagged",10],"tags":[]}"#;

/// The prefix at a place of a map's list touches the atoms from one up to another.
fn touches(rt: &impl Abort, map: &ClassMap, prefixes: &[Prefix], i: usize, from: u32, to: u32)
    requires { map.now.prefixes ≡ prefixes.now }
{
    assert!(rt; map.count() > 0);
    assert!(rt; i < prefixes.len());
    assert!(rt;
        map.touched(prefixes[i]) == AtomRange { from, to },
        "at {i}"
    );
}

fn touch_in_turn(rt: &impl Abort, map: &ClassMap, prefixes: &[Prefix], touched: &[(u32, u32)])
    requires { map.now.prefixes ≡ prefixes.now }
{
    assert!(rt; touched.len() == prefixes.len());
    for (i, (from, to)) in touched.iter().enumerate() {
        touches(rt, map, prefixes, i, *from, *to);
    }
}

#[test]
fn a_prefix_touches_the_atoms_in_it(rt: HostRuntime) {
    let net = read_net(rt.alloc(), NET.as_bytes()).expect(&rt, "a network");
    for row in TOUCHING {
        let prefixes = prefixes_of(&rt, rt.alloc(), row.prefixes);
        let map = class_map(rt.alloc(), &net, prefixes.as_slice()).expect(&rt, "classes");
        assert!(rt; map.count() > 0);
        assert!(rt; map.atoms() == row.atoms);
        assert!(rt; map.count() / map.atoms() == 4);
        touch_in_turn(&rt, &map, prefixes.as_slice(), row.touched);
    }
}
