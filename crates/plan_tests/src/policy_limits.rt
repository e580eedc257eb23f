//! How many demands a policy may have, and how many waypoints a demand.
use crate::texts::{pair, repeated};
use demands::{DemandFault, read_demands};
use net_base::Field;

#[test]
fn a_policy_has_at_most_512_demands(rt: HostRuntime) {
    let alloc = rt.alloc();
    let net = pair(&rt, alloc);
    for (count, fault) in [
        (512, None),
        (513, Some(DemandFault::TooMany(Field::Demands, 512))),
    ] {
        let list = repeated(&rt, alloc, "{\"dst\":\"10.0.0.0/24\"}", count);
        let text = format!(in alloc; "{{\"demands\":[{list}]}}").expect(&rt, "memory");
        assert_eq!(rt;
            read_demands(alloc, &net, text.as_bytes()).err(),
            fault,
            "{count}"
        );
    }
}

#[test]
fn a_demand_has_at_most_16_waypoints(rt: HostRuntime) {
    let alloc = rt.alloc();
    let net = pair(&rt, alloc);
    for (count, fault) in [
        (16, None),
        (17, Some(DemandFault::TooMany(Field::Through, 0))),
    ] {
        let list = repeated(&rt, alloc, "\"b\"", count);
        let text = format!(in alloc;
            "{{\"demands\":[{{\"dst\":\"10.0.0.0/24\",\"through\":[{list}]}}]}}"
        );
        let text = text.expect(&rt, "memory");
        assert_eq!(rt;
            read_demands(alloc, &net, text.as_bytes()).err(),
            fault,
            "{count}"
        );
    }
}
