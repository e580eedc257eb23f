//! Chains of waypoints along a path.
ghost use Rattle.std.specs.Prelude.{◌≡◌, IfSome, IfNone};
ghost use Rattle.net_base.specs.Members.{IsSubsequence};
ghost use Rattle.demands.specs.Good.{switches_of};
ghost use Rattle.config_check.specs.Broken.{IsMetUpTo};

use net_base::{Stop, SwitchId};

/// The first waypoint of the chain that the stops don't visit after those before it.
pub(crate) fn missed_waypoint(chain: &[SwitchId], stops: &[Stop]) -> Option<SwitchId>
    ensures none { IfNone result (IsSubsequence chain.now (switches_of stops.now)) }
    ensures some { IfSome result (IsMetUpTo chain.now (switches_of stops.now)) }
{
    let mut met = 0;
    for stop in stops {
        if met < chain.len() && chain[met].0 == stop.switch.0 {
            met += 1;
        }
    }
    if met < chain.len() {
        Some(chain[met])
    } else {
        None
    }
}
