//! The walk along a path.
ghost use Rattle.std.specs.Prelude.{◌≡◌, ◌<◌, length, map};
ghost use Rattle.net_base.specs.Places.{stop_of};
ghost use Rattle.topology.specs.Networks.{switch_count};
ghost use Rattle.flow_rules.specs.Tables.{rules_of_all};
ghost use Rattle.path_walk.specs.Walked.{IsFollowed, PathEndsAs, WalksTo};

use crate::following::outcome;
use crate::{Outcome, PathEnd, PathRoom, PlacesEnd};
use flow_rules::Config;
use net_base::Place;
use topology::Net;

/// Follows the path of an entry and an address, up to where it ends or comes again to a switch. The room then holds the
/// places, the one at the switch that was visited before included. Takes time by the length of the path.
pub fn follow(net: &Net, config: &Config, entry: Place, dst: u32, room: &mut PathRoom) -> PlacesEnd
    requires tables { length config.now ≡ switch_count net.now }
    requires entry { entry.switch.0 < switch_count net.now }
    requires room { room.old.switches ≡ switch_count net.now }
    ensures places { IsFollowed net.now (rules_of_all config.now) entry dst room.new.places }
    ensures end { PathEndsAs net.now (rules_of_all config.now) entry dst
        (map stop_of room.new.places) result }
    ensures same_room { room.new.switches ≡ room.old.switches }
{
    net.keeps_rules();
    room.clear();
    room.visit(entry);
    let mut place = entry;
    'path: loop {
        match outcome(net, config.table(place.switch), place, dst) {
            Outcome::Discard => return PlacesEnd::Dropped(place.switch),
            Outcome::Leave(port, vlan) => return PlacesEnd::Left(place.switch, port, vlan),
            Outcome::Go(next) => {
                if room.visit(next) {
                    return PlacesEnd::Again(next.switch);
                }
                place = next;
            }
        }
    }
}

/// Follows the path of an entry and an address as `follow` does, and tells its end without the VLAN.
pub fn walk(net: &Net, config: &Config, entry: Place, dst: u32, room: &mut PathRoom) -> PathEnd
    requires tables { length config.now ≡ switch_count net.now }
    requires entry { entry.switch.0 < switch_count net.now }
    requires room { room.old.switches ≡ switch_count net.now }
    ensures path { WalksTo net.now (rules_of_all config.now) entry dst
        (map stop_of room.new.places) result }
    ensures same_room { room.new.switches ≡ room.old.switches }
{
    match follow(net, config, entry, dst, room) {
        PlacesEnd::Left(switch, port, _) => PathEnd::Left(switch, port),
        PlacesEnd::Dropped(switch) => PathEnd::Dropped(switch),
        PlacesEnd::Again(switch) => PathEnd::Repeats(switch),
    }
}
