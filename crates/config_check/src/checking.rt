//! The check of a configuration against its duties.
ghost use Rattle.std.specs.Prelude.{◌≡◌, ◌↔◌, length, IsOk, IfErr};
ghost use Rattle.topology.specs.Networks.{switch_count};
ghost use Rattle.flow_rules.specs.Tables.{rules_of_all};
ghost use Rattle.demands.specs.Good.{HasGoodPaths};
ghost use Rattle.config_check.specs.Broken.{IsFirstBreak};

use crate::Breaks;
use crate::breaking::how_broken;
use crate::met::MetPath;
use demands::Duties;
use dest_classes::{ClassMap, NumberedClass};
use flow_rules::Config;
use path_walk::PathRoom;
use topology::Net;

/// Whether every class has a good path; otherwise the least class that has none, and how its path breaks its duties.
/// The duties and the class map were made for the network, the duties from this map, and the room for a network with as
/// many switches. Takes time by the classes, the lengths of their paths and those of their chains; where classes with many
/// chains follow one another that the same demands cover and whose paths have the same stops, the chains are tested once.
pub fn check_config(
    net: &Net,
    config: &Config,
    duties: &Duties,
    classes: &ClassMap,
    room: &mut PathRoom,
) -> Result<(), Breaks>
    requires tables { length config.now ≡ switch_count net.now }
    requires hosts { classes.now.hosts ≡ net.now.hosts }
    requires duties { duties.now.classes ≡ classes.now }
    requires room { room.old.switches ≡ switch_count net.now }
    ensures ok { IsOk result
        ↔ HasGoodPaths net.now (rules_of_all config.now) duties.now.demands classes.now }
    ensures err { IfErr result
        (IsFirstBreak net.now (rules_of_all config.now) duties.now.demands classes.now) }
    ensures same_room { room.new.switches ≡ room.old.switches }
{
    net.keeps_rules();
    let mut met = MetPath::none();
    for number in 0..classes.count() {
        let class = classes.class(number);
        let numbered = NumberedClass { number, class };
        if let Some(how) = how_broken(net, config, duties, numbered, room, &mut met) {
            return Err(Breaks { class: number, how });
        }
    }
    Ok(())
}
