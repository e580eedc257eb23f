//! The check of both ends of an update: of its old and its new configuration.
ghost use Rattle.std.specs.Prelude.{◌≡◌, length, IfSome, IfNone};
ghost use Rattle.topology.specs.Networks.{switch_count};
ghost use Rattle.flow_rules.specs.Tables.{rules_of_all};
ghost use Rattle.config_check.specs.Ends.{AreGoodEnds, IsFirstEndBreak};

use crate::Breaks;
use crate::checking::check_config;
use demands::Duties;
use dest_classes::ClassMap;
use flow_rules::Config;
use path_walk::PathRoom;
use topology::Net;

/// How the first class without a good path breaks its duties, in the new configuration or in the old one.
#[derive(Clone, Copy)]
pub struct EndBreak {
    pub new: bool,
    pub breaks: Breaks,
}

/// The first break of the old configuration, or else of the new one, if there is one. What they are called with is as for
/// `check_config`, and the time that of both.
pub fn first_end_break(
    net: &Net,
    old: &Config,
    new: &Config,
    duties: &Duties,
    classes: &ClassMap,
    room: &mut PathRoom,
) -> Option<EndBreak>
    requires old { length old.now ≡ switch_count net.now }
    requires new { length new.now ≡ switch_count net.now }
    requires hosts { classes.now.hosts ≡ net.now.hosts }
    requires duties { duties.now.classes ≡ classes.now }
    requires room { room.old.switches ≡ switch_count net.now }
    ensures none { IfNone result
        (AreGoodEnds net.now (rules_of_all old.now) (rules_of_all new.now) duties.now.demands
        classes.now) }
    ensures some { IfSome result
        (λ e. IsFirstEndBreak net.now (rules_of_all old.now) (rules_of_all new.now)
        duties.now.demands classes.now e.new e.breaks) }
    ensures fails { IfSome result
        (λ _. ¬ AreGoodEnds net.now (rules_of_all old.now) (rules_of_all new.now)
        duties.now.demands classes.now) }
    ensures same_room { room.new.switches ≡ room.old.switches }
{
    if let Err(breaks) = check_config(net, old, duties, classes, room) {
        return Some(EndBreak { new: false, breaks });
    }
    if let Err(breaks) = check_config(net, new, duties, classes, room) {
        return Some(EndBreak { new: true, breaks });
    }
    None
}
