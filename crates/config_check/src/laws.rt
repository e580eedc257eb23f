//! What the good paths of classes are for. The law is a function that does nothing: its contract is the law.
ghost use Rattle.std.specs.Prelude.{◌≡◌};
ghost use Rattle.dest_classes.specs.Classes.{classes_of};
ghost use Rattle.flow_rules.specs.Tables.{rules_of_all};
ghost use Rattle.demands.specs.Good.{HasGoodPaths};
ghost use Rattle.config_check.specs.Everywhere.{HasPrefixes, HasGoodPathEverywhere};

use demands::Demands;
use dest_classes::ClassMap;
use flow_rules::Config;
use topology::Net;

/// Where each class has a good path, so has each entry with each address. The map was made for the network, from
/// prefixes that contain those of the configuration and of the demands.
pub fn classes_speak_for_addresses(
    net: &Net,
    config: &Config,
    demands: &Demands,
    classes: &ClassMap,
)
    requires classes { classes.now ≡ classes_of net.now classes.now.prefixes }
    requires prefixes { HasPrefixes classes.now.prefixes (rules_of_all config.now) demands.now }
    ensures { HasGoodPaths net.now (rules_of_all config.now) demands.now classes.now
        → HasGoodPathEverywhere net.now (rules_of_all config.now) demands.now }
{}
