//! The classes of the planner's own plans. The law is a function that does nothing: its contract is the law.
ghost use Rattle.flow_rules.specs.Tables.{rules_of_all};
ghost use Rattle.table_difference.specs.SameClasses.{MakeNoClasses};

use flow_rules::Config;
use topology::Net;

/// Rounds whose prefixes are those of the configurations make no new classes.
pub fn rounds_make_no_classes(net: &Net, old: &Config, new: &Config)
    ensures { MakeNoClasses net.now (rules_of_all old.now) (rules_of_all new.now) }
{}
