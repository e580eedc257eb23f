//! Tables without rules.
ghost use Rattle.std.specs.Prelude.{IfOk};
ghost use Rattle.flow_rules.specs.Tables.{rules_of_all};
ghost use Rattle.path_walk.specs.UserConfigs.{IsUserConfig};

use flow_rules::Config;
use net_base::Memory;
use std::alloc::Global;
use topology::Net;

/// A table without rules for each switch of a network.
pub fn no_rules(alloc: Global, net: &Net) -> Result<Config, Memory>
    ensures { IfOk result (λ c. IsUserConfig net.now (rules_of_all c)) }
{
    Config::make(alloc, net.switches())
}
