//! The prefixes over whose classes an update is planned.
ghost use Rattle.std.specs.Prelude.{◌≡◌, [], IfOk};
ghost use Rattle.flow_rules.specs.Tables.{rules_of_all};
ghost use Rattle.certificates.specs.Certified.{blocks_of};

use demands::Demands;
use flow_rules::Config;
use net_base::{Memory, Prefix};

/// The prefixes of both configurations, and then of the demands.
pub fn update_prefixes(old: &Config, new: &Config, demands: &Demands) -> Result<Vec<Prefix>, Memory>
    ensures { IfOk result (λ v. v.items ≡ blocks_of (rules_of_all old.now) (rules_of_all new.now)
        demands.now []) }
{
    let mut prefixes = old.prefixes()?;
    prefixes.extend_from_slice(&new.prefixes()?)?;
    prefixes.extend_from_slice(&demands.prefixes()?)?;
    Ok(prefixes)
}
