//! The prefixes that tell the addresses of an update apart.
ghost use Rattle.std.specs.Prelude.{◌≡◌, ◌++◌, map, IfOk, OnOk};
ghost use Rattle.flow_rules.specs.Tables.{rules_of_all};
ghost use Rattle.update_model.specs.Changes.{rule_of, round_blocks};
ghost use Rattle.certificates.specs.Certified.{blocks_of};

use demands::Demands;
use flow_rules::Config;
use net_base::{Memory, Prefix};
use update_model::{Change, Rounds};

/// Adds the prefixes of the changes.
fn add_changes(prefixes: &mut Vec<Prefix>, changes: &[Change]) -> Result<(), Memory>
    ensures { OnOk result
        (prefixes.new.items ≡ prefixes.old.items
        ++ map (λ c. (rule_of c).key.pattern.dst) changes.now) }
{
    for change in changes {
        prefixes.push(change.rule().key.pattern.dst)?;
    }
    Ok(())
}

/// Adds the prefixes of all changes of the rounds.
fn add_rounds(prefixes: &mut Vec<Prefix>, rounds: &Rounds) -> Result<(), Memory>
    ensures { OnOk result (prefixes.new.items ≡ prefixes.old.items ++ round_blocks rounds.now) }
{
    for k in 0..rounds.count() {
        add_changes(prefixes, rounds.round(k))?;
    }
    Ok(())
}

/// The prefixes of both configurations, of the demands and of all changes of the rounds.
pub(crate) fn prefixes_of(
    old: &Config,
    new: &Config,
    demands: &Demands,
    rounds: &Rounds,
) -> Result<Vec<Prefix>, Memory>
    ensures { IfOk result
        (λ v. v.items
        ≡ blocks_of (rules_of_all old.now) (rules_of_all new.now) demands.now rounds.now) }
{
    let mut prefixes = old.prefixes()?;
    prefixes.extend_from_slice(&new.prefixes()?)?;
    prefixes.extend_from_slice(&demands.prefixes()?)?;
    add_rounds(&mut prefixes, rounds)?;
    Ok(prefixes)
}
