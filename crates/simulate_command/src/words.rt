//! The words of `simulate`.
ghost use Rattle.std.specs.Prelude.{◌≡◌, map, string_bytes, option_map};
ghost use Rattle.net_base.specs.Text.{decimal_in};
ghost use Rattle.check_base.specs.Names as files;
ghost use Rattle.simulate_command.specs.Names as spelled;

use crate::names::SimulateNames;
use check_base::CheckNames;
use command_base::UpdateNames;
use net_base::read_decimal;

const MAX_COUNT: u64 = 1000;

/// The names with the numbers that the two words spell.
fn with_numbers<'a>(check: CheckNames<'a>, start: &str, count: &str) -> Option<SimulateNames<'a>>
    ensures { option_map spelled.names_seen result
        ≡ spelled.with_numbers (files.names_seen check.entry)
        (decimal_in start.now 18446744073709551615) (decimal_in count.now 1000) }
{
    let start = read_decimal(start, u64::MAX)?;
    let count = read_decimal(count, MAX_COUNT)?;
    Some(SimulateNames {
        check,
        start,
        count,
    })
}

/// The names in the words after `simulate`, which are TOPO OLD NEW POLICY PLAN START COUNT; none in other words. START is a
/// decimal of 64 bits, and COUNT one from 0 to 1000.
pub fn simulate_names(words: &[String]) -> Option<SimulateNames<'_>>
    ensures { option_map spelled.names_seen result ≡ spelled.names_in (map string_bytes words.now) }
{
    match words {
        [topology, old, new, policy, plan, start, count] => with_numbers(
            CheckNames {
                update: UpdateNames {
                    topology: topology.as_str(),
                    old: old.as_str(),
                    new: new.as_str(),
                    policy: policy.as_str(),
                },
                plan: plan.as_str(),
            },
            start.as_str(),
            count.as_str(),
        ),
        _ => None,
    }
}
