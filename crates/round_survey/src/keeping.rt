//! Whether packets keep the VLANs with which they came.
ghost use Rattle.std.specs.Prelude.{◌≡◌, ℕ, true, length};
ghost use Rattle.std.specs.List.{AllByRecursion};
ghost use Rattle.topology.specs.Networks.{switch_count};
ghost use Rattle.flow_rules.specs.Tables.{rules_of_all};
ghost use Rattle.update_model.specs.Changes.{rule_of, round_after};
ghost use Rattle.certificates.specs.Certified.{KeepsVlan};
ghost use Rattle.mixed_walks.specs.Walks.{TablesKeepVlans};
ghost use Rattle.round_survey.specs.Keeping.{KeepVlans};

use flow_rules::{Action, Config, Rewrite, Table};
use net_base::SwitchId;
use topology::Net;
use update_model::{Change, Rounds};

/// Whether an action neither sets nor strips a tag.
fn keeps_vlan(action: Action) -> bool
    ensures { result ≡ true → KeepsVlan action }
{
    match action {
        Action::Discard => true,
        Action::Out(_, rewrite) => matches!(rewrite, Rewrite::Keep),
    }
}

/// Whether no rule of a table sets or strips a tag.
fn table_keeps(table: &Table) -> bool
    ensures { result ≡ true → AllByRecursion (λ r. KeepsVlan r.action) table.now.rules }
{
    for rule in table.rules() {
        if !keeps_vlan(rule.action) {
            return false;
        }
    }
    true
}

/// Whether no rule of the tables of a network does.
fn tables_keep(net: &Net, tables: &Config) -> bool
    requires { length tables.now ≡ switch_count net.now }
    ensures { result ≡ true → TablesKeepVlans (rules_of_all tables.now) }
{
    for i in 0..net.switches() {
        if !table_keeps(tables.table(SwitchId(i))) {
            return false;
        }
    }
    true
}

/// Whether no change of a round has a rule that does.
fn round_keeps(round: &[Change]) -> bool
    ensures { result ≡ true → AllByRecursion (λ c. KeepsVlan (rule_of c).action) round.now }
{
    for change in round {
        if !keeps_vlan(change.rule().action) {
            return false;
        }
    }
    true
}

/// Whether no change of any round has one.
fn rounds_keep(rounds: &Rounds) -> bool
    ensures { result ≡ true → (k : ℕ)
        → AllByRecursion (λ c. KeepsVlan (rule_of c).action) (round_after k rounds.now) }
{
    for k in 0..rounds.count() {
        if !round_keeps(rounds.round(k)) {
            return false;
        }
    }
    true
}

/// Whether no rule of the tables of a network and no change of the rounds sets or strips a tag: then packets keep the VLANs
/// with which they came. It looks at each rule and each change.
pub fn keep_vlans(net: &Net, old: &Config, rounds: &Rounds) -> bool
    requires { length old.now ≡ switch_count net.now }
    ensures { result ≡ true → KeepVlans (rules_of_all old.now) rounds.now }
{
    tables_keep(net, old) && rounds_keep(rounds)
}
