//! What holds of rules that plans may write. Each law is a function that does nothing: its contract is the law.
ghost use Rattle.std.specs.Prelude.{◌<◌, List};
ghost use Rattle.net_base.specs.declared.ids.SwitchId.{SwitchId};
ghost use Rattle.topology.specs.Networks.{Network, IsNetwork, switch_count};
ghost use Rattle.flow_rules.specs.declared.rules.Rule.{Rule};
ghost use Rattle.path_walk.specs.UserConfigs.{IsUserRule, IsUserConfig};
ghost use Rattle.update_model.specs.Changes.{switch_of, rule_of};
ghost use Rattle.update_model.specs.Ranges.{IsPlanChange};
ghost use Rattle.update_model.specs.declared.Change.{Change};
ghost use Rattle.law_plan_rules.specs.PlanRules.{IsPlanRule, ArePlanTables};

/// Each rule that a user may write is one that a plan may write, and user configurations are tables of them.
pub fn user_rules_are_plan_rules()
    ensures rule { (net : Network) (s : SwitchId) (r : Rule) → IsNetwork net
        → IsUserRule net s r → IsPlanRule r }
    ensures tables { (net : Network) (tables : List (List Rule)) → IsNetwork net
        → IsUserConfig net tables → ArePlanTables tables }
{}

/// A change at a switch of the network is one that a plan may have exactly where its rule is.
pub fn changes_of_plan_rules_are_plan_changes()
    ensures change { (net : Network) (c : Change) → (switch_of c).0 < switch_count net
        → IsPlanRule (rule_of c) → IsPlanChange net c }
    ensures rule { (net : Network) (c : Change) → IsPlanChange net c → IsPlanRule (rule_of c) }
{}
