//! What holds of the rounds that take others back. Each law is a function that does nothing: its contract is the law.
ghost use Rattle.std.specs.Prelude.{◌≡◌, ◌<◌, ℕ, List, length};
ghost use Rattle.net_base.specs.declared.ids.SwitchId.{SwitchId};
ghost use Rattle.topology.specs.Networks.{Network};
ghost use Rattle.flow_rules.specs.declared.rules.Rule.{Rule};
ghost use Rattle.update_model.specs.Changes.{round_after};
ghost use Rattle.update_model.specs.Mixtures.{Rollout, AreGoodRounds, tables_before};
ghost use Rattle.update_model.specs.declared.Change.{Change};
ghost use Rattle.round_messages.specs.Requests.{is_changed};
ghost use Rattle.law_two_way_runs.specs.Inverse.{inverse_round};
ghost use Rattle.law_plan_rules.specs.PlanRules.{ArePlanTables};
ghost use Rattle.round_inverses.specs.Ranges.{ArePlanRounds};
ghost use Rattle.round_inverses.specs.Rounds.{AreGoodFrom, inverse_rounds};

/// There is one for each round: its inverse over the tables before it, with changes at the same switches.
pub fn each_takes_its_round_back()
    ensures count { (u : Rollout) → length (inverse_rounds u.old u.rounds) ≡ length u.rounds }
    ensures inverse { (u : Rollout) (k : ℕ) → k < length u.rounds
        → round_after k (inverse_rounds u.old u.rounds)
        ≡ inverse_round (tables_before u k) (round_after k u.rounds) }
    ensures switches { (u : Rollout) (k : ℕ) (s : SwitchId)
        → is_changed (round_after k (inverse_rounds u.old u.rounds)) s
        ≡ is_changed (round_after k u.rounds) s }
{}

/// Rounds that are good are so one after the other.
pub fn good_rounds_are_good_in_turn()
    ensures { (u : Rollout) → AreGoodRounds u → AreGoodFrom u.old u.rounds }
{}

/// Where the old rules and the changes of the rounds are in range, so are the changes that take the rounds back.
pub fn inverses_are_in_range()
    ensures { (net : Network) (old : List (List Rule)) (rounds : List (List Change))
        → ArePlanTables old → ArePlanRounds net rounds
        → ArePlanRounds net (inverse_rounds old rounds) }
{}
