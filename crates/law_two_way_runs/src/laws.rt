//! What holds of an update that may be turned back at any moment. Each law is a function that does nothing: its contract is the law.
ghost use Rattle.std.specs.Prelude.{◌≡◌, ◌↔◌, ◌<◌, ◌≤◌, ℕ, suc, List, length};
ghost use Rattle.std.specs.List.{AllByRecursion};
ghost use Rattle.net_base.specs.declared.ids.SwitchId.{SwitchId};
ghost use Rattle.flow_rules.specs.Tables.{rules_at, IsTable};
ghost use Rattle.flow_rules.specs.declared.rules.Rule.{Rule};
ghost use Rattle.path_walk.specs.UserConfigs.{IsUserConfig};
ghost use Rattle.update_model.specs.Changes.{round_after, IsGoodRound};
ghost use Rattle.update_model.specs.Mixtures.{Rollout, AreGoodRounds, MayHold, need_of, tables_before};
ghost use Rattle.update_model.specs.Runs.{IsRun, state_after_run};
ghost use Rattle.update_model.specs.declared.Event.{Event};
ghost use Rattle.certificates.specs.Certified.{IsCertified, is_two_phase};
ghost use Rattle.certificates.specs.Updates.{Task};
ghost use Rattle.certificates.specs.declared.Evidence.{Evidence};
ghost use Rattle.law_two_way_runs.specs.States.{TwoWayEvent, MayUndo};
ghost use Rattle.law_two_way_runs.specs.Inverse.{inverse_round};
ghost use Rattle.law_two_way_runs.specs.Runs.{IsTwoWayRun, state_after_two_way};
ghost use Rattle.law_two_way_runs.specs.Laws.{onward_events, onward_state, TablesAreMixtures, WalkedSomeRound, IsTakenBack, IsTwoWayConsistent};

/// A run in which nothing is turned back is a run of the update as it is carried out, with the same states.
pub fn never_turned_back()
    ensures runs { (u : Rollout) (events : List Event)
        → IsTwoWayRun u (onward_events events) ↔ IsRun u events }
    ensures states { (u : Rollout) (events : List Event) → IsRun u events
        → onward_state (state_after_two_way u (onward_events events))
        ≡ state_after_run u events }
{}

/// While a round runs, in either way, each switch has one of the mixtures of that round; between rounds it has the table
/// before the next one. So each is clear where the mixtures of the rounds are.
pub fn tables_are_mixtures()
    ensures { (u : Rollout) → AreGoodRounds u → (events : List TwoWayEvent) → IsTwoWayRun u events
        → TablesAreMixtures u (state_after_two_way u events).phase
        (rules_at (state_after_two_way u events).tables) }
{}

/// A mixture of a round that has no key twice has at most as many entries as the round needs at its switch: those before
/// it and its inserts.
pub fn mixtures_fit()
    ensures { (u : Rollout) → AreGoodRounds u → (k : ℕ) → k < length u.rounds
        → (s : SwitchId) (mixed : List Rule) → MayHold u k s mixed → IsTable mixed
        → length mixed ≤ need_of u k s }
{}

/// A change that is in force is taken back by its inverse.
pub fn inverses_take_back()
    ensures { (u : Rollout) → AreGoodRounds u → AllByRecursion IsTable u.old
        → (events : List TwoWayEvent) → IsTwoWayRun u events
        → (i : ℕ) (may : MayUndo u (state_after_two_way u events) i)
        → IsTakenBack u may.k may.change (state_after_two_way u events).tables }
{}

/// The inverse of a round is a good round over the tables behind it.
pub fn inverse_rounds_are_good()
    ensures { (u : Rollout) → AreGoodRounds u → AllByRecursion IsTable u.old
        → (k : ℕ) → k < length u.rounds
        → IsGoodRound (tables_before u (suc k))
        (inverse_round (tables_before u k) (round_after k u.rounds)) }
{}

/// Each packet walks through the mixtures of one round.
pub fn each_walks_one_round()
    ensures { (u : Rollout) → AreGoodRounds u → (events : List TwoWayEvent) → IsTwoWayRun u events
        → AllByRecursion (WalkedSomeRound u) (state_after_two_way u events).packets }
{}

/// An update by a certified plan is consistent, however often it is turned back and onward again.
pub fn certified_both_ways()
    ensures { (t : Task) (evidence : Evidence) → IsUserConfig t.update.net t.update.old
        → IsUserConfig t.update.net t.update.new → IsCertified t evidence
        → IsTwoWayConsistent t.update t.rounds (is_two_phase evidence) }
{}
