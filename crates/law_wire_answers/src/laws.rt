//! The laws. Each is a function that does nothing: its contract is the law.
ghost use Rattle.std.specs.Prelude.{◌≡◌, ◌<◌, ℕ, false, List, [], ◌∷◌};
ghost use Rattle.std.specs.List.{AllByRecursion};
ghost use Rattle.net_base.specs.declared.ids.SwitchId.{SwitchId};
ghost use Rattle.topology.specs.Networks.{Network, switch_count};
ghost use Rattle.flow_rules.specs.declared.rules.Rule.{Rule};
ghost use Rattle.update_model.specs.Mixtures.{AreGoodRounds};
ghost use Rattle.update_model.specs.declared.Change.{Change};
ghost use Rattle.law_two_way_runs.specs.Runs.{state_after_two_way};
ghost use Rattle.two_way_driver.specs.Drivers.{peer_at};
ghost use Rattle.two_way_driver.specs.Calls.{AreTurnable, silent_view};
ghost use Rattle.two_way_driver.specs.Words.{after_call_anew};
ghost use Rattle.two_way_driver.specs.Laws.{Call, Feed, IsCall, driver_after, events_in, rollout_of};
ghost use Rattle.law_wire_answers.specs.Exchanges.{is_reopened, traffic_behind};
ghost use Rattle.law_wire_answers.specs.Answering.{SaysAnswered};
ghost use Rattle.law_wire_answers.specs.Failing.{FailsByRules, FailureWasSaid, IsQuietTo};
ghost use Rattle.law_wire_answers.specs.Turning.{goes_back, TurnsAsAsked};

/// Each event that a call says stands behind the answers for which it waits: a change behind the reply to the barrier request that was
/// sent behind its message, a round that is settled behind the replies of all its switches.
pub fn events_wait_for_answers()
    ensures { (net : Network) (rounds inverses : List (List Change)) (calls : List Call) (c : Call)
        → AreTurnable net rounds inverses
        → AllByRecursion (IsCall net) calls
        → IsCall net c
        → SaysAnswered (driver_after net rounds inverses []) calls c }
{}

/// A driver is as far as the events that it said lead, and goes the way that was asked last. `Back` turns a running round wherever that goes
/// onward, and begins to undo the last round wherever each of its switches is dead or has an open session; both calls are refused for their
/// causes alone. A switch is dead where the calls say so.
pub fn rounds_turn_as_asked()
    ensures turns { (net : Network) (rounds inverses : List (List Change)) (old : List (List Rule))
        (calls : List Call)
        → AreGoodRounds (rollout_of net old rounds)
        → AreTurnable net rounds inverses
        → AllByRecursion (IsCall net) calls
        → let v = driver_after net rounds inverses calls in
        let run = state_after_two_way (rollout_of net old rounds) (events_in v.state.said) in
        TurnsAsAsked (silent_view v) run.phase
        (goes_back (driver_after net rounds inverses []) calls) }
    ensures dead { (net : Network) (rounds inverses : List (List Change)) (calls : List Call)
        (s : SwitchId)
        → AreTurnable net rounds inverses
        → AllByRecursion (IsCall net) calls
        → s.0 < switch_count net
        → (peer_at (driver_after net rounds inverses calls).state s).is_dead
        ≡ (traffic_behind (driver_after net rounds inverses []) s calls).dead }
{}

/// A session fails exactly where its bytes break the rules, and that is said by the call that feeds the byte; until then exactly the echo
/// requests among its whole messages are replied to. It makes no difference in which pieces bytes come, so each byte is looked at by itself.
pub fn sessions_fail_by_the_rules()
    ensures { (net : Network) (rounds inverses : List (List Change)) (calls : List Call)
        (s : SwitchId) (byte : ℕ)
        → AreTurnable net rounds inverses
        → AllByRecursion (IsCall net) calls
        → s.0 < switch_count net
        → let v = driver_after net rounds inverses calls in
        let talk = traffic_behind (driver_after net rounds inverses []) s calls in
        FailsByRules talk s byte (after_call_anew v (Feed s (byte ∷ []))).state.said }
{}

/// Once a failure was said, nothing is sent to the switch, and no other failure is said, until its session is opened again or it dies.
pub fn failed_sessions_stay_quiet()
    ensures { (net : Network) (rounds inverses : List (List Change)) (calls : List Call)
        (s : SwitchId) (c : Call)
        → AreTurnable net rounds inverses
        → AllByRecursion (IsCall net) calls
        → IsCall net c
        → s.0 < switch_count net
        → FailureWasSaid (traffic_behind (driver_after net rounds inverses []) s calls)
        → is_reopened s c ≡ false
        → IsQuietTo s (after_call_anew (driver_after net rounds inverses calls) c).state.said }
{}
