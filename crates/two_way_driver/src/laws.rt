//! What holds of every driver that comes about by calls. Each law is a function that does nothing: its contract is the law.
ghost use Rattle.std.specs.Prelude.{◌≡◌, ◌++◌, ℕ, List};
ghost use Rattle.std.specs.List.{AllByRecursion};
ghost use Rattle.net_base.specs.declared.ids.SwitchId.{SwitchId};
ghost use Rattle.topology.specs.Networks.{Network};
ghost use Rattle.flow_rules.specs.declared.rules.Rule.{Rule};
ghost use Rattle.update_model.specs.Mixtures.{AreGoodRounds};
ghost use Rattle.update_model.specs.declared.Change.{Change};
ghost use Rattle.switch_session.specs.Channels.{ChannelState, after_byte};
ghost use Rattle.two_way_driver.specs.Peers.{kept_of};
ghost use Rattle.two_way_driver.specs.Calls.{AreTurnable, DriverView, fed_view};
ghost use Rattle.two_way_driver.specs.Laws.{Call, IsCall, driver_after, rollout_of, SaysRun, BeginsAnswered, IsQuiet, KeepsAllButSent};

/// It makes no difference in which pieces bytes come from a switch.
pub fn pieces_make_no_difference()
    ensures { (s : SwitchId) (a b : List ℕ) (v : DriverView)
        → fed_view s (a ++ b) v ≡ fed_view s b (fed_view s a v) }
{}

/// The events that a driver said in all its calls, in order, are a run both ways, without packets, from all tables from which
/// every round is good. It leads to the stage that the driver keeps, and to the changes that are in force by what it keeps.
pub fn said_is_run()
    ensures { (net : Network) (rounds inverses : List (List Change)) (old : List (List Rule))
        (calls : List Call)
        → AreGoodRounds (rollout_of net old rounds)
        → AreTurnable net rounds inverses
        → AllByRecursion (IsCall net) calls
        → SaysRun (rollout_of net old rounds) (driver_after net rounds inverses calls).state }
{}

/// No round is begun, in either way, while a barrier request of another round isn't answered. A dead switch isn't waited for.
pub fn rounds_wait_for_answers()
    ensures { (net : Network) (rounds inverses : List (List Change)) (old : List (List Rule))
        (calls : List Call)
        → AreGoodRounds (rollout_of net old rounds)
        → AreTurnable net rounds inverses
        → AllByRecursion (IsCall net) calls
        → BeginsAnswered (driver_after net rounds inverses calls) }
{}

/// Of what a channel is behind a byte a driver forgets the reply to an echo request, and nothing else.
pub fn only_replies_are_forgotten()
    ensures { (b : ℕ) (channel : ChannelState) → IsQuiet channel
        → KeepsAllButSent (after_byte b channel) (kept_of channel (after_byte b channel)) }
{}
