//! What holds of every driver that comes about by calls. Each law is a function that does nothing: its contract is the law.
ghost use Rattle.std.specs.Prelude.{◌≡◌, ◌<◌, ◌++◌, ℕ, List, length, map};
ghost use Rattle.std.specs.List.{AllByRecursion};
ghost use Rattle.net_base.specs.declared.ids.SwitchId.{SwitchId};
ghost use Rattle.topology.specs.Networks.{Network, switch_count};
ghost use Rattle.update_model.specs.declared.Change.{Change};
ghost use Rattle.two_way_driver.specs.Laws as two_way;
ghost use Rattle.update_driver.specs.Agreement.{two_way_call, Agree};
ghost use Rattle.update_driver.specs.Drivers.{DriverState, driver_after_bytes};
ghost use Rattle.update_driver.specs.Calls.{Call, IsCall, AreDrivable, after_call, bytes_from, byte_by_byte, driver_after};
ghost use Rattle.update_driver.specs.Laws.{BeginsAnswered, LogIsRun, SendsOnly, WaitsForBarriers};

/// It makes no difference in which pieces bytes come from a switch: a driver that is fed each byte by itself comes to the same.
pub fn pieces_make_no_difference()
    ensures calls { (net : Network) (rounds : List (List Change)) (calls : List Call)
        → driver_after net rounds (byte_by_byte calls) ≡ driver_after net rounds calls }
    ensures fed { (rounds : List (List Change)) (s : SwitchId) (a b : List ℕ) (d : DriverState)
        → s.0 < length d.channels
        → driver_after_bytes rounds s (a ++ b) d
        ≡ driver_after_bytes rounds s b (driver_after_bytes rounds s a d) }
{}

/// The log is a run of the model, without packets, from all tables from which every round is good.
pub fn log_is_run()
    ensures { (net : Network) (rounds : List (List Change)) (calls : List Call)
        → AreDrivable net rounds
        → AllByRecursion (IsCall net) calls
        → LogIsRun net rounds (driver_after net rounds calls).log }
{}

/// A round is never begun before every barrier of the round before was answered: while no round is running no barrier is
/// outstanding, and each call begins at most the next round, and only where no barrier is outstanding.
pub fn rounds_wait_for_barriers()
    ensures settled { (net : Network) (rounds : List (List Change)) (calls : List Call)
        → WaitsForBarriers (driver_after net rounds calls) }
    ensures begins { (net : Network) (rounds : List (List Change)) (calls : List Call) (call : Call)
        → let before = driver_after net rounds calls in BeginsAnswered before
        (after_call net rounds before call) }
{}

/// Each byte that is sent to a switch behind its HELLO is of an echo reply, or of a message of `emit`'s lines. The replies are to
/// the echo requests in the bytes that came from the switch, to each one and in their order, until its session failed; the
/// messages are all of its messages of the rounds that were begun, in their order and with their xids.
pub fn only_replies_and_messages_are_sent()
    ensures { (net : Network) (rounds : List (List Change)) (calls : List Call) (s : SwitchId)
        → AreDrivable net rounds
        → AllByRecursion (IsCall net) calls → s.0 < switch_count net
        → SendsOnly net rounds (bytes_from s calls) (driver_after net rounds calls) s }
{}

/// The driver that can turn back does the same, as long as it isn't turned and no session is opened again: over the same starts
/// and the same bytes both send the same to each switch, log the same events, and refuse the same starts.
pub fn both_drivers_agree()
    ensures { (net : Network) (rounds inverses : List (List Change)) (calls : List Call)
        → AreDrivable net rounds
        → AllByRecursion (IsCall net) calls
        → Agree net rounds (driver_after net rounds calls)
        (two_way.driver_after net rounds inverses (map two_way_call calls)) }
{}
