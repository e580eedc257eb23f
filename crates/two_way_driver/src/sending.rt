//! What is sent to a switch. The law is a function that does nothing: its contract is the law.
ghost use Rattle.std.specs.Prelude.{◌≡◌, ◌≢◌, ◌<◌, ◌∷◌, [], true, List, flat_map};
ghost use Rattle.std.specs.List.{AllByRecursion};
ghost use Rattle.net_base.specs.declared.ids.SwitchId.{SwitchId};
ghost use Rattle.topology.specs.Networks.{Network, switch_count};
ghost use Rattle.update_model.specs.declared.Change.{Change};
ghost use Rattle.switch_session.specs.Channels.{hello};
ghost use Rattle.two_way_driver.specs.Calls.{DriverView};
ghost use Rattle.two_way_driver.specs.Laws.{Call, IsCall, after_call, driver_after};
ghost use Rattle.two_way_driver.specs.Drivers.{peer_at};
ghost use Rattle.two_way_driver.specs.Words.{after_call_anew, said_by_each};
ghost use Rattle.two_way_driver.specs.Sending.{texts_to, Sends, GoesOn};

/// To each switch HELLO is sent, and then what each call sends. A round that begins in either way, and one that turns, sends
/// its messages, with the next xids. Bytes from a switch send the very replies to the echo requests among the messages in
/// them, in their order; and where they have the HELLO that opens a session, before these the messages of the running round
/// that the switch hasn't answered, in the way it goes and with the xids that they had. Opening again sends HELLO. Nothing
/// else is sent, and to a dead switch nothing at all until its session is opened again.
pub fn what_is_sent()
    ensures each { (net : Network) (rounds inverses : List (List Change)) (calls : List Call)
        (call : Call) (s : SwitchId)
        → AllByRecursion (IsCall net) calls
        → s.0 < switch_count net
        → let before = driver_after net rounds inverses calls in let after = after_call_anew before
        call in Sends before after s call (texts_to s after.state.said) }
    ensures whole { (net : Network) (rounds inverses : List (List Change)) (calls : List Call)
        (s : SwitchId)
        → s.0 < switch_count net
        → texts_to s (driver_after net rounds inverses calls).state.said
        ≡ hello
        ∷ flat_map (texts_to s) (said_by_each (driver_after net rounds inverses []) calls) }
    ensures dead { (net : Network) (rounds inverses : List (List Change)) (calls : List Call)
        (call : Call) (s : SwitchId)
        → AllByRecursion (IsCall net) calls
        → s.0 < switch_count net
        → let before = driver_after net rounds inverses calls in (peer_at before.state s).is_dead
        ≡ true
        → call ≢ Call.Reopen s
        → texts_to s (after_call_anew before call).state.said ≡ [] }
    ensures xids { (v : DriverView) (call : Call) → GoesOn v (after_call v call) call }
{}
