//! What holds of the messages of all rounds. Each law is a function that does nothing: its contract is the law.
ghost use Rattle.std.specs.Prelude.{◌≡◌, ◌<◌, ℕ, List, length};
ghost use Rattle.std.specs.List.{AllByRecursion};
ghost use Rattle.net_base.specs.declared.ids.SwitchId.{SwitchId};
ghost use Rattle.topology.specs.Networks.{Network};
ghost use Rattle.update_model.specs.Changes.{changes_at, round_after};
ghost use Rattle.update_model.specs.Ranges.{IsPlanChange};
ghost use Rattle.update_model.specs.declared.Change.{Change};
ghost use Rattle.round_messages.specs.Requests.{round_requests, sent_from, sent_in, first_xid};
ghost use Rattle.round_messages.specs.ToSwitch.{messages_to, AreFor};

/// In each round each switch gets just its changes, in their order, and then a barrier request; nothing where it has no change.
pub fn each_switch_gets_its_changes()
    ensures { (net : Network) (rounds : List (List Change)) (k : ℕ) (s : SwitchId)
        → AllByRecursion (AllByRecursion (IsPlanChange net)) rounds
        → AreFor (changes_at s (round_after k rounds)) (messages_to k s (sent_in net rounds)) }
{}

/// The messages of a round are those of its requests, with xids that follow those of the rounds before.
pub fn rounds_are_sent_in_turn()
    ensures { (net : Network) (rounds : List (List Change)) (k : ℕ) (s : SwitchId)
        → k < length rounds
        → messages_to k s (sent_in net rounds)
        ≡ messages_to k s (sent_from (first_xid net rounds k)
        (round_requests net k (round_after k rounds))) }
{}
