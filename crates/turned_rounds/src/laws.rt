//! What holds of the messages of a round. Each law is a function that does nothing: its contract is the law.
ghost use Rattle.std.specs.Prelude.{◌≡◌, ◌+◌, ◌≤◌, ℕ, List, length, map};
ghost use Rattle.topology.specs.Networks.{Network};
ghost use Rattle.update_model.specs.declared.Change.{Change};
ghost use Rattle.round_messages.specs.Requests.{round_requests, sent_from};
ghost use Rattle.turned_rounds.specs.Batches.{outgoing_of, batch_of};

/// As long as no xid begins again they are the messages of `emit` for the round, with ascending xids.
pub fn batches_are_rounds_of_messages()
    ensures { (net : Network) (k x : ℕ) (round : List Change)
        → x + length (round_requests net k round) ≤ 4294967295
        → map outgoing_of (sent_from x (round_requests net k round)) ≡ batch_of net x round }
{}
