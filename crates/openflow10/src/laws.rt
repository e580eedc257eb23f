//! What holds of the wire texts of all messages.
ghost use Rattle.std.specs.Prelude.{◌≡◌, ◌++◌, ℕ, List};
ghost use Rattle.openflow10.specs.Layout.{Holds, Spans};
ghost use Rattle.openflow10.specs.Messages.{BeginsWith, IsMessage, length_of, message_table, wire_text};
ghost use Rattle.openflow10.specs.declared.Message.{Message};

/// Each field of a message stands at the offset that its table says, with its value, from byte 0 to the length in the
/// header, without a gap. It does nothing.
pub fn fields_stand_at_their_offsets()
    ensures spans { (m : Message) → Spans 0 (message_table m) (length_of m) }
    ensures holds { (m : Message) (rest : List ℕ) → IsMessage m
        → Holds (wire_text m ++ rest) (message_table m) }
{}

/// The wire text of a message begins with it, whatever follows: so `decode` gives it back. It does nothing.
pub fn texts_are_read_back()
    ensures { (m : Message) (rest : List ℕ) → IsMessage m
        → BeginsWith (wire_text m ++ rest) m (length_of m) }
{}

/// Two messages never have the same text, and neither text begins the other. It does nothing.
pub fn each_message_has_its_own_text()
    ensures { (m n : Message) (xs ys : List ℕ) → IsMessage m → IsMessage n
        → wire_text m ++ xs ≡ wire_text n ++ ys → m ≡ n }
{}
