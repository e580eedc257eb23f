//! A message to a switch.
ghost use Rattle.std.specs.Prelude.{◌≡◌, IfOk};

use net_base::{Memory, SwitchId};
use std::marker::Model;

/// The bytes of a message.
#[derive(Drop)]
pub struct Text {
    bytes: Vec<u8>,
}

impl Model for Text {
    ghost use Rattle.std.specs.Prelude.{List, ℕ};

    ghost Value = { List ℕ };

    ghost view = { λ t. t.bytes.items };
}

impl Text {
    /// A text of these bytes.
    pub fn make(bytes: Vec<u8>) -> Text
        ensures { result ≡ bytes.items }
    {
        Text { bytes }
    }

    /// The bytes, in the order in which they are sent.
    pub fn bytes(&self) -> &[u8]
        ensures { result.now ≡ self.now }
    {
        &self.bytes
    }

    /// A text of the same bytes.
    pub fn copy(&self) -> Result<Text, Memory>
        ensures { IfOk result (λ t. t ≡ self.now) }
    {
        let bytes = Vec::from_slice(*self.bytes.allocator(), &self.bytes)?;
        Ok(Text { bytes })
    }
}

/// A message to a switch.
#[derive(Drop)]
pub struct Outgoing {
    /// The switch that gets it.
    pub switch: SwitchId,
    /// Its wire text.
    pub text: Text,
}
