//! Inputs with the lines in which they stand.
ghost use Rattle.std.specs.Prelude.{◌≡◌};

use net_base::{ListOf, SwitchId};
use std::marker::Model;

/// A piece of the bytes that a switch sends.
#[derive(Drop)]
pub struct Piece {
    bytes: Vec<u8>,
}

impl Model for Piece {
    ghost use Rattle.std.specs.Prelude.{List, ℕ};

    ghost Value = { List ℕ };

    ghost view = { λ p. p.bytes.items };
}

impl Piece {
    /// A piece of these bytes.
    pub fn make(bytes: Vec<u8>) -> Piece
        ensures { result ≡ bytes.items }
    {
        Piece { bytes }
    }

    /// The bytes, in the order in which they were sent.
    pub fn bytes(&self) -> &[u8]
        ensures { result.now ≡ self.now }
    {
        &self.bytes
    }
}

/// What happens at a driver.
#[derive(Drop)]
pub enum Input {
    /// The next round is to begin.
    Start,
    /// A piece comes from this switch. One that was read is never empty.
    Feed(SwitchId, Piece),
}

/// An input of a file.
#[derive(Drop)]
pub struct InputLine {
    /// The number of its line, from 1; 4294967295 for every line from there on.
    pub line: u32,
    pub input: Input,
}

/// The inputs of a file in order, each with the number of its line.
pub type Inputs = ListOf<InputLine>;
