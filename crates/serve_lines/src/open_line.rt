//! The line that isn't ended yet.
ghost use Rattle.std.specs.Prelude.{◌≡◌, ◌++◌, ◌∷◌, [], OnOk, OnErr};
ghost use Rattle.serve_lines.specs.Lines.{kept_bytes};

use net_base::Memory;
use std::alloc::Global;
use std::marker::Model;

/// The most bytes of a line, without its line end.
pub const MOST_BYTES: usize = 262_144;

/// The bytes of the line that isn't ended yet. Of one that is too long it keeps one byte more than a line may have, so that
/// its memory has a bound whatever comes.
#[derive(Drop)]
pub struct OpenLine {
    bytes: Vec<u8>,
}

impl Model for OpenLine {
    ghost use Rattle.std.specs.Prelude.{List, ℕ};
    ghost use Rattle.serve_lines.specs.Inside.{IsWithin};

    ghost Value = { List ℕ };

    ghost view = { λ l. l.bytes.items };

    ghost invariant = { IsWithin };
}

impl OpenLine {
    /// A line of which nothing came yet.
    pub fn make(alloc: Global) -> OpenLine
        ensures { result ≡ [] }
    {
        OpenLine {
            bytes: Vec::new(alloc),
        }
    }

    /// One more byte of the line. After a refusal it is as before.
    pub fn push(&mut self, byte: u8) -> Result<(), Memory>
        ensures ok { OnOk result (self.new ≡ kept_bytes (self.old ++ byte ∷ [])) }
        ensures err { OnErr result (self.new ≡ self.old) }
    {
        if self.bytes.len() <= MOST_BYTES {
            self.bytes.push(byte)?;
        }
        Ok(())
    }

    /// The bytes that are kept.
    pub fn bytes(&self) -> &[u8]
        ensures { result.now ≡ self.now }
    {
        &self.bytes
    }

    /// The line is over, and the next one begins. The memory is kept for it.
    pub fn clear(&mut self)
        ensures { self.new ≡ [] }
    {
        self.bytes.clear();
    }
}
