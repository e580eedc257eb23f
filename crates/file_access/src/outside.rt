//! A source of files and a sink of bytes, each with a count of its faults.
ghost use Rattle.std.specs.Prelude.{◌≡◌, ◌⊎◌, ◌↔◌, ℕ, ◌+◌, ◌<◌, ◌≤◌, List, Bool, length, take, IsTrue, IsOk, IsErr, IfOk, OnOk, OnErr};
ghost use Rattle.std.specs.declared.option.Option.{Option};
ghost use Rattle.std.specs.Io.KnownBytes.{Keeps, Consumes, Appends, IsAtEnd};
ghost use Rattle.file_access.specs.Causes.{Rose, raised_count};
ghost use Rattle.file_access.specs.Outside.{Files, IsMissing, Opens};

/// The outside refused.
#[derive(Clone, Copy, Debug, PartialEq, Eq)]
pub struct Failed;

/// Files by name, of which one at a time is read from its beginning.
pub trait Source {
    /// What each name holds, where the source tells.
    ghost held: { Self → Option (List ℕ → Option (List ℕ)) };

    /// The bytes left of the current file, where the source tells.
    ghost left: { Self → Option (List ℕ) };

    /// The name of the file that was selected last.
    ghost selected: { Self → List ℕ };

    /// A file is current.
    ghost is_current: { Self → Bool };

    /// How many bytes were taken since the last select, up to the last value of 64 bits.
    ghost taken: { Self → ℕ };

    /// How often the source has failed by itself.
    ghost faults: { Self → ℕ };

    /// Makes the file of the name the current one, at its beginning.
    fn select(&mut self, name: &str) -> Result<(), Failed>
        ensures held { held self.new ≡ held self.old }
        ensures current { IsTrue (is_current self.new) ↔ IsOk result }
        ensures taken { taken self.new ≡ 0 }
        ensures left { OnOk result (Opens (held self.old) name.now (left self.new)) }
        ensures selected { OnOk result (selected self.new ≡ name.now) }
        ensures missing { IsMissing (held self.old) name.now → IsErr result }
        ensures later { faults self.old ≤ faults self.new }
        ensures cause { OnErr result (Rose (faults self.old) (faults self.new)
            ⊎ IsMissing (held self.old) name.now) };

    /// Fills the front of the buffer with the next bytes; none is the end of the file.
    fn take(&mut self, buf: &mut [u8]) -> Result<usize, Failed>
        requires room { 0 < length buf.old }
        requires current { IsTrue (is_current self.old) }
        ensures held { held self.new ≡ held self.old }
        ensures current { is_current self.new ≡ is_current self.old }
        ensures selected { selected self.new ≡ selected self.old }
        ensures bound { IfOk result (λ n. n ≤ length buf.old) }
        ensures taken_ok { IfOk result (λ n. taken self.new ≡ raised_count (taken self.old) n) }
        ensures taken_err { OnErr result (taken self.new ≡ taken self.old) }
        ensures bytes { IfOk result (λ n. Consumes (left self.old) (left self.new)
            (take n buf.new)) }
        ensures end { IfOk result (λ n. n ≡ 0 → IsAtEnd (left self.old)) }
        ensures later { faults self.old ≤ faults self.new }
        ensures cause { OnErr result (Rose (faults self.old) (faults self.new)) };
}

/// Takes bytes in pieces.
pub trait Sink {
    /// What was written so far, where the sink tells.
    ghost written: { Self → Option (List ℕ) };

    /// How often the sink has failed.
    ghost faults: { Self → ℕ };

    /// Takes at least one byte of the front, and answers how many.
    fn put(&mut self, bytes: &[u8]) -> Result<usize, Failed>
        requires { 0 < length bytes.now }
        ensures some { IfOk result (λ n. 0 < n) }
        ensures bound { IfOk result (λ n. n ≤ length bytes.now) }
        ensures written { IfOk result (λ n. Appends (written self.old) (written self.new)
            (take n bytes.now)) }
        ensures unwritten { OnErr result (Keeps (written self.old) (written self.new)) }
        ensures later { faults self.old ≤ faults self.new }
        ensures cause { OnErr result (Rose (faults self.old) (faults self.new)) };
}
