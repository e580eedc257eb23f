//! A source beside a sink: what each take gave stands behind what was put by then.
ghost use Rattle.std.specs.Prelude.{◌≡◌, ◌⊎◌, ◌↔◌, ◌<◌, ◌≤◌, List, Option, None, length, take, IsTrue, IsOk, IsErr, IfOk, OnOk, OnErr};
ghost use Rattle.std.specs.Io.KnownBytes.{Consumes, IsAtEnd};
ghost use Rattle.file_access.specs.Causes.{Rose, raised_count};
ghost use Rattle.file_access.specs.Outside.{IsMissing, Opens};
ghost use Rattle.serve_command.specs.Takes.{InputTake, Gave, Faulted, Begins, AddsTake};

use file_access::{Failed, FileSource, MemorySource, Sink, Source};
use std::rt::Files;

/// A source that is shown a sink at each take, so that the order of takes and puts is told: the puts between two takes are what the
/// sink has more at the later one. Neither object could tell it alone.
pub trait SourceBeside<K: Sink>: Source {
    /// The takes since the last `begin`, in order, where the source tells. After a call of `select` or `take` nothing is known of
    /// them.
    ghost takes: { Self → Option (List InputTake) };

    /// Selects the file of the name, as `select` does, and begins the takes.
    fn begin(&mut self, name: &str) -> Result<(), Failed>
        ensures held { Self.held self.new ≡ Self.held self.old }
        ensures current { IsTrue (Self.is_current self.new) ↔ IsOk result }
        ensures taken { Self.taken self.new ≡ 0 }
        ensures left { OnOk result (Opens (Self.held self.old) name.now (Self.left self.new)) }
        ensures selected { OnOk result (Self.selected self.new ≡ name.now) }
        ensures missing { IsMissing (Self.held self.old) name.now → IsErr result }
        ensures later { Self.faults self.old ≤ Self.faults self.new }
        ensures cause { OnErr result (Rose (Self.faults self.old) (Self.faults self.new)
            ⊎ IsMissing (Self.held self.old) name.now) }
        ensures begins { Begins (takes self.new) };

    /// Fills the front of the buffer with the next bytes, as `take` does, beside the sink: this take stands behind what the sink has
    /// by now.
    fn take_beside(&mut self, sink: &K, buf: &mut [u8]) -> Result<usize, Failed>
        requires room { 0 < length buf.old }
        requires current { IsTrue (Self.is_current self.old) }
        ensures held { Self.held self.new ≡ Self.held self.old }
        ensures current { Self.is_current self.new ≡ Self.is_current self.old }
        ensures selected { Self.selected self.new ≡ Self.selected self.old }
        ensures bound { IfOk result (λ n. n ≤ length buf.old) }
        ensures taken_ok { IfOk result
            (λ n. Self.taken self.new ≡ raised_count (Self.taken self.old) n) }
        ensures taken_err { OnErr result (Self.taken self.new ≡ Self.taken self.old) }
        ensures bytes { IfOk result (λ n. Consumes (Self.left self.old) (Self.left self.new)
            (take n buf.new)) }
        ensures end { IfOk result (λ n. n ≡ 0 → IsAtEnd (Self.left self.old)) }
        ensures later { Self.faults self.old ≤ Self.faults self.new }
        ensures cause { OnErr result (Rose (Self.faults self.old) (Self.faults self.new)) }
        ensures gave { IfOk result (λ n. AddsTake (takes self.old) (takes self.new)
            (Gave (K.written sink.now) (take n buf.new))) }
        ensures faulted { OnErr result (AddsTake (takes self.old) (takes self.new)
            (Faulted (K.written sink.now))) };
}

/// Selects a file of a source.
fn select_of<S: Source>(source: &mut S, name: &str) -> Result<(), Failed>
    ensures held { S.held source.new ≡ S.held source.old }
    ensures current { IsTrue (S.is_current source.new) ↔ IsOk result }
    ensures taken { S.taken source.new ≡ 0 }
    ensures left { OnOk result (Opens (S.held source.old) name.now (S.left source.new)) }
    ensures selected { OnOk result (S.selected source.new ≡ name.now) }
    ensures missing { IsMissing (S.held source.old) name.now → IsErr result }
    ensures later { S.faults source.old ≤ S.faults source.new }
    ensures cause { OnErr result (Rose (S.faults source.old) (S.faults source.new)
        ⊎ IsMissing (S.held source.old) name.now) }
{
    source.select(name)
}

/// Takes the next bytes of the current file of a source.
fn take_of<S: Source>(source: &mut S, buf: &mut [u8]) -> Result<usize, Failed>
    requires room { 0 < length buf.old }
    requires current { IsTrue (S.is_current source.old) }
    ensures held { S.held source.new ≡ S.held source.old }
    ensures current { S.is_current source.new ≡ S.is_current source.old }
    ensures selected { S.selected source.new ≡ S.selected source.old }
    ensures bound { IfOk result (λ n. n ≤ length buf.old) }
    ensures taken_ok { IfOk result (λ n. S.taken source.new ≡ raised_count (S.taken source.old) n) }
    ensures taken_err { OnErr result (S.taken source.new ≡ S.taken source.old) }
    ensures bytes { IfOk result (λ n. Consumes (S.left source.old) (S.left source.new)
        (take n buf.new)) }
    ensures end { IfOk result (λ n. n ≡ 0 → IsAtEnd (S.left source.old)) }
    ensures later { S.faults source.old ≤ S.faults source.new }
    ensures cause { OnErr result (Rose (S.faults source.old) (S.faults source.new)) }
{
    source.take(buf)
}

/// The system's files tell nothing of their takes.
impl<R: Files + Input + AllocGlobal, K: Sink> SourceBeside<K> for FileSource<R> {
    ghost takes = { λ _. None };

    fn begin(&mut self, name: &str) -> Result<(), Failed> {
        select_of(self, name)
    }

    fn take_beside(&mut self, _sink: &K, buf: &mut [u8]) -> Result<usize, Failed> {
        take_of(self, buf)
    }
}

/// Files in memory tell nothing of their takes.
impl<K: Sink> SourceBeside<K> for MemorySource {
    ghost takes = { λ _. None };

    fn begin(&mut self, name: &str) -> Result<(), Failed> {
        select_of(self, name)
    }

    fn take_beside(&mut self, _sink: &K, buf: &mut [u8]) -> Result<usize, Failed> {
        take_of(self, buf)
    }
}
