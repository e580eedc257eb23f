//! The input is taken piece by piece, and its lines are served.
ghost use Rattle.std.specs.Prelude.{◌≡◌, ◌≢◌, ◌≤◌, [], ℕ, List, Option, IsTrue, true};
ghost use Rattle.file_access.specs.Causes.{Rose};
ghost use Rattle.two_way_driver.specs.Calls.{DriverView};
ghost use Rattle.serve_command.specs.Served.{blocks};
ghost use Rattle.serve_command.specs.Takes.{Begins};
ghost use Rattle.serve_command.specs.Stops.{Suits, HasServed, AreAll, EndsAfter, EndsInput, status_of};

use crate::beside::SourceBeside;
use crate::fault::ServeFault;
use crate::lines::{Desk, serve_last, serve_piece};
use crate::served_update::ServedUpdate;
use command_base::Status;
use file_access::{Failed, Sink};

const PIECE: usize = 4096;

/// The status of a run that a line stops.
pub fn status_of(stop: ServeFault) -> Status
    ensures { result ≡ status_of stop }
{
    match stop {
        ServeFault::WriteFault => Status::WriteFault,
        ServeFault::Memory => Status::Memory,
    }
}

/// Serves what stands behind the last line end, at the end of the input.
fn serve_end<K: Sink>(update: &ServedUpdate<'_>, desk: &mut Desk<'_>, sink: &mut K) -> Status
    requires { Suits update.now desk.old.driver }
    ensures ends { (v : DriverView) (input old : Option (List ℕ)) (bytes : List ℕ)
        → AreAll input bytes
        → HasServed v old (K.written sink.old) bytes desk.old.driver desk.old.line
        → EndsAfter (blocks v) input old (K.written sink.new) bytes true result }
    ensures no_read_fault { result ≢ Status.ReadFault }
    ensures write_fault { result ≡ Status.WriteFault
        → Rose (K.faults sink.old) (K.faults sink.new) }
    ensures later { K.faults sink.old ≤ K.faults sink.new }
{
    match serve_last(update, desk, sink) {
        Ok(()) => Status::Done,
        Err(stop) => status_of(stop),
    }
}

/// Serves the lines of the current file of the source, up to its end: the blocks of all lines that are ended are put before the next
/// take. Behind 2^64 - 1 takes it ends as for want of memory.
pub fn serve_input<S: SourceBeside<K>, K: Sink>(
    update: &ServedUpdate<'_>,
    desk: &mut Desk<'_>,
    source: &mut S,
    sink: &mut K,
) -> Status
    requires suits { Suits update.now desk.old.driver }
    requires fresh { desk.old.line ≡ [] }
    requires current { IsTrue (S.is_current source.old) }
    requires untaken { S.taken source.old ≡ 0 }
    requires begun { Begins (S.takes source.old) }
    ensures ends { EndsInput (blocks desk.old.driver) (S.left source.old) (K.written sink.old)
        (K.written sink.new) (S.taken source.new) (S.takes source.new) result }
    ensures selected { S.selected source.new ≡ S.selected source.old }
    ensures held { S.held source.new ≡ S.held source.old }
    ensures read_fault { result ≡ Status.ReadFault
        → Rose (S.faults source.old) (S.faults source.new) }
    ensures write_fault { result ≡ Status.WriteFault
        → Rose (K.faults sink.old) (K.faults sink.new) }
    ensures later_source { S.faults source.old ≤ S.faults source.new }
    ensures later_sink { K.faults sink.old ≤ K.faults sink.new }
{
    let mut piece = [0u8; PIECE];
    'takes: for _ in 0..u64::MAX {
        match source.take_beside(sink, &mut piece) {
            Err(Failed) => return Status::ReadFault,
            Ok(0) => return serve_end(update, desk, sink),
            Ok(count) => match serve_piece(update, desk, sink, &piece[..count]) {
                Ok(()) => {}
                Err(stop) => return status_of(stop),
            },
        }
    }
    Status::Memory
}
