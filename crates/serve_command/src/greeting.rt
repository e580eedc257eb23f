//! The block of line 0, and the input behind it.
ghost use Rattle.std.specs.Prelude.{◌≡◌, ◌⊎◌, ◌≤◌, ◌++◌, [], IfOk, IfErr, OnOk, IsErrOf};
ghost use Rattle.std.specs.Io.KnownBytes.{Appends};
ghost use Rattle.file_access.specs.Causes.{Rose};
ghost use Rattle.file_access.specs.Outside.{IsMissing};
ghost use Rattle.two_way_driver.specs.Calls.{silent_view};
ghost use Rattle.serve_command.specs.Served.{blocks, first_block};
ghost use Rattle.serve_command.specs.Stops.{Suits, StopsLine, EndsStandardInput, EndsServing, input_name};

use crate::beside::SourceBeside;
use crate::fault::ServeFault;
use crate::input::{serve_input, status_of};
use crate::lines::{Desk, write_block};
use crate::served_update::ServedUpdate;
use command_base::Status;
use file_access::{Failed, Sink};
use net_base::Memory;
use serve_lines::{LineOutcome, block_text};
use two_way_driver::Driver;

/// The name under which a source has the standard input.
const INPUT: &str = "/dev/stdin";

/// The block of line 0; the driver forgets what it said.
fn first_block(update: &ServedUpdate<'_>, driver: &mut Driver<'_>) -> Result<Vec<u8>, Memory>
    requires { Suits update.now driver.old }
    ensures block { IfOk result (λ t. t.items ≡ first_block driver.old) }
    ensures behind { OnOk result (driver.new ≡ silent_view driver.old) }
    ensures suits { OnOk result (Suits update.now driver.new) }
{
    let outcome = LineOutcome::Went(driver.stage());
    let block = block_text(
        update.alloc,
        update.net,
        update.rounds,
        driver.said(),
        outcome,
    )?;
    driver.forget();
    Ok(block)
}

/// Writes the block of line 0.
fn greet<K: Sink>(
    update: &ServedUpdate<'_>,
    driver: &mut Driver<'_>,
    sink: &mut K,
) -> Result<(), ServeFault>
    requires { Suits update.now driver.old }
    ensures all { OnOk result
        (Appends (K.written sink.old) (K.written sink.new) (first_block driver.old)) }
    ensures behind { OnOk result (driver.new ≡ silent_view driver.old) }
    ensures suits { OnOk result (Suits update.now driver.new) }
    ensures front { IfErr result
        (StopsLine (K.written sink.old) (K.written sink.new) (first_block driver.old)) }
    ensures cause { IsErrOf result ServeFault.WriteFault
        → Rose (K.faults sink.old) (K.faults sink.new) }
    ensures later { K.faults sink.old ≤ K.faults sink.new }
{
    let block = first_block(update, driver)?;
    let written = write_block(sink, &block);
    drop(block);
    written
}

/// Selects the standard input, and serves its lines.
fn serve_selected<S: SourceBeside<K>, K: Sink>(
    update: &ServedUpdate<'_>,
    desk: &mut Desk<'_>,
    source: &mut S,
    sink: &mut K,
) -> Status
    requires suits { Suits update.now desk.old.driver }
    requires fresh { desk.old.line ≡ [] }
    ensures ends { EndsStandardInput (blocks desk.old.driver) (S.held source.old)
        (K.written sink.old) (K.written sink.new) (S.taken source.new) (S.takes source.new)
        result }
    ensures held { S.held source.new ≡ S.held source.old }
    ensures read_fault { result ≡ Status.ReadFault
        → Rose (S.faults source.old) (S.faults source.new)
        ⊎ IsMissing (S.held source.old) input_name }
    ensures write_fault { result ≡ Status.WriteFault
        → Rose (K.faults sink.old) (K.faults sink.new) }
    ensures later_source { S.faults source.old ≤ S.faults source.new }
    ensures later_sink { K.faults sink.old ≤ K.faults sink.new }
{
    match source.begin(INPUT) {
        Ok(()) => serve_input(update, desk, source, sink),
        Err(Failed) => Status::ReadFault,
    }
}

/// Serves a driver that was just made: writes the block of line 0, and then that of each line of the standard input.
pub fn serve_desk<S: SourceBeside<K>, K: Sink>(
    update: &ServedUpdate<'_>,
    desk: &mut Desk<'_>,
    source: &mut S,
    sink: &mut K,
) -> Status
    requires suits { Suits update.now desk.old.driver }
    requires fresh { desk.old.line ≡ [] }
    ensures ends { EndsServing
        (λ lines. first_block desk.old.driver ++ blocks (silent_view desk.old.driver) lines)
        (S.held source.old) (K.written sink.old) (K.written sink.new) (S.taken source.new)
        (S.takes source.new) result }
    ensures held { S.held source.new ≡ S.held source.old }
    ensures read_fault { result ≡ Status.ReadFault
        → Rose (S.faults source.old) (S.faults source.new)
        ⊎ IsMissing (S.held source.old) input_name }
    ensures write_fault { result ≡ Status.WriteFault
        → Rose (K.faults sink.old) (K.faults sink.new) }
    ensures later_source { S.faults source.old ≤ S.faults source.new }
    ensures later_sink { K.faults sink.old ≤ K.faults sink.new }
{
    match greet(update, &mut desk.driver, sink) {
        Ok(()) => serve_selected(update, desk, source, sink),
        Err(stop) => status_of(stop),
    }
}
