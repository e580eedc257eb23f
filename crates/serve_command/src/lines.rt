//! Lines are served as their bytes come.
ghost use Rattle.std.specs.Prelude.{◌≡◌, ◌≤◌, ◌++◌, ◌∷◌, [], ℕ, List, Option, IfErr, OnOk, IsErrOf};
ghost use Rattle.std.specs.Io.KnownBytes.{Appends};
ghost use Rattle.file_access.specs.Causes.{Rose};
ghost use Rattle.two_way_driver.specs.Calls.{DriverView};
ghost use Rattle.serve_lines.specs.Lines.{ended_lines, lines_in};
ghost use Rattle.serve_command.specs.Served.{after_line, line_block, blocks};
ghost use Rattle.serve_command.specs.Stops.{Suits, StopsLine, StopsAt, HasServed};

use crate::answers::answer;
use crate::fault::ServeFault;
use crate::served_update::ServedUpdate;
use file_access::{Sink, WriteFault, pour};
use serve_lines::OpenLine;
use two_way_driver::Driver;

/// A driver, and the line to it that isn't ended yet.
#[derive(Drop)]
pub struct Desk<'a> {
    pub driver: Driver<'a>,
    pub line: OpenLine,
}

/// Writes a block.
pub fn write_block<K: Sink>(sink: &mut K, block: &[u8]) -> Result<(), ServeFault>
    ensures all { OnOk result (Appends (K.written sink.old) (K.written sink.new) block.now) }
    ensures front { IfErr result
        (StopsLine (K.written sink.old) (K.written sink.new) block.now) }
    ensures cause { IsErrOf result ServeFault.WriteFault
        → Rose (K.faults sink.old) (K.faults sink.new) }
    ensures later { K.faults sink.old ≤ K.faults sink.new }
{
    match pour(sink, block) {
        Ok(()) => Ok(()),
        Err(WriteFault) => Err(ServeFault::WriteFault),
    }
}

/// Serves a line.
fn serve_line<K: Sink>(
    update: &ServedUpdate<'_>,
    driver: &mut Driver<'_>,
    sink: &mut K,
    line: &[u8],
) -> Result<(), ServeFault>
    requires { Suits update.now driver.old }
    ensures all { OnOk result
        (Appends (K.written sink.old) (K.written sink.new) (line_block driver.old line.now)) }
    ensures behind { OnOk result (driver.new ≡ after_line driver.old line.now) }
    ensures suits { OnOk result (Suits update.now driver.new) }
    ensures front { IfErr result
        (StopsLine (K.written sink.old) (K.written sink.new) (line_block driver.old line.now)) }
    ensures cause { IsErrOf result ServeFault.WriteFault
        → Rose (K.faults sink.old) (K.faults sink.new) }
    ensures later { K.faults sink.old ≤ K.faults sink.new }
{
    let block = answer(update, driver, line)?;
    let written = write_block(sink, &block);
    drop(block);
    written
}

/// Serves the line that a line end ends.
fn serve_ended<K: Sink>(
    update: &ServedUpdate<'_>,
    desk: &mut Desk<'_>,
    sink: &mut K,
) -> Result<(), ServeFault>
    requires { Suits update.now desk.old.driver }
    ensures suits { OnOk result (Suits update.now desk.new.driver) }
    ensures served { OnOk result ((v : DriverView) (old : Option (List ℕ)) (bytes : List ℕ)
        → HasServed v old (K.written sink.old) bytes desk.old.driver desk.old.line
        → HasServed v old (K.written sink.new) (bytes ++ 10 ∷ []) desk.new.driver
        desk.new.line) }
    ensures stops { IfErr result (λ stop. (v : DriverView) (old : Option (List ℕ)) (bytes : List ℕ)
        → HasServed v old (K.written sink.old) bytes desk.old.driver desk.old.line
        → StopsAt (blocks v) old (K.written sink.new) (ended_lines (bytes ++ 10 ∷ [])) stop) }
    ensures cause { IsErrOf result ServeFault.WriteFault
        → Rose (K.faults sink.old) (K.faults sink.new) }
    ensures later { K.faults sink.old ≤ K.faults sink.new }
{
    serve_line(update, &mut desk.driver, sink, desk.line.bytes())?;
    desk.line.clear();
    Ok(())
}

/// Serves the line that a byte ends, or keeps the byte.
fn serve_byte<K: Sink>(
    update: &ServedUpdate<'_>,
    desk: &mut Desk<'_>,
    sink: &mut K,
    byte: u8,
) -> Result<(), ServeFault>
    requires { Suits update.now desk.old.driver }
    ensures suits { OnOk result (Suits update.now desk.new.driver) }
    ensures served { OnOk result ((v : DriverView) (old : Option (List ℕ)) (bytes : List ℕ)
        → HasServed v old (K.written sink.old) bytes desk.old.driver desk.old.line
        → HasServed v old (K.written sink.new) (bytes ++ byte ∷ []) desk.new.driver
        desk.new.line) }
    ensures stops { IfErr result (λ stop. (v : DriverView) (old : Option (List ℕ)) (bytes : List ℕ)
        → HasServed v old (K.written sink.old) bytes desk.old.driver desk.old.line
        → StopsAt (blocks v) old (K.written sink.new) (ended_lines (bytes ++ byte ∷ [])) stop) }
    ensures cause { IsErrOf result ServeFault.WriteFault
        → Rose (K.faults sink.old) (K.faults sink.new) }
    ensures later { K.faults sink.old ≤ K.faults sink.new }
{
    if byte == b'\n' {
        return serve_ended(update, desk, sink);
    }
    desk.line.push(byte)?;
    Ok(())
}

/// Serves the lines that a piece of the input ends, one after the other, and keeps what stands behind the last line end.
pub fn serve_piece<K: Sink>(
    update: &ServedUpdate<'_>,
    desk: &mut Desk<'_>,
    sink: &mut K,
    piece: &[u8],
) -> Result<(), ServeFault>
    requires { Suits update.now desk.old.driver }
    ensures suits { OnOk result (Suits update.now desk.new.driver) }
    ensures served { OnOk result ((v : DriverView) (old : Option (List ℕ)) (bytes : List ℕ)
        → HasServed v old (K.written sink.old) bytes desk.old.driver desk.old.line
        → HasServed v old (K.written sink.new) (bytes ++ piece.now) desk.new.driver
        desk.new.line) }
    ensures stops { IfErr result (λ stop. (v : DriverView) (old : Option (List ℕ)) (bytes : List ℕ)
        → HasServed v old (K.written sink.old) bytes desk.old.driver desk.old.line
        → StopsAt (blocks v) old (K.written sink.new) (ended_lines (bytes ++ piece.now)) stop) }
    ensures cause { IsErrOf result ServeFault.WriteFault
        → Rose (K.faults sink.old) (K.faults sink.new) }
    ensures later { K.faults sink.old ≤ K.faults sink.new }
{
    for byte in piece {
        serve_byte(update, desk, sink, *byte)?;
    }
    Ok(())
}

/// Serves the last line of the input where it lacks its line end; an empty one is none.
pub fn serve_last<K: Sink>(
    update: &ServedUpdate<'_>,
    desk: &mut Desk<'_>,
    sink: &mut K,
) -> Result<(), ServeFault>
    requires { Suits update.now desk.old.driver }
    ensures served { OnOk result ((v : DriverView) (old : Option (List ℕ)) (bytes : List ℕ)
        → HasServed v old (K.written sink.old) bytes desk.old.driver desk.old.line
        → Appends old (K.written sink.new) (blocks v (lines_in bytes))) }
    ensures stops { IfErr result (λ stop. (v : DriverView) (old : Option (List ℕ)) (bytes : List ℕ)
        → HasServed v old (K.written sink.old) bytes desk.old.driver desk.old.line
        → StopsAt (blocks v) old (K.written sink.new) (lines_in bytes) stop) }
    ensures cause { IsErrOf result ServeFault.WriteFault
        → Rose (K.faults sink.old) (K.faults sink.new) }
    ensures later { K.faults sink.old ≤ K.faults sink.new }
{
    let line = desk.line.bytes();
    if line.len() == 0 {
        return Ok(());
    }
    serve_line(update, &mut desk.driver, sink, line)
}
