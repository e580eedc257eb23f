//! A driver that is given the inputs of a file.
ghost use Rattle.std.specs.Prelude.{◌≡◌, Ok, MatchResult};
ghost use Rattle.net_base.specs.Reading.{Fails};
ghost use Rattle.driver_input.specs.Inputs.{AreInputs};
ghost use Rattle.driver_input.specs.Lines.{IsInput};
ghost use Rattle.drive_command.specs.declared.driving.DriveFault.TheVariants as fault;
ghost use Rattle.drive_command.specs.Driving as driving;

use driver_input::{Input, InputLine};
use net_base::Memory;
use update_driver::{Driver, StartFault};

/// Why a driver wasn't given all inputs.
#[derive(Clone, Copy, Debug, PartialEq, Eq)]
pub enum DriveFault {
    /// The start in the line of this number is refused.
    NotARun(u32),
    /// Memory was wanting.
    Memory,
}

impl From<Memory> for DriveFault {
    ghost from_gives = { λ _ e. e ≡ fault.Memory };

    fn from(_: Memory) -> DriveFault {
        DriveFault::Memory
    }
}

/// Begins the next round, as this line wants it.
fn give_start(driver: &mut Driver<'_>, line: u32) -> Result<(), DriveFault>
    ensures read { let read = driving.after_input driver.old.net driver.old.rounds line Input.Start
        driver.old.state in
        MatchResult result (λ _. read ≡ Ok driver.new.state) (λ e. Fails fault.Memory e read) }
    ensures net { driver.new.net ≡ driver.old.net }
    ensures rounds { driver.new.rounds ≡ driver.old.rounds }
{
    match driver.start() {
        Ok(()) => Ok(()),
        Err(StartFault::Memory) => Err(DriveFault::Memory),
        Err(StartFault::Running | StartFault::Finished | StartFault::NotOpen(_)) => {
            Err(DriveFault::NotARun(line))
        }
    }
}

/// Gives the driver the input of a line.
fn give(driver: &mut Driver<'_>, line: &InputLine) -> Result<(), DriveFault>
    requires { IsInput driver.old.net line.now.input }
    ensures read { let read = driving.after_input driver.old.net driver.old.rounds line.now.line
        line.now.input driver.old.state in
        MatchResult result (λ _. read ≡ Ok driver.new.state) (λ e. Fails fault.Memory e read) }
    ensures net { driver.new.net ≡ driver.old.net }
    ensures rounds { driver.new.rounds ≡ driver.old.rounds }
{
    match &line.input {
        Input::Start => give_start(driver, line.line),
        Input::Feed(switch, piece) => {
            driver.feed(*switch, piece.bytes())?;
            Ok(())
        }
    }
}

/// Gives the driver the inputs, one after the other, up to the first start that is refused.
pub fn give_all(driver: &mut Driver<'_>, inputs: &[InputLine]) -> Result<(), DriveFault>
    requires { AreInputs driver.old.net inputs.now }
    ensures read { let read = driving.after_inputs driver.old.net driver.old.rounds driver.old.state
        inputs.now in
        MatchResult result (λ _. read ≡ Ok driver.new.state) (λ e. Fails fault.Memory e read) }
    ensures net { driver.new.net ≡ driver.old.net }
    ensures rounds { driver.new.rounds ≡ driver.old.rounds }
{
    for line in inputs {
        give(driver, line)?;
    }
    Ok(())
}
