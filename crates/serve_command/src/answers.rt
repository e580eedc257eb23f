//! A driver is given a line.
ghost use Rattle.std.specs.Prelude.{◌≡◌, ◌≢◌, IfOk, OnOk};
ghost use Rattle.serve_lines.specs.Lines.{IsLineOf, line_in};
ghost use Rattle.two_way_driver.specs.Calls.{IsServing};
ghost use Rattle.serve_command.specs.Served as served;
ghost use Rattle.serve_command.specs.Stops.{Suits};

use crate::served_update::ServedUpdate;
use net_base::Memory;
use serve_lines::{LineFault, LineOutcome, ServeLine, block_text, read_line};
use two_way_driver::{CallFault, Driver};

/// How a call ended that was refused.
fn refusal(fault: CallFault) -> Result<LineOutcome, Memory>
    ensures { IfOk result (λ o. (o ≡ served.refusal_of fault) × (fault ≢ CallFault.Memory)) }
{
    match fault {
        CallFault::Running => Ok(LineOutcome::Running),
        CallFault::Finished => Ok(LineOutcome::Finished),
        CallFault::NotBegun => Ok(LineOutcome::NotBegun),
        CallFault::NotOpen(switch) => Ok(LineOutcome::NotOpen(switch)),
        CallFault::Memory => Err(Memory),
    }
}

/// The next round starts, or the start is refused.
fn start(driver: &mut Driver<'_>) -> Result<LineOutcome, Memory>
    requires { IsServing driver.old }
    ensures ok { OnOk result (driver.new ≡ served.after_asked driver.old ServeLine.Start) }
    ensures outcome { IfOk result (λ o. o ≡ served.outcome_asked driver.old ServeLine.Start) }
    ensures serving { OnOk result (IsServing driver.new) }
{
    match driver.start() {
        Ok(()) => Ok(LineOutcome::Went(driver.stage())),
        Err(fault) => refusal(fault),
    }
}

/// The update turns back, or that is refused.
fn back(driver: &mut Driver<'_>) -> Result<LineOutcome, Memory>
    requires { IsServing driver.old }
    ensures ok { OnOk result (driver.new ≡ served.after_asked driver.old ServeLine.Back) }
    ensures outcome { IfOk result (λ o. o ≡ served.outcome_asked driver.old ServeLine.Back) }
    ensures serving { OnOk result (IsServing driver.new) }
{
    match driver.back() {
        Ok(()) => Ok(LineOutcome::Went(driver.stage())),
        Err(fault) => refusal(fault),
    }
}

/// The call that a line asks for.
fn carry_out(driver: &mut Driver<'_>, line: &ServeLine) -> Result<LineOutcome, Memory>
    requires serving { IsServing driver.old }
    requires line { IsLineOf driver.old.net line.now }
    ensures ok { OnOk result (driver.new ≡ served.after_asked driver.old line.now) }
    ensures outcome { IfOk result (λ o. o ≡ served.outcome_asked driver.old line.now) }
    ensures serving { OnOk result (IsServing driver.new) }
{
    match line {
        ServeLine::Comment => {}
        ServeLine::Start => return start(driver),
        ServeLine::Back => return back(driver),
        ServeLine::Reopen(switch) => driver.reopen(*switch)?,
        ServeLine::Feed(switch, piece) => driver.feed(*switch, piece.bytes())?,
        ServeLine::Dead(switch) => driver.dead(*switch)?,
    }
    Ok(LineOutcome::Went(driver.stage()))
}

/// What the driver makes of the bytes of a line.
fn give_line(
    update: &ServedUpdate<'_>,
    driver: &mut Driver<'_>,
    line: &[u8],
) -> Result<LineOutcome, Memory>
    requires { Suits update.now driver.old }
    ensures ok { OnOk result
        (driver.new ≡ served.after_read driver.old (line_in driver.old.net line.now)) }
    ensures outcome { IfOk result
        (λ o. o ≡ served.outcome_read driver.old (line_in driver.old.net line.now)) }
    ensures serving { OnOk result (IsServing driver.new) }
{
    match read_line(update.alloc, update.net, line) {
        Ok(asked) => {
            let outcome = carry_out(driver, &asked);
            drop(asked);
            outcome
        }
        Err(LineFault::Bad) => Ok(LineOutcome::BadLine),
        Err(LineFault::Memory) => Err(Memory),
    }
}

/// The block that answers a line; the driver forgets what it said. Where memory is wanting, the driver is of no use.
pub fn answer(
    update: &ServedUpdate<'_>,
    driver: &mut Driver<'_>,
    line: &[u8],
) -> Result<Vec<u8>, Memory>
    requires { Suits update.now driver.old }
    ensures block { IfOk result (λ t. t.items ≡ served.line_block driver.old line.now) }
    ensures behind { OnOk result (driver.new ≡ served.after_line driver.old line.now) }
    ensures suits { OnOk result (Suits update.now driver.new) }
{
    let outcome = give_line(update, driver, line)?;
    let block = block_text(
        update.alloc,
        update.net,
        update.rounds,
        driver.said(),
        outcome,
    )?;
    driver.forget();
    Ok(block)
}
