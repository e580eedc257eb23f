//! The report on a driver.
ghost use Rattle.std.specs.Prelude.{◌≡◌, ◌<◌, ◌++◌, IfOk, OnOk, slice_index_or, [], length};
ghost use Rattle.topology.specs.Networks.{switch_count};
ghost use Rattle.net_base.specs.Lines.{text_of};
ghost use Rattle.drive_command.specs.Reports as reports;

use net_base::{Memory, SwitchId};
use schedule_replay::{add_line, events_text, phase_line, switch_text};
use std::alloc::Global;
use switch_session::{bytes_line, cause_line};
use topology::Net;
use update_driver::{Driver, Session};

/// Adds the line on a session, if it failed.
fn add_session(
    text: &mut Vec<u8>,
    alloc: Global,
    name: &str,
    session: Session,
) -> Result<(), Memory>
    ensures { OnOk result
        (text.new.items ≡ text.old.items ++ text_of (reports.session_lines name.now session)) }
{
    match session {
        Session::Waiting | Session::Open => Ok(()),
        Session::Failed(cause) => add_line(text, &cause_line(alloc, "# failed ", name, cause)?),
    }
}

/// Adds what was sent to each switch.
fn add_sent(text: &mut Vec<u8>, alloc: Global, net: &Net, driver: &Driver<'_>) -> Result<(), Memory>
    requires { driver.now.net ≡ net.now }
    ensures { OnOk result
        (text.new.items ≡ text.old.items
        ++ text_of (reports.by_switch (reports.sent_to driver.now.state) 0 net.now.names)) }
{
    for number in 0..net.switches() {
        let switch = SwitchId(number);
        let line = bytes_line(
            alloc,
            "# sent ",
            switch_text(net, switch),
            driver.sent(switch),
        )?;
        add_line(text, &line)?;
    }
    Ok(())
}

/// Adds which sessions failed.
fn add_sessions(
    text: &mut Vec<u8>,
    alloc: Global,
    net: &Net,
    driver: &Driver<'_>,
) -> Result<(), Memory>
    requires { driver.now.net ≡ net.now }
    ensures { OnOk result
        (text.new.items ≡ text.old.items
        ++ text_of (reports.by_switch (reports.session_of driver.now.state) 0 net.now.names)) }
{
    for number in 0..net.switches() {
        let switch = SwitchId(number);
        add_session(
            text,
            alloc,
            switch_text(net, switch),
            driver.session(switch),
        )?;
    }
    Ok(())
}

/// Adds the log, and how far the update of so many rounds is.
fn add_log(
    text: &mut Vec<u8>,
    alloc: Global,
    net: &Net,
    driver: &Driver<'_>,
    rounds: usize,
) -> Result<(), Memory>
    ensures { OnOk result
        (text.new.items ≡ text.old.items ++ reports.log_text net.now driver.now.state rounds) }
{
    text.extend_from_slice(&events_text(alloc, net, driver.log())?)?;
    text.extend_from_slice(b"# ")?;
    add_line(text, &phase_line(alloc, driver.phase(), rounds)?)
}

/// The report on a driver of so many rounds: what was sent to each switch, which sessions failed, the log as a schedule, and
/// how far the update is. The cost is that of the text.
pub fn report_text(
    alloc: Global,
    net: &Net,
    driver: &Driver<'_>,
    rounds: usize,
) -> Result<Vec<u8>, Memory>
    requires net { driver.now.net ≡ net.now }
    requires rounds { rounds ≡ length driver.now.rounds }
    ensures { IfOk result
        (λ t. t.items ≡ reports.report_text net.now driver.now.rounds driver.now.state) }
{
    let mut text = Vec::new(alloc);
    add_sent(&mut text, alloc, net, driver)?;
    add_sessions(&mut text, alloc, net, driver)?;
    add_log(&mut text, alloc, net, driver, rounds)?;
    Ok(text)
}
