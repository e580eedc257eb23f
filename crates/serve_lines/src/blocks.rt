//! The block of text that answers a line.
ghost use Rattle.std.specs.Prelude.{◌≡◌, ◌++◌, ◌∷◌, [], IfOk, OnOk, map, codes};
ghost use Rattle.net_base.specs.Lines.{text_of};
ghost use Rattle.schedule_replay.specs.Traces.{phase_line};
ghost use Rattle.two_way_driver.specs.Laws.{phase_of};
ghost use Rattle.serve_lines.specs.Blocks as blocks;

use net_base::{Memory, SwitchId};
use schedule_replay::{add_line, switch_text};
use std::alloc::Global;
use switch_session::{bytes_line, cause_line};
use topology::Net;
use two_way_driver::{DriverEvent, DriverOutput, Stage};

/// How a line ended.
#[derive(Clone, Copy, Debug, PartialEq, Eq)]
pub enum LineOutcome {
    /// It was carried out, or was a comment, and the update is so far.
    Went(Stage),
    /// Refused: a round runs, or is already being taken back.
    Running,
    /// Refused: all rounds are settled.
    Finished,
    /// Refused: no round is settled, and none runs.
    NotBegun,
    /// Refused: this switch has a change in the round, isn't dead, and has no open session.
    NotOpen(SwitchId),
    /// The line has none of the forms of a line.
    BadLine,
}

/// The line on an event.
fn event_line(alloc: Global, event: DriverEvent) -> Result<Vec<u8>, Memory>
    ensures { IfOk result (λ t. t.items ≡ blocks.event_text event) }
{
    match event {
        DriverEvent::Start => Ok(b"start".to_vec(alloc)?),
        DriverEvent::Change(i) => Ok(format!(in alloc; "change {i}")?.into_bytes()),
        DriverEvent::Settle => Ok(b"settle".to_vec(alloc)?),
        DriverEvent::Back => Ok(b"back".to_vec(alloc)?),
        DriverEvent::Undo(i) => Ok(format!(in alloc; "undo {i}")?.into_bytes()),
        DriverEvent::SettleBack => Ok(b"settle".to_vec(alloc)?),
    }
}

/// The line on what a driver says.
fn said_line(alloc: Global, net: &Net, said: &DriverOutput) -> Result<Vec<u8>, Memory>
    ensures { IfOk result (λ t. t.items ≡ blocks.said_line net.now said.now) }
{
    match said {
        DriverOutput::Send(switch, text) => bytes_line(
            alloc,
            "send ",
            switch_text(net, *switch),
            text.bytes(),
        ),
        DriverOutput::Failed(switch, cause) => cause_line(
            alloc,
            "failed ",
            switch_text(net, *switch),
            *cause,
        ),
        DriverOutput::Log(event) => event_line(alloc, *event),
    }
}

/// Adds the line on what a driver says.
fn add_said_line(
    text: &mut Vec<u8>,
    alloc: Global,
    net: &Net,
    said: &DriverOutput,
) -> Result<(), Memory>
    ensures { OnOk result
        (text.new.items ≡ text.old.items ++ blocks.said_line net.now said.now ++ 10 ∷ []) }
{
    let line = said_line(alloc, net, said)?;
    let added = add_line(text, &line);
    drop(line);
    added
}

/// Adds the lines on what a driver says.
fn add_said(
    text: &mut Vec<u8>,
    alloc: Global,
    net: &Net,
    said: &[DriverOutput],
) -> Result<(), Memory>
    ensures { OnOk result
        (text.new.items ≡ text.old.items ++ text_of (map (blocks.said_line net.now) said.now)) }
{
    for one in said {
        add_said_line(text, alloc, net, one)?;
    }
    Ok(())
}

/// The line on an update of which so many rounds are settled.
fn settled_line(alloc: Global, rounds: usize, k: u32) -> Result<Vec<u8>, Memory>
    ensures { IfOk result
        (λ t. t.items ≡ codes "ok " ++ phase_line (phase_of (Stage.Settled k)) rounds) }
{
    Ok(format!(in alloc; "ok settled {k} of {rounds}")?.into_bytes())
}

/// The line on an update whose round behind so many others runs.
fn running_line(alloc: Global, rounds: usize, k: u32) -> Result<Vec<u8>, Memory>
    ensures { IfOk result
        (λ t. t.items ≡ codes "ok " ++ phase_line (phase_of (Stage.Onward k)) rounds) }
{
    let number = k as u64 + 1;
    Ok(format!(in alloc; "ok running {number} of {rounds}")?.into_bytes())
}

/// The line on how far an update of so many rounds is.
fn stage_line(alloc: Global, rounds: usize, stage: Stage) -> Result<Vec<u8>, Memory>
    ensures { IfOk result
        (λ t. t.items ≡ codes "ok " ++ phase_line (phase_of stage) rounds) }
{
    match stage {
        Stage::Settled(k) => settled_line(alloc, rounds, k),
        Stage::Onward(k) => running_line(alloc, rounds, k),
        Stage::Undone(k) => running_line(alloc, rounds, k),
    }
}

/// The line on a session that isn't open, with a switch of this name.
fn not_open_line(alloc: Global, name: &str) -> Result<Vec<u8>, Memory>
    ensures { IfOk result (λ t. t.items ≡ codes "no open " ++ name.now) }
{
    Ok(format!(in alloc; "no open {name}")?.into_bytes())
}

/// The last line of a block.
fn outcome_line(
    alloc: Global,
    net: &Net,
    rounds: usize,
    outcome: LineOutcome,
) -> Result<Vec<u8>, Memory>
    ensures { IfOk result (λ t. t.items ≡ blocks.outcome_line net.now rounds outcome) }
{
    match outcome {
        LineOutcome::Went(stage) => stage_line(alloc, rounds, stage),
        LineOutcome::Running => Ok(b"no running".to_vec(alloc)?),
        LineOutcome::Finished => Ok(b"no finished".to_vec(alloc)?),
        LineOutcome::NotBegun => Ok(b"no begun".to_vec(alloc)?),
        LineOutcome::NotOpen(switch) => not_open_line(alloc, switch_text(net, switch)),
        LineOutcome::BadLine => Ok(b"bad line".to_vec(alloc)?),
    }
}

/// Adds the last line of a block.
fn add_outcome(
    text: &mut Vec<u8>,
    alloc: Global,
    net: &Net,
    rounds: usize,
    outcome: LineOutcome,
) -> Result<(), Memory>
    ensures { OnOk result
        (text.new.items
        ≡ text.old.items ++ blocks.outcome_line net.now rounds outcome ++ 10 ∷ []) }
{
    let line = outcome_line(alloc, net, rounds, outcome)?;
    let added = add_line(text, &line);
    drop(line);
    added
}

/// The block of a line over an update of so many rounds: what the driver says, a line each in order, and last how the line
/// ended. A switch that the network doesn't have would be named by nothing. The cost is that of the text.
pub fn block_text(
    alloc: Global,
    net: &Net,
    rounds: usize,
    said: &[DriverOutput],
    outcome: LineOutcome,
) -> Result<Vec<u8>, Memory>
    ensures { IfOk result
        (λ t. t.items ≡ blocks.block_text net.now rounds said.now outcome) }
{
    let mut text = Vec::new(alloc);
    add_said(&mut text, alloc, net, said)?;
    add_outcome(&mut text, alloc, net, rounds, outcome)?;
    Ok(text)
}
