//! What the start of a round is to each switch.
ghost use Rattle.std.specs.Prelude.{◌≡◌, ◌<◌, ◌≤◌, ◌+◌, ◌^◌, ℕ, length, IfOk, OnOk};
ghost use Rattle.std.specs.List.{AllByRecursion};
ghost use Rattle.net_base.specs.Switches.{most_switches};
ghost use Rattle.topology.specs.Networks.{switch_count};
ghost use Rattle.update_model.specs.Ranges.{IsPlanChange};
ghost use Rattle.round_messages.specs.Requests.{round_requests, sent_from};
ghost use Rattle.update_driver.specs.Inside.{IsEmptyTurn, AreEmpty, HoldTexts, PutsText, HoldMessages, ask_turn, asked_turns};

use net_base::{Memory, SwitchId, SwitchSet};
use round_messages::changed_switches;
use std::alloc::Global;
use topology::Net;
use turned_rounds::{Outgoing, next_if, round_batch};
use update_model::Change;

/// What the start of a round is to one switch.
#[derive(Drop)]
pub struct SwitchStart {
    /// The messages that are sent to it, one after the other.
    pub text: Vec<u8>,
    /// The xid of its barrier request; none where it has no change.
    pub barrier: Option<u32>,
}

/// What the start of a round is to each switch, and the xid of the next message.
#[derive(Drop)]
pub struct SwitchStarts {
    pub list: Vec<SwitchStart>,
    pub xid: u32,
}

/// The turn of a switch that gets no message.
fn no_turn(alloc: Global) -> SwitchStart
    ensures { IsEmptyTurn result }
{
    SwitchStart {
        text: Vec::new(alloc),
        barrier: None,
    }
}

/// The turns of so many switches that get no message.
fn no_turns(alloc: Global, switches: u32) -> Result<Vec<SwitchStart>, Memory>
    ensures empty { IfOk result (λ t. AreEmpty t.items) }
    ensures count { IfOk result (λ t. length t.items ≡ switches) }
{
    let mut turns = Vec::new(alloc);
    for _number in 0..switches {
        turns.push(no_turn(alloc))?;
    }
    Ok(turns)
}

/// Puts a message behind those to its switch.
fn put_message(turns: &mut Vec<SwitchStart>, message: &Outgoing) -> Result<(), Memory>
    requires { message.now.switch.0 < length turns.old.items }
    ensures { OnOk result (PutsText message.now turns.old.items turns.new.items) }
{
    let turn = &mut turns[message.switch.0 as usize];
    turn.text.extend_from_slice(message.text.bytes())?;
    Ok(())
}

/// Puts each message behind those to its switch.
fn put_messages(turns: &mut Vec<SwitchStart>, messages: &[Outgoing]) -> Result<(), Memory>
    requires empty { AreEmpty turns.old.items }
    requires within { AllByRecursion
        (λ (m : Outgoing). m.switch.0 < length turns.old.items) messages.now }
    ensures { OnOk result
        (HoldTexts messages.now (length turns.old.items) turns.new.items) }
{
    for message in messages {
        put_message(turns, message)?;
    }
    Ok(())
}

/// A switch gets a barrier request of this xid, if it has a change.
fn ask_if(turn: &mut SwitchStart, changed: bool, xid: u32)
    ensures { turn.new ≡ ask_turn changed xid turn.old }
{
    if changed {
        turn.barrier = Some(xid);
    }
}

/// Each of these switches gets a barrier request, of which the first has this xid.
fn put_barriers(turns: &mut Vec<SwitchStart>, changed: SwitchSet, first: u32)
    requires { length turns.old.items ≤ most_switches }
    ensures { turns.new.items ≡ asked_turns first changed 0 turns.old.items }
{
    let mut xid = first;
    for number in 0..turns.len() {
        let is_changed = changed.has(SwitchId(number as u32));
        ask_if(&mut turns[number], is_changed, xid);
        xid = next_if(is_changed, xid);
    }
}

/// What the start of a round is to each switch, where its first message has this xid.
pub(crate) fn turns_of(
    alloc: Global,
    net: &Net,
    changes: &[Change],
    xid: u32,
) -> Result<SwitchStarts, Memory>
    requires plan { AllByRecursion (IsPlanChange net.now) changes.now }
    requires xids { xid + length changes.now + switch_count net.now < 2 ^ 32 }
    ensures messages { IfOk result
        (λ t. (k : ℕ)
        → HoldMessages k (sent_from xid (round_requests net.now k changes.now)) t.list.items) }
    ensures count { IfOk result (λ t. length t.list.items ≡ switch_count net.now) }
    ensures xid { IfOk result
        (λ t. (k : ℕ) → t.xid ≡ xid + length (round_requests net.now k changes.now)) }
{
    net.keeps_rules();
    let batch = round_batch(alloc, net, changes, xid)?;
    let mut list = no_turns(alloc, net.switches())?;
    put_messages(&mut list, &batch.list)?;
    put_barriers(
        &mut list,
        changed_switches(changes),
        xid + changes.len() as u32,
    );
    Ok(SwitchStarts {
        list,
        xid: batch.xid,
    })
}
