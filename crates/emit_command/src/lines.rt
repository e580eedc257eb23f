//! Writing the lines: one text grows, and nothing is kept besides.
ghost use Rattle.std.specs.Prelude.{◌≡◌, ◌≤◌, ◌<◌, ◌+◌, ◌*◌, ◌++◌, ◌^◌, ◌∷◌, [], length, map, filter, sum_by, IfOk, OnOk};
ghost use Rattle.std.specs.List.{AllByRecursion};
ghost use Rattle.net_base.specs.Switches.{has, most_switches};
ghost use Rattle.update_model.specs.Ranges.{IsPlanChange};
ghost use Rattle.round_messages.specs.Requests.{change_request, barrier_request, round_requests, requests_from, switches_of};
ghost use Rattle.emit_command.specs.Lines.{line, emit_text};
ghost use Rattle.emit_command.specs.Written.{AddsLines};

use command_base::switch_name;
use net_base::{Memory, SwitchId, SwitchSet};
use openflow10::{encode_barrier, encode_change};
use round_messages::changed_switches;
use std::alloc::Global;
use topology::Net;
use update_model::{Change, Rounds};

/// The text so far, and the xid of the next message.
#[derive(Drop)]
pub struct Lines {
    pub text: Vec<u8>,
    pub xid: u32,
}

/// Appends the line of a message to a switch in a round, which counts from 0.
fn push_line(
    text: &mut Vec<u8>,
    alloc: Global,
    round: usize,
    name: &str,
    message: &[u8],
) -> Result<(), Memory>
    requires { round < 4200 }
    ensures { OnOk result (text.new.items ≡ text.old.items ++ line round name.now message.now) }
{
    let number = round + 1;
    let front = format!(in alloc; "{number} {name} ")?;
    text.extend_from_slice(front.as_bytes())?;
    let digits = hex::encode(alloc, message)?;
    text.extend_from_slice(digits.as_bytes())?;
    text.push(b'\n')?;
    Ok(())
}

impl Lines {
    /// The line of a change.
    fn add_change(
        &mut self,
        alloc: Global,
        net: &Net,
        round: usize,
        change: &Change,
    ) -> Result<(), Memory>
        requires round { round < 4200 }
        requires plan { IsPlanChange net.now change.now }
        requires xid { self.old.xid + 1 < 2 ^ 32 }
        ensures { OnOk result
            (AddsLines net.now (change_request round change.now ∷ []) self.old self.new) }
    {
        let message = encode_change(alloc, change, self.xid)?;
        let name = switch_name(net, change.switch());
        push_line(&mut self.text, alloc, round, name, &message)?;
        self.xid += 1;
        Ok(())
    }

    /// The line of a barrier request.
    fn add_barrier(
        &mut self,
        alloc: Global,
        net: &Net,
        round: usize,
        switch: SwitchId,
    ) -> Result<(), Memory>
        requires round { round < 4200 }
        requires xid { self.old.xid + 1 < 2 ^ 32 }
        ensures { OnOk result
            (AddsLines net.now (barrier_request round switch ∷ []) self.old self.new) }
    {
        let message = encode_barrier(self.xid);
        let name = switch_name(net, switch);
        push_line(&mut self.text, alloc, round, name, &message)?;
        self.xid += 1;
        Ok(())
    }

    /// The lines of changes.
    fn add_changes(
        &mut self,
        alloc: Global,
        net: &Net,
        round: usize,
        changes: &[Change],
    ) -> Result<(), Memory>
        requires round { round < 4200 }
        requires plan { AllByRecursion (IsPlanChange net.now) changes.now }
        requires xids { self.old.xid + length changes.now < 2 ^ 32 }
        ensures { OnOk result
            (AddsLines net.now (map (change_request round) changes.now) self.old self.new) }
    {
        for change in changes {
            self.add_change(alloc, net, round, change)?;
        }
        Ok(())
    }

    /// The lines of a barrier request for each switch that has a change, ascending.
    fn add_barriers(
        &mut self,
        alloc: Global,
        net: &Net,
        round: usize,
        changed: SwitchSet,
    ) -> Result<(), Memory>
        requires round { round < 4200 }
        requires xids { self.old.xid + most_switches < 2 ^ 32 }
        ensures { OnOk result
            (AddsLines net.now
            (map (barrier_request round) (filter (has changed) (switches_of net.now)))
            self.old self.new) }
    {
        for number in 0..net.switches() {
            let switch = SwitchId(number);
            if changed.has(switch) {
                self.add_barrier(alloc, net, round, switch)?;
            }
        }
        Ok(())
    }

    /// The lines of a round.
    fn add_round(
        &mut self,
        alloc: Global,
        net: &Net,
        round: usize,
        changes: &[Change],
    ) -> Result<(), Memory>
        requires round { round < 4200 }
        requires plan { AllByRecursion (IsPlanChange net.now) changes.now }
        requires xids { self.old.xid + length changes.now + most_switches < 2 ^ 32 }
        ensures { OnOk result
            (AddsLines net.now (round_requests net.now round changes.now) self.old self.new) }
    {
        net.keeps_rules();
        let changed = changed_switches(changes);
        self.add_changes(alloc, net, round, changes)?;
        self.add_barriers(alloc, net, round, changed)?;
        Ok(())
    }
}

/// The lines of the messages that carry out rounds, in a time that is proportional to the text.
pub fn emit_lines(alloc: Global, net: &Net, rounds: &Rounds) -> Result<Vec<u8>, Memory>
    requires few_rounds { length rounds.now ≤ 4200 }
    requires few_changes { sum_by length rounds.now ≤ 2200000 }
    requires plan { AllByRecursion (AllByRecursion (IsPlanChange net.now)) rounds.now }
    ensures { IfOk result (λ t. t.items ≡ emit_text net.now rounds.now) }
{
    net.keeps_rules();
    let mut lines = Lines {
        text: Vec::new(alloc),
        xid: 1,
    };
    for k in 0..rounds.count() {
        lines.add_round(alloc, net, k, rounds.round(k))?;
    }
    let Lines { text, xid: _ } = lines;
    Ok(text)
}
