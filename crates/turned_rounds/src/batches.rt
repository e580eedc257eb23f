//! The messages of a round, in the order in which they are sent.
ghost use Rattle.std.specs.Prelude.{◌≡◌, ◌∷◌, ◌++◌, [], length, if◌then◌else◌, IfOk, OnOk};
ghost use Rattle.std.specs.List.{AllByRecursion};
ghost use Rattle.topology.specs.Networks.{switch_count};
ghost use Rattle.update_model.specs.Ranges.{IsPlanChange};
ghost use Rattle.round_messages.specs.Requests.{is_changed, switch_numbered, switches_changed};
ghost use Rattle.turned_rounds.specs.Batches.{next_xid, next_if, xid_behind, change_message, barrier_message, change_messages, barrier_messages, batch_of, AreToSwitches};

use crate::outgoing::{Outgoing, Text};
use net_base::{Memory, SwitchId};
use openflow10::{encode_barrier, encode_change};
use round_messages::changed_switches;
use std::alloc::Global;
use topology::Net;
use update_model::Change;

/// Messages in the order in which they are sent, and the xid of the one behind them.
#[derive(Drop)]
pub struct Batch {
    pub list: Vec<Outgoing>,
    pub xid: u32,
}

/// The xid behind another: behind 4294967295 comes 1.
pub fn next_xid(xid: u32) -> u32
    ensures { result ≡ next_xid xid }
{
    if xid == u32::MAX { 1 } else { xid + 1 }
}

/// The xid behind another, if that is used.
pub fn next_if(used: bool, xid: u32) -> u32
    ensures { result ≡ next_if used xid }
{
    if used { next_xid(xid) } else { xid }
}

/// Whether a round has a change at the switch of this number. It looks at each change.
pub fn is_changed(round: &[Change], switch: u32) -> bool
    ensures { result ≡ is_changed round.now (switch_numbered switch) }
{
    round.iter().any(|change| change.switch().0 == switch)
}

impl Batch {
    /// One more message.
    fn push(&mut self, message: Outgoing) -> Result<(), Memory>
        ensures list { OnOk result (self.new.list.items ≡ self.old.list.items ++ message ∷ []) }
        ensures xid { OnOk result (self.new.xid ≡ next_xid self.old.xid) }
    {
        self.list.push(message)?;
        self.xid = next_xid(self.xid);
        Ok(())
    }

    /// The message of a change.
    fn put_change(&mut self, change: &Change, net: &Net) -> Result<(), Memory>
        requires { IsPlanChange net.now change.now }
        ensures list { OnOk result
            (self.new.list.items
            ≡ self.old.list.items ++ change_message self.old.xid change.now ∷ []) }
        ensures xid { OnOk result (self.new.xid ≡ next_xid self.old.xid) }
    {
        let bytes = encode_change(*self.list.allocator(), change, self.xid)?;
        self.push(Outgoing {
            switch: change.switch(),
            text: Text::make(bytes),
        })
    }

    /// A barrier request to a switch.
    fn put_barrier(&mut self, switch: SwitchId) -> Result<(), Memory>
        ensures list { OnOk result
            (self.new.list.items
            ≡ self.old.list.items ++ barrier_message self.old.xid switch ∷ []) }
        ensures xid { OnOk result (self.new.xid ≡ next_xid self.old.xid) }
    {
        let message = encode_barrier(self.xid);
        let bytes = Vec::from_slice(*self.list.allocator(), &message)?;
        self.push(Outgoing {
            switch,
            text: Text::make(bytes),
        })
    }

    /// The messages of all changes of a round.
    fn put_changes(&mut self, round: &[Change], net: &Net) -> Result<(), Memory>
        requires plan { AllByRecursion (IsPlanChange net.now) round.now }
        ensures list { OnOk result
            (self.new.list.items
            ≡ self.old.list.items ++ change_messages self.old.xid round.now) }
        ensures xid { OnOk result (self.new.xid ≡ xid_behind self.old.xid (length round.now)) }
    {
        for change in round {
            self.put_change(change, net)?;
        }
        Ok(())
    }

    /// A barrier request to a switch, if it has a change.
    fn put_if_changed(&mut self, changed: bool, switch: SwitchId) -> Result<(), Memory>
        ensures list { OnOk result
            (self.new.list.items
            ≡ self.old.list.items
            ++ barrier_messages self.old.xid (if changed then switch ∷ [] else [])) }
        ensures xid { OnOk result
            (self.new.xid
            ≡ xid_behind self.old.xid (length (if changed then switch ∷ [] else []))) }
    {
        if changed {
            return self.put_barrier(switch);
        }
        Ok(())
    }

    /// A barrier request to each switch with a change, ascending.
    fn put_barriers(&mut self, round: &[Change], net: &Net) -> Result<(), Memory>
        requires { AllByRecursion (IsPlanChange net.now) round.now }
        ensures list { OnOk result
            (self.new.list.items
            ≡ self.old.list.items
            ++ barrier_messages self.old.xid (switches_changed net.now round.now)) }
        ensures xid { OnOk result
            (self.new.xid
            ≡ xid_behind self.old.xid (length (switches_changed net.now round.now))) }
    {
        net.keeps_rules();
        let changed = changed_switches(round);
        for number in 0..net.switches() {
            let switch = SwitchId(number);
            self.put_if_changed(changed.has(switch), switch)?;
        }
        Ok(())
    }
}

/// The messages of a round, the first with this xid: its changes in order, then one barrier request to each switch with a
/// change, ascending. It costs a look at the changes and at the switches.
pub fn round_batch(alloc: Global, net: &Net, round: &[Change], xid: u32) -> Result<Batch, Memory>
    requires { AllByRecursion (IsPlanChange net.now) round.now }
    ensures list { IfOk result (λ b. b.list.items ≡ batch_of net.now xid round.now) }
    ensures within { IfOk result (λ b. AreToSwitches net.now b.list.items) }
    ensures xid { IfOk result
        (λ b. b.xid ≡ xid_behind xid (length (batch_of net.now xid round.now))) }
{
    let mut batch = Batch {
        list: Vec::new(alloc),
        xid,
    };
    batch.put_changes(round, net)?;
    batch.put_barriers(round, net)?;
    Ok(batch)
}
