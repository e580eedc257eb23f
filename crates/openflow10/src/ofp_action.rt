//! The actions of a flow message (OpenFlow 1.0.0, section 5.2.4).
ghost use Rattle.std.specs.Prelude.{◌≡◌, ◌+◌, ◌*◌, ◌≤◌, length};
ghost use Rattle.openflow10.specs.Actions.{action_at, actions_at, action_in, output_in, rewrite_in, is_port, is_output, is_set_vlan_vid, is_strip_vlan};

use crate::numbers::u16_at;
use flow_rules::{Action, Rewrite};
use net_base::{MAX_PORT, Port};
use topology::is_vlan_id;

/// OFPAT_OUTPUT: sends to a port.
pub(crate) const OUTPUT: u16 = 0;

/// OFPAT_SET_VLAN_VID: sets the VLAN id.
pub(crate) const SET_VLAN_VID: u16 = 1;

/// OFPAT_STRIP_VLAN: strips the tag.
pub(crate) const STRIP_VLAN: u16 = 3;

/// How many bytes each of these actions has.
pub(crate) const ACTION_LENGTH: u16 = 8;

/// The fields of an action of 8 bytes: its type, its length, the port or the VLAN id, and `max_len` or a pad.
#[derive(Clone, Copy)]
pub struct ActionFields {
    pub kind: u16,
    pub len: u16,
    pub argument: u16,
    pub rest: u16,
}

/// Whether the number is that of a port of a switch, 1 to 65279 (OpenFlow 1.0.0, section 5.2.1).
#[tactic(auto, unfolding(crate::specs::Actions::is_port))]
pub fn is_port(number: u16) -> bool
    ensures { result ≡ is_port number }
{
    1 <= number && u64::from(number) <= MAX_PORT
}

impl ActionFields {
    /// The action in the 8 bytes from an offset on.
    pub fn read(bytes: &[u8], at: usize) -> ActionFields
        requires { at + 8 ≤ length bytes.now }
        ensures { result ≡ action_at at bytes.now }
    {
        ActionFields {
            kind: u16_at(bytes, at),
            len: u16_at(bytes, at + 2),
            argument: u16_at(bytes, at + 4),
            rest: u16_at(bytes, at + 6),
        }
    }

    #[tactic(auto, unfolding(crate::specs::Actions::is_output))]
    fn is_output(&self) -> bool
        ensures { result ≡ is_output self.now }
    {
        self.kind == OUTPUT && self.len == ACTION_LENGTH && is_port(self.argument) && self.rest == 0
    }

    #[tactic(auto, unfolding(crate::specs::Actions::is_set_vlan_vid))]
    fn is_set_vlan_vid(&self) -> bool
        ensures { result ≡ is_set_vlan_vid self.now }
    {
        self.kind == SET_VLAN_VID
            && self.len == ACTION_LENGTH
            && is_vlan_id(u64::from(self.argument))
            && self.rest == 0
    }

    #[tactic(auto, unfolding(crate::specs::Actions::is_strip_vlan))]
    fn is_strip_vlan(&self) -> bool
        ensures { result ≡ is_strip_vlan self.now }
    {
        self.kind == STRIP_VLAN && self.len == ACTION_LENGTH && self.argument == 0 && self.rest == 0
    }

    /// The port of an output.
    fn output(&self) -> Option<Port>
        ensures { result ≡ output_in self.now }
    {
        if self.is_output() {
            Some(Port(self.argument))
        } else {
            None
        }
    }

    /// The rewrite of an action that stands before an output.
    fn rewrite(&self) -> Option<Rewrite>
        ensures { result ≡ rewrite_in self.now }
    {
        if self.is_set_vlan_vid() {
            Some(Rewrite::Set(self.argument))
        } else if self.is_strip_vlan() {
            Some(Rewrite::Strip)
        } else {
            None
        }
    }
}

/// What the actions of a flow message do, where they have one of the forms that are written: none, an output, or a rewrite
/// and an output.
pub(crate) fn read_actions(bytes: &[u8], count: usize) -> Option<Action>
    requires few { count ≤ 2 }
    requires room { 72 + 8 * count ≤ length bytes.now }
    ensures { result ≡ action_in (actions_at count 72 bytes.now) }
{
    match count {
        0 => Some(Action::Discard),
        1 => {
            let port = ActionFields::read(bytes, 72).output()?;
            Some(Action::Out(port, Rewrite::Keep))
        }
        _ => {
            let rewrite = ActionFields::read(bytes, 72).rewrite()?;
            let port = ActionFields::read(bytes, 80).output()?;
            Some(Action::Out(port, rewrite))
        }
    }
}
