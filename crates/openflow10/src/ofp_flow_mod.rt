//! The fixed part of a flow message (OpenFlow 1.0.0, section 5.3.3).
ghost use Rattle.std.specs.Prelude.{◌≡◌, ◌≤◌, true, None, length};
ghost use Rattle.std.specs.Result.{result_err};
ghost use Rattle.openflow10.specs.FlowMod.{flow_mod_at, key_in};
ghost use Rattle.openflow10.specs.Refusals.{first_failed, match_tests, command_tests, has_command, has_timeouts};

use crate::numbers::{u16_at, u32_at, u64_at};
use crate::ofp_match::MatchFields;
use crate::reading::want;
use crate::{WireFault, WireField};
use flow_rules::Key;

/// OFPFC_ADD: adds an entry.
pub(crate) const ADD: u16 = 0;

/// OFPFC_MODIFY_STRICT: changes the actions of the entry with just this key.
pub(crate) const MODIFY_STRICT: u16 = 2;

/// OFPFC_DELETE_STRICT: deletes the entry with just this key.
pub(crate) const DELETE_STRICT: u16 = 4;

/// No packet is buffered at the switch.
pub(crate) const NO_BUFFER: u32 = 0xffff_ffff;

/// OFPP_NONE: a delete isn't confined to entries that send to one port.
pub(crate) const ANY_OUT_PORT: u16 = 0xffff;

/// The fields of struct ofp_flow_mod between the header and the actions.
#[derive(Clone, Copy)]
pub(crate) struct FlowModFields {
    pub(crate) pattern: MatchFields,
    pub(crate) cookie: u64,
    pub(crate) command: u16,
    pub(crate) idle_timeout: u16,
    pub(crate) hard_timeout: u16,
    pub(crate) priority: u16,
    pub(crate) buffer_id: u32,
    pub(crate) out_port: u16,
    pub(crate) flags: u16,
}

impl FlowModFields {
    /// The struct in the bytes of a message.
    pub(crate) fn read(bytes: &[u8]) -> FlowModFields
        requires { 72 ≤ length bytes.now }
        ensures { result ≡ flow_mod_at bytes.now }
    {
        FlowModFields {
            pattern: MatchFields::read(bytes, 8),
            cookie: u64_at(bytes, 48),
            command: u16_at(bytes, 56),
            idle_timeout: u16_at(bytes, 58),
            hard_timeout: u16_at(bytes, 60),
            priority: u16_at(bytes, 62),
            buffer_id: u32_at(bytes, 64),
            out_port: u16_at(bytes, 68),
            flags: u16_at(bytes, 70),
        }
    }

    #[tactic(auto, unfolding(crate::specs::Refusals::has_command))]
    fn has_command(&self) -> bool
        ensures { result ≡ has_command self.now }
    {
        self.command == ADD || self.command == MODIFY_STRICT || self.command == DELETE_STRICT
    }

    #[tactic(auto, unfolding(crate::specs::Refusals::has_timeouts))]
    fn has_timeouts(&self) -> bool
        ensures { result ≡ has_timeouts self.now }
    {
        self.idle_timeout == 0 && self.hard_timeout == 0
    }

    /// That each field behind the match has a value which is written, or the first that hasn't.
    pub(crate) fn check(&self) -> Result<(), WireFault>
        ensures { result_err result ≡ first_failed (command_tests self.now) }
    {
        want(self.cookie == 0, WireField::Cookie)?;
        want(self.has_command(), WireField::Command)?;
        want(self.has_timeouts(), WireField::Timeouts)?;
        want(self.priority >= 1, WireField::Priority)?;
        want(self.buffer_id == NO_BUFFER, WireField::Buffer)?;
        want(self.out_port == ANY_OUT_PORT, WireField::OutPort)?;
        want(self.flags == 0, WireField::Flags)
    }

    /// The key that the fields name.
    pub(crate) fn key(&self) -> Key
        requires { first_failed (match_tests self.now.pattern) ≡ None }
        ensures { result ≡ key_in self.now }
    {
        Key {
            priority: self.priority,
            pattern: self.pattern.pattern(),
        }
    }
}
