//! The entries of a message.
ghost use Rattle.std.specs.Prelude.{◌≡◌, ◌+◌, ◌<◌, ◌≤◌, length, option_map, IfOk, IfSome};
ghost use Rattle.flow_stats.specs.Entries.{actions_in, actions_of, entry_in, entries_in, is_entry, is_output};

use crate::fields::{ENTRY_LENGTH, FlowStatsFields, REPLY_LENGTH};
use net_base::{Memory, Port};
use openflow10::{ActionFields, is_port, u16_at};
use std::alloc::Global;

/// OFPAT_OUTPUT: sends to a port.
const OUTPUT: u16 = 0;

/// How many bytes an output has.
const OUTPUT_LENGTH: u16 = 8;

/// The actions of an entry, as far as they have a form of the profile.
#[derive(Clone, Copy)]
pub enum EntryActions {
    /// No action.
    Empty,
    /// One output to a port of a switch.
    Output(Port),
    /// Others.
    Other,
}

/// An entry of a table as a switch told it.
#[derive(Clone, Copy)]
pub struct Entry {
    pub fields: FlowStatsFields,
    pub actions: EntryActions,
}

/// Whether an action is an output to a port of a switch. How many bytes a controller would get is passed over.
#[tactic(auto, unfolding(crate::specs::Entries::is_output))]
fn is_output(action: &ActionFields) -> bool
    ensures { result ≡ is_output action.now }
{
    action.kind == OUTPUT && action.len == OUTPUT_LENGTH && is_port(action.argument)
}

/// The actions of an entry that has one action of 8 bytes.
fn actions_of(action: &ActionFields) -> EntryActions
    ensures { result ≡ actions_of action.now }
{
    if is_output(action) {
        EntryActions::Output(Port(action.argument))
    } else {
        EntryActions::Other
    }
}

/// The actions of an entry of so many bytes, which begin at an offset.
fn read_actions(bytes: &[u8], at: usize, len: usize) -> EntryActions
    requires { at + len ≤ length bytes.now + 88 }
    ensures { result ≡ actions_in at len bytes.now }
{
    match len {
        88 => EntryActions::Empty,
        96 => actions_of(&ActionFields::read(bytes, at)),
        _ => EntryActions::Other,
    }
}

/// Whether an entry begins at an offset: its fixed part is there, and as many bytes as it says.
#[tactic(auto, unfolding(crate::specs::Entries::is_entry))]
fn is_entry(bytes: &[u8], at: usize) -> bool
    requires { at ≤ length bytes.now }
    ensures { result ≡ is_entry at bytes.now }
{
    let rest = bytes.len() - at;
    if rest < ENTRY_LENGTH {
        return false;
    }
    let len = usize::from(u16_at(bytes, at));
    ENTRY_LENGTH <= len && len <= rest
}

/// The entry that begins at an offset.
fn read_entry(bytes: &[u8], at: usize) -> Option<Entry>
    requires { at ≤ length bytes.now }
    ensures value { result ≡ entry_in at bytes.now }
    ensures within { IfSome result (λ e. (88 ≤ e.fields.len)
        × (at + e.fields.len ≤ length bytes.now)) }
{
    if is_entry(bytes, at) {
        let fields = FlowStatsFields::read(bytes, at);
        let actions = read_actions(bytes, at + ENTRY_LENGTH, usize::from(fields.len));
        Some(Entry { fields, actions })
    } else {
        None
    }
}

/// The entries of a message, one after the other; none where they don't fill it.
pub fn read_entries(alloc: Global, bytes: &[u8]) -> Result<Option<Vec<Entry>>, Memory>
    requires { 12 ≤ length bytes.now }
    ensures { IfOk result (λ r. option_map (λ v. v.items) r ≡ entries_in bytes.now) }
{
    let mut entries = Vec::new(alloc);
    let mut at = REPLY_LENGTH;
    'entries: while at < bytes.len() {
        let Some(entry) = read_entry(bytes, at) else {
            return Ok(None);
        };
        at += usize::from(entry.fields.len);
        entries.push(entry)?;
    }
    Ok(Some(entries))
}
