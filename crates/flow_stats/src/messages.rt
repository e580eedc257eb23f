//! The statistics reply that bytes are.
ghost use Rattle.std.specs.Prelude.{◌≡◌, length, option_map, IfOk};
ghost use Rattle.flow_stats.specs.Messages.{is_flow_reply, progress_of, reply_in, reply_seen};

use crate::entries::{Entry, read_entries};
use crate::fields::{REPLY_LENGTH, StatsReplyFields};
use net_base::Memory;
use std::alloc::Global;

/// The wire version of OpenFlow 1.0.
const VERSION: u8 = 0x01;

/// OFPT_STATS_REPLY.
const STATS_REPLY: u8 = 17;

/// OFPST_FLOW: the statistics are those of single flows.
const FLOW: u16 = 1;

/// How much of its table a switch has told.
#[derive(Clone, Copy)]
pub enum Progress {
    /// No message stands yet.
    Awaited,
    /// The last message says that more follow.
    Begun,
    /// The last message says that no more follow.
    Whole,
}

/// A flow statistics reply: its entries, and how much of the table is told by it.
#[derive(Drop)]
pub struct FlowReply {
    pub progress: Progress,
    pub entries: Vec<Entry>,
}

/// Whether the fields of a message of so many bytes are those of a flow statistics reply.
#[tactic(auto, unfolding(crate::specs::Messages::is_flow_reply))]
fn is_flow_reply(fields: &StatsReplyFields, size: usize) -> bool
    ensures { result ≡ is_flow_reply fields.now size }
{
    fields.version == VERSION
        && fields.kind == STATS_REPLY
        && usize::from(fields.len) == size
        && fields.stats == FLOW
}

/// How much is told by a message with these flags, of which OFPSF_REPLY_MORE is bit 0.
fn progress_of(flags: u16) -> Progress
    ensures { result ≡ progress_of flags }
{
    if flags % 2 == 1 {
        Progress::Begun
    } else {
        Progress::Whole
    }
}

/// The flow statistics reply that the bytes are, with entries that fill it; none where they are no such reply.
#[tactic(auto, unfolding(crate::specs::Messages::reply_in))]
pub fn read_reply(alloc: Global, bytes: &[u8]) -> Result<Option<FlowReply>, Memory>
    ensures { IfOk result (λ r. option_map reply_seen r ≡ reply_in bytes.now) }
{
    if bytes.len() < REPLY_LENGTH {
        return Ok(None);
    }
    let fields = StatsReplyFields::read(bytes);
    if !is_flow_reply(&fields, bytes.len()) {
        return Ok(None);
    }
    let Some(entries) = read_entries(alloc, bytes)? else {
        return Ok(None);
    };
    Ok(Some(FlowReply {
        progress: progress_of(fields.flags),
        entries,
    }))
}
