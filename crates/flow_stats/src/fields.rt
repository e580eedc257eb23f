//! Structs of flow statistics, field by field (OpenFlow 1.0.0, section 5.3.5).
ghost use Rattle.std.specs.Prelude.{◌≡◌, ◌+◌, ◌≤◌, length};
ghost use Rattle.flow_stats.specs.Layout.{stats_reply_at, flow_stats_at};

use openflow10::{MatchFields, u8_at, u16_at, u32_at, u48_at, u64_at};

/// How many bytes a statistics reply has before its body.
pub const REPLY_LENGTH: usize = 12;

/// How many bytes an entry has before its actions.
pub const ENTRY_LENGTH: usize = 88;

/// The fields of struct ofp_stats_reply before its body.
#[derive(Clone, Copy)]
pub struct StatsReplyFields {
    pub version: u8,
    pub kind: u8,
    /// How many bytes the whole message has.
    pub len: u16,
    pub xid: u32,
    /// Of what the statistics are.
    pub stats: u16,
    pub flags: u16,
}

impl StatsReplyFields {
    /// The struct at the beginning of a message.
    pub fn read(bytes: &[u8]) -> StatsReplyFields
        requires { 12 ≤ length bytes.now }
        ensures { result ≡ stats_reply_at bytes.now }
    {
        StatsReplyFields {
            version: u8_at(bytes, 0),
            kind: u8_at(bytes, 1),
            len: u16_at(bytes, 2),
            xid: u32_at(bytes, 4),
            stats: u16_at(bytes, 8),
            flags: u16_at(bytes, 10),
        }
    }
}

/// The fields of struct ofp_flow_stats before its actions.
#[derive(Clone, Copy)]
pub struct FlowStatsFields {
    /// How many bytes the entry has, with its actions.
    pub len: u16,
    pub table: u8,
    pub pad: u8,
    pub pattern: MatchFields,
    /// How long the entry stands.
    pub duration_sec: u32,
    pub duration_nsec: u32,
    pub priority: u16,
    /// After how many seconds the entry goes, where it isn't 0.
    pub idle_timeout: u16,
    pub hard_timeout: u16,
    pub pad2: u64,
    pub cookie: u64,
    pub packet_count: u64,
    pub byte_count: u64,
}

impl FlowStatsFields {
    /// The struct from an offset on.
    pub fn read(bytes: &[u8], at: usize) -> FlowStatsFields
        requires { at + 88 ≤ length bytes.now }
        ensures { result ≡ flow_stats_at at bytes.now }
    {
        FlowStatsFields {
            len: u16_at(bytes, at),
            table: u8_at(bytes, at + 2),
            pad: u8_at(bytes, at + 3),
            pattern: MatchFields::read(bytes, at + 4),
            duration_sec: u32_at(bytes, at + 44),
            duration_nsec: u32_at(bytes, at + 48),
            priority: u16_at(bytes, at + 52),
            idle_timeout: u16_at(bytes, at + 54),
            hard_timeout: u16_at(bytes, at + 56),
            pad2: u48_at(bytes, at + 58),
            cookie: u64_at(bytes, at + 64),
            packet_count: u64_at(bytes, at + 72),
            byte_count: u64_at(bytes, at + 80),
        }
    }
}
