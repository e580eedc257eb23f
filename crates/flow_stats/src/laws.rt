//! What holds of the definitions of flow statistics, for who reads them.
ghost use Rattle.std.specs.Prelude.{◌≡◌, ◌↔◌, ◌+◌, ◌≤◌, ℕ, List, Some, length};
ghost use Rattle.openflow10.specs.Layout.{Holds, Spans};
ghost use Rattle.flow_stats.specs.Layout.{flow_stats_at, flow_stats_table, stats_reply_at, stats_reply_table};
ghost use Rattle.flow_stats.specs.Entries.{Fill, entries_in};
ghost use Rattle.flow_stats.specs.declared.entries.Entry.{Entry};
ghost use Rattle.flow_stats.specs.declared.fields.FlowStatsFields.{FlowStatsFields};
ghost use Rattle.flow_stats.specs.declared.fields.StatsReplyFields.{StatsReplyFields};

/// The fields that are read stand at the offsets of their tables, of 12 bytes for a message and of 88 for an entry, without
/// a gap. It does nothing.
pub fn fields_stand_at_their_offsets()
    ensures reply_spans { (m : StatsReplyFields) → Spans 0 (stats_reply_table m) 12 }
    ensures reply_holds { (bytes : List ℕ)
        → Holds bytes (stats_reply_table (stats_reply_at bytes)) }
    ensures entry_spans { (at : ℕ) (e : FlowStatsFields)
        → Spans at (flow_stats_table at e) (at + 88) }
    ensures entry_holds { (at : ℕ) (bytes : List ℕ)
        → Holds bytes (flow_stats_table at (flow_stats_at at bytes)) }
{}

/// The entries of a message are those that stand one after the other from byte 12 to its end, and no others do. It does
/// nothing.
pub fn entries_fill_their_message()
    ensures { (bytes : List ℕ) (entries : List Entry) → 12 ≤ length bytes
        → ((entries_in bytes ≡ Some entries) ↔ Fill 12 bytes entries) }
{}
