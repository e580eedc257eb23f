//! The reader of flow statistics.
ghost use Rattle.std.specs.Prelude.{◌≡◌, ◌==◌, ◌<◌, ◌≤◌, ◌+◌, Ok, OnOk, IfOk, IfSome, MatchResult, length, option_map, slice_index_or};
ghost use Rattle.net_base.specs.Reading.{Gives, Fails, in_turn};
ghost use Rattle.topology.specs.Networks.{switch_count};
ghost use Rattle.flow_rules.specs.Tables.{rules_of_all};
ghost use Rattle.path_walk.specs.UserConfigs.{IsUserConfig};
ghost use Rattle.flow_stats.specs.declared.fault.StatsFault.TheVariants.{Memory};
ghost use Rattle.flow_stats.specs.declared.messages.Progress.TheVariants.{Awaited};
ghost use Rattle.flow_stats.specs.Lines.{sent_seen};
ghost use Rattle.flow_stats.specs.Messages.{reply_seen};
ghost use Rattle.flow_stats.specs.Replies as replies;
ghost use Rattle.flow_stats.specs.Replies.{AreFor};

use crate::adding::add_entries;
use crate::fault::StatsFault;
use crate::index::RuleIndex;
use crate::lines::{SentMessage, read_sent};
use crate::messages::{FlowReply, Progress, read_reply};
use config_files::over_capacity;
use flow_rules::Config;
use net_base::{SwitchId, is_comment, place_of};
use std::alloc::Global;
use topology::Net;

/// What the lines so far have told.
#[derive(Drop)]
pub struct StatsSoFar {
    pub config: Config,
    /// The marks of their rules.
    pub index: RuleIndex,
    /// How much of its table each switch has told.
    pub progress: Vec<Progress>,
    /// How many entries there were.
    pub entries: usize,
}

/// Whether the last message of the switch stands.
fn is_whole(told: &StatsSoFar, switch: SwitchId) -> bool
    requires { switch.0 < length told.now.progress.items }
    ensures { result ≡ replies.is_whole told.now.progress.items switch }
{
    match told.progress[switch.0 as usize] {
        Progress::Awaited | Progress::Begun => false,
        Progress::Whole => true,
    }
}

/// Whether the last message of the switch says that more follow.
fn is_begun(told: &StatsSoFar, switch: SwitchId) -> bool
    requires { switch.0 < length told.now.progress.items }
    ensures { result ≡ replies.is_begun (slice_index_or told.now.progress.items switch.0 Awaited) }
{
    match told.progress[switch.0 as usize] {
        Progress::Awaited | Progress::Whole => false,
        Progress::Begun => true,
    }
}

/// Adds a reply of a switch.
#[tactic(auto, unfolding(crate::specs::Replies::with_reply))]
fn add_reply(
    net: &Net,
    told: &mut StatsSoFar,
    switch: SwitchId,
    reply: &FlowReply,
) -> Result<(), StatsFault>
    requires within { switch.0 < switch_count net.now }
    requires kept { AreFor net.now told.old }
    ensures read { let read = replies.with_reply net.now switch (replies.told_seen told.old)
        (reply_seen reply.now) in
        MatchResult result (λ _. read ≡ Ok (replies.told_seen told.new))
        (λ e. Fails Memory e read) }
    ensures kept { OnOk result (AreFor net.now told.new) }
{
    add_entries(
        net,
        &mut told.config,
        &mut told.index,
        told.entries,
        switch,
        &reply.entries,
    )?;
    told.entries += reply.entries.len();
    told.progress[switch.0 as usize] = reply.progress;
    Ok(())
}

/// Reads a message of a switch.
#[tactic(auto, unfolding(crate::specs::Replies::reply_at))]
fn read_message(
    alloc: Global,
    net: &Net,
    told: &mut StatsSoFar,
    number: u32,
    sent: &SentMessage,
) -> Result<(), StatsFault>
    requires within { sent.now.switch.0 < switch_count net.now }
    requires kept { AreFor net.now told.old }
    ensures read { let read = replies.reply_at net.now number (replies.told_seen told.old)
        (sent_seen sent.now) in
        MatchResult result (λ _. read ≡ Ok (replies.told_seen told.new))
        (λ e. Fails Memory e read) }
    ensures kept { OnOk result (AreFor net.now told.new) }
{
    let reply = read_reply(alloc, &sent.bytes)?.ok_or(StatsFault::BadMessage(number))?;
    if is_whole(told, sent.switch) {
        return Err(StatsFault::BadMessage(number));
    }
    add_reply(net, told, sent.switch, &reply)
}

/// Reads a line, which may be a comment.
#[tactic(auto, unfolding(crate::specs::Replies::message_at))]
fn read_line(
    alloc: Global,
    net: &Net,
    told: &mut StatsSoFar,
    number: u32,
    line: &[u8],
) -> Result<(), StatsFault>
    requires { AreFor net.now told.old }
    ensures read { let read = replies.line_at net.now number (replies.told_seen told.old) line.now
        in
        MatchResult result (λ _. read ≡ Ok (replies.told_seen told.new))
        (λ e. Fails Memory e read) }
    ensures kept { OnOk result (AreFor net.now told.new) }
{
    if is_comment(line) {
        return Ok(());
    }
    let sent = read_sent(alloc, net, number, line)?;
    read_message(alloc, net, told, number, &sent)
}

/// Nothing is told, and the tables are empty.
fn begin(alloc: Global, net: &Net) -> Result<StatsSoFar, StatsFault>
    ensures told { Gives Memory replies.told_seen result (Ok (replies.nothing_told net.now)) }
    ensures kept { IfOk result (AreFor net.now) }
{
    let config = Config::make(alloc, net.switches())?;
    let progress = vec![in alloc; Progress::Awaited; net.switches() as usize]?;
    Ok(StatsSoFar {
        config,
        index: RuleIndex::new(alloc),
        progress,
        entries: 0,
    })
}

/// Reads the lines one after the other.
fn read_lines(alloc: Global, net: &Net, bytes: &[u8]) -> Result<StatsSoFar, StatsFault>
    ensures read { Gives Memory replies.told_seen result (replies.told_in net.now bytes.now) }
    ensures kept { IfOk result (AreFor net.now) }
{
    let mut told = begin(alloc, net)?;
    for (i, line) in bytes.split(|b| *b == b'\n').enumerate() {
        read_line(alloc, net, &mut told, place_of(i + 1), line)?;
    }
    Ok(told)
}

/// The least switch whose last message says that more follow.
fn incomplete(net: &Net, told: &StatsSoFar) -> Option<SwitchId>
    requires { AreFor net.now told.now }
    ensures { option_map (λ s. s.0) result ≡ replies.incomplete net.now told.now.progress.items }
{
    for s in 0..net.switches() {
        if is_begun(told, SwitchId(s)) {
            return Some(SwitchId(s));
        }
    }
    None
}

/// The tables that the lines tell, where all is told and each fits.
#[tactic(auto, unfolding(crate::specs::Replies::replies_in))]
fn read_tables(alloc: Global, net: &Net, bytes: &[u8]) -> Result<Config, StatsFault>
    ensures { Gives Memory rules_of_all result (replies.replies_in net.now bytes.now) }
{
    let told = read_lines(alloc, net, bytes)?;
    if let Some(switch) = incomplete(net, &told) {
        return Err(StatsFault::Incomplete(switch));
    }
    if let Some(switch) = over_capacity(net, &told.config) {
        return Err(StatsFault::OverCapacity(switch));
    }
    Ok(told.config)
}

/// The configuration of a network that flow statistics tell: for each switch the rules of its entries, in the order of the
/// file. A line is `SWITCH HEX`, with the bytes of one whole OpenFlow 1.0 message; a line that is empty or begins with `#` is
/// a comment. Switches without lines have empty tables. The first check that fails is the refusal: line by line, and in each
/// entry by entry.
///
/// The cost is that of one pass over the bytes, and for each entry of at most 137 look-ups and 136 insertions in a hash table.
pub fn read_replies(alloc: Global, net: &Net, bytes: &[u8]) -> Result<Config, StatsFault>
    ensures read { Gives Memory rules_of_all result (replies.replies_in net.now bytes.now) }
    // What was read is what a user may write.
    ensures user { IfOk result (λ c. IsUserConfig net.now (rules_of_all c)) }
{
    read_tables(alloc, net, bytes)
}
