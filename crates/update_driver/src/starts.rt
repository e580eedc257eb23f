//! The steps of starting and settling a round.
ghost use Rattle.std.specs.Prelude.{◌≡◌, ℕ, ◌<◌, ◌≤◌, ◌+◌, ◌^◌, ◌++◌, ◌∷◌, [], ◌&&◌, if◌then◌else◌, length, map, filter, find, not, replicate, false, slice_index_or, vec_len, vec_capacity, is_none, IfOk, IfErr, OnErr, OnOk};
ghost use Rattle.std.specs.List.{AllByRecursion, list_all, range_with_len};
ghost use Rattle.topology.specs.Networks.{switch_count};
ghost use Rattle.update_model.specs.Ranges.{IsPlanChange};
ghost use Rattle.update_model.specs.States.{phase_after_settle};
ghost use Rattle.update_model.specs.Worlds.{running_round};
ghost use Rattle.update_driver.specs.Laws.{begun_count};
ghost use Rattle.net_base.specs.Switches.{has, most_switches};
ghost use Rattle.round_messages.specs.Requests.{switch_numbered};
ghost use Rattle.switch_session.specs.Channels.{first_channel, is_open};
ghost use Rattle.update_driver.specs.Drivers.{none_outstanding, settled_if_answered, started_phase, change_events, driver_after_bytes};
ghost use Rattle.update_driver.specs.Inside.{states_of, with_states, HasRoomFrom, told_by_turn, told_by_turns, begun_by_turns, IsPhaseWithin, MayStartWith, IsRefusedWith};

use crate::StartFault;
use crate::turns::SwitchStart;
use net_base::{Memory, SwitchId, SwitchSet};
use round_messages::changed_switches;
use std::alloc::Global;
use switch_session::Channel;
use topology::Net;
use update_model::{Change, Event, Phase, Rounds};

/// Logs a change of this number, if it came about. There is room for it.
fn log_if(log: &mut Vec<Event>, made: bool, number: usize)
    requires { vec_len log.old < vec_capacity log.old }
    ensures items { log.new.items
        ≡ (if made then log.old.items ++ Event.Change number ∷ [] else log.old.items) }
    ensures len { vec_len log.new ≤ vec_len log.old + 1 }
    ensures capacity { vec_capacity log.old ≤ vec_capacity log.new }
{
    if made {
        log.push_reserved(Event::Change(number));
    }
}

/// Logs the changes of a switch in a round, ascending. There is room for an event for each change of the round.
fn log_changes(log: &mut Vec<Event>, round: &[Change], switch: SwitchId)
    requires { vec_len log.old + length round.now ≤ vec_capacity log.old }
    ensures items { log.new.items ≡ log.old.items ++ change_events switch 0 round.now }
    ensures len { vec_len log.new ≤ vec_len log.old + length round.now }
    ensures capacity { vec_capacity log.old ≤ vec_capacity log.new }
{
    for number in 0..round.len() {
        let is_here = round[number].switch().0 == switch.0;
        log_if(log, is_here, number);
    }
}

/// Makes room for so many more events.
fn reserve(log: &mut Vec<Event>, extra: usize) -> Result<(), Memory>
    ensures room { OnOk result (vec_len log.new + extra ≤ vec_capacity log.new) }
    ensures items { log.new.items ≡ log.old.items }
    ensures len { vec_len log.new ≡ vec_len log.old }
{
    log.reserve(extra)?;
    Ok(())
}

/// A channel to each of so many switches.
pub(crate) fn make_channels(alloc: Global, switches: u32) -> Result<Vec<Channel>, Memory>
    ensures { IfOk result (λ v. states_of v.items ≡ replicate switches first_channel) }
{
    let mut channels = Vec::new(alloc);
    for _number in 0..switches {
        channels.push(Channel::make(alloc)?)?;
    }
    Ok(channels)
}

/// Whether a channel waits for no barrier.
fn is_free(channel: &Channel) -> bool
    ensures { result ≡ is_none channel.now.state.outstanding }
{
    channel.outstanding().is_none()
}

/// Whether each channel waits for no barrier.
fn all_are_free(channels: &[Channel]) -> bool
    ensures { result ≡ list_all (λ v. is_none v.state.outstanding) channels.now }
{
    channels.iter().all(|channel| is_free(channel))
}

/// Whether no barrier is outstanding.
fn none_outstanding(channels: &[Channel]) -> bool
    ensures { result ≡ none_outstanding (states_of channels.now) }
{
    all_are_free(channels)
}

/// The phase after the running round is settled.
fn settled(phase: Phase) -> Phase
    ensures { result ≡ phase_after_settle phase }
{
    match phase {
        Phase::Settled(k) => Phase::Settled(k),
        Phase::Running(k) => Phase::Settled(k),
    }
}

/// The phase after the next round starts.
fn started(phase: Phase) -> Phase
    requires { begun_count phase + 1 < 2 ^ 32 }
    ensures { result ≡ started_phase phase }
{
    match phase {
        Phase::Settled(k) => Phase::Running(k + 1),
        Phase::Running(k) if k > 0 => Phase::Running(k),
        Phase::Running(_) => Phase::Running(1),
    }
}

/// Settles the running round, if no barrier is outstanding. There is room for an event.
fn settle_if_answered(phase: &mut Phase, log: &mut Vec<Event>, channels: &[Channel])
    requires { vec_len log.old < vec_capacity log.old }
    ensures { with_states phase.new log.new.items channels.now
        ≡ settled_if_answered (with_states phase.old log.old.items channels.now) }
{
    if none_outstanding(channels) {
        *phase = settled(*phase);
        log.push_reserved(Event::Settle);
    }
}

/// Whether a switch has a change and no open session.
fn is_missing(channel: &Channel, is_changed: bool) -> bool
    ensures { result ≡ (is_changed && not (is_open channel.now.state.session)) }
{
    is_changed && !channel.is_open()
}

/// The first of these switches that has no open session.
fn first_not_open(channels: &[Channel], changed: SwitchSet) -> Option<SwitchId>
    requires { length channels.now ≤ most_switches }
    ensures { result
        ≡ find
        (λ s. not (is_open (slice_index_or (states_of channels.now) s.0 first_channel).session))
        (filter (has changed) (map switch_numbered (range_with_len 0 (length channels.now)))) }
{
    for number in 0..channels.len() {
        let switch = SwitchId(number as u32);
        if is_missing(&channels[number], changed.has(switch)) {
            return Some(switch);
        }
    }
    None
}

/// The changes of the next round, if it may start.
pub(crate) fn next_round<'a>(
    net: &Net,
    rounds: &'a Rounds,
    phase: Phase,
    channels: &[Channel],
) -> Result<&'a [Change], StartFault>
    requires switches { length channels.now ≡ switch_count net.now }
    requires few { switch_count net.now ≤ most_switches }
    requires plan { AllByRecursion (AllByRecursion (IsPlanChange net.now)) rounds.now }
    requires within { IsPhaseWithin rounds.now phase }
    ensures ok { IfOk result
        (λ round. MayStartWith net.now rounds.now (states_of channels.now) phase round.now) }
    ensures refused { IfErr result
        (IsRefusedWith net.now rounds.now (states_of channels.now) phase) }
{
    let k = match phase {
        Phase::Settled(k) => k as usize,
        Phase::Running(_) => return Err(StartFault::Running),
    };
    if k == rounds.count() {
        return Err(StartFault::Finished);
    }
    let round = rounds.round(k);
    match first_not_open(channels, changed_switches(round)) {
        Some(switch) => Err(StartFault::NotOpen(switch)),
        None => Ok(round),
    }
}

/// Makes room in each channel for what its turn has to send.
fn reserve_all(channels: &mut [Channel], turns: &[SwitchStart]) -> Result<(), Memory>
    requires { length channels.old ≡ length turns.now }
    ensures states { states_of channels.new ≡ states_of channels.old }
    ensures room { OnOk result (HasRoomFrom 0 turns.now channels.new) }
{
    for number in 0..turns.len() {
        channels[number].reserve(turns[number].text.len())?;
    }
    Ok(())
}

/// Sends to a switch what its turn has to send. There is room for it.
fn ask(channel: &mut Channel, turn: &SwitchStart)
    requires { length turn.now.text.items ≤ channel.old.room }
    ensures { channel.new.state ≡ told_by_turn turn.now channel.old.state }
{
    if let Some(xid) = turn.barrier {
        channel.ask(&turn.text, xid);
    }
}

/// Sends to each switch what its turn has to send. There is room for it.
fn ask_all(channels: &mut [Channel], turns: &[SwitchStart])
    requires count { length channels.old ≡ length turns.now }
    requires room { HasRoomFrom 0 turns.now channels.old }
    ensures { states_of channels.new ≡ told_by_turns turns.now (states_of channels.old) }
{
    for number in 0..turns.len() {
        ask(&mut channels[number], &turns[number]);
    }
}

/// The next round begins: its turns are sent, and it is settled at once if no barrier is outstanding.
pub(crate) fn begin(
    turns: &[SwitchStart],
    phase: &mut Phase,
    log: &mut Vec<Event>,
    channels: &mut Vec<Channel>,
) -> Result<(), Memory>
    requires count { vec_len channels.old ≡ length turns.now }
    requires most { begun_count phase.old + 1 < 2 ^ 32 }
    ensures ok { OnOk result
        (with_states phase.new log.new.items channels.new.items
        ≡ begun_by_turns turns.now (with_states phase.old log.old.items channels.old.items)) }
    ensures err { OnErr result
        (with_states phase.new log.new.items channels.new.items
        ≡ with_states phase.old log.old.items channels.old.items) }
{
    reserve(log, 2)?;
    reserve_all(channels, turns)?;
    // From here on nothing fails.
    ask_all(channels, turns);
    log.push_reserved(Event::Start);
    *phase = started(*phase);
    settle_if_answered(phase, log, channels);
    Ok(())
}

/// The changes of the running round; none where no round is running.
fn running_round<'a>(rounds: &'a Rounds, phase: Phase) -> &'a [Change]
    requires { IsPhaseWithin rounds.now phase }
    ensures { result.now ≡ running_round phase rounds.now }
{
    match phase {
        Phase::Running(k) if k > 0 => rounds.round(k as usize - 1),
        _ => &[],
    }
}

/// Bytes come from a switch. Where it answers its barrier request, its changes of the running round are logged, and the round
/// is settled if no barrier is outstanding.
pub(crate) fn hear(
    switch: SwitchId,
    bytes: &[u8],
    rounds: &Rounds,
    phase: &mut Phase,
    log: &mut Vec<Event>,
    channels: &mut Vec<Channel>,
) -> Result<(), Memory>
    requires switch { switch.0 < vec_len channels.old }
    requires within { IsPhaseWithin rounds.now phase.old }
    ensures ok { OnOk result
        (with_states phase.new log.new.items channels.new.items
        ≡ driver_after_bytes rounds.now switch bytes.now
        (with_states phase.old log.old.items channels.old.items)) }
    ensures err { OnErr result
        (with_states phase.new log.new.items channels.new.items
        ≡ with_states phase.old log.old.items channels.old.items) }
{
    let number = switch.0 as usize;
    let round = running_round(rounds, *phase);
    let waited = channels[number].outstanding().is_some();
    if waited {
        reserve(log, round.len() + 1)?;
    }
    channels[number].feed(bytes)?;
    if waited && channels[number].outstanding().is_none() {
        log_changes(log, round, switch);
        settle_if_answered(phase, log, channels);
    }
    Ok(())
}
