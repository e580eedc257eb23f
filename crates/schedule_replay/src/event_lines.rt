//! The event that a line of a schedule spells.
ghost use Rattle.std.specs.Prelude.{◌≡◌};
ghost use Rattle.schedule_replay.specs.EventLines as spelled;
ghost use Rattle.update_model.specs.declared.Event.TheVariants as event;

use net_base::{MAX_PORT, Place, Port, Stop, cut_first, cut_last, read_address, read_decimal};
use text_lines::read_vlan;
use topology::Net;
use update_model::Event;

const MAX_NUMBER: u64 = 4_294_967_295;

/// Reads a port of a switch, `SWITCH:PORT`.
#[tactic(auto, unfolding(crate::specs::EventLines::stop_in))]
fn read_stop(net: &Net, text: &str) -> Option<Stop>
    ensures { result ≡ spelled.stop_in net.now text.now }
{
    let (name, number) = cut_last(text, ':')?;
    let switch = net.find(name)?;
    let port = read_decimal(number, MAX_PORT)?;
    if port < 1 {
        return None;
    }
    Some(Stop {
        switch,
        port: Port(port as u16),
    })
}

/// Reads an entry, `SWITCH:PORT VLAN ADDRESS`.
#[tactic(auto, unfolding(crate::specs::EventLines::entry_in))]
fn read_entry(net: &Net, text: &str) -> Option<Event>
    ensures { result ≡ spelled.entry_in net.now text.now }
{
    let (stop, rest) = cut_first(text, ' ')?;
    let (vlan, address) = cut_first(rest, ' ')?;
    let Stop { switch, port } = read_stop(net, stop)?;
    let vlan = read_vlan(vlan)?;
    let dst = read_address(address)?;
    Some(Event::Enter(Place { switch, port, vlan }, dst))
}

/// Reads the number of a change or of a packet.
fn read_number(text: &str) -> Option<usize>
    ensures { result ≡ spelled.number_in text.now }
{
    match read_decimal(text, MAX_NUMBER) {
        Some(n) => Some(n as usize),
        None => None,
    }
}

/// Reads the event of a word with what stands behind it.
fn read_worded(net: &Net, word: &str, rest: &str) -> Option<Event>
    ensures { result ≡ spelled.event_of_word net.now word.now rest.now }
{
    match word {
        "enter" => read_entry(net, rest),
        "change" => read_number(rest).map(Event::Change),
        "hop" => read_number(rest).map(Event::Hop),
        "lose" => read_number(rest).map(Event::Lose),
        _ => None,
    }
}

/// Reads the event of a word and what stands behind a space.
#[tactic(auto, unfolding(crate::specs::EventLines::worded_event))]
fn read_words(net: &Net, line: &str) -> Option<Event>
    ensures { result ≡ spelled.worded_event net.now line.now }
{
    let (word, rest) = cut_first(line, ' ')?;
    read_worded(net, word, rest)
}

/// Reads the event that a text spells.
fn read_text(net: &Net, line: &str) -> Option<Event>
    ensures { result ≡ spelled.spelled_event net.now line.now }
{
    match line {
        "start" => Some(Event::Start),
        "settle" => Some(Event::Settle),
        _ => read_words(net, line),
    }
}

/// Reads the event that a line spells.
pub fn read_event(net: &Net, line: &[u8]) -> Option<Event>
    ensures { result ≡ spelled.event_in net.now line.now }
{
    match str::from_utf8(line) {
        Ok(text) => read_text(net, text),
        Err(_) => None,
    }
}
