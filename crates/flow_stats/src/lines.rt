//! Lines: a switch's name, one space, and the bytes of a message in hexadecimal digits.
ghost use Rattle.std.specs.Prelude.{◌<◌, IfOk};
ghost use Rattle.net_base.specs.Reading.{Gives};
ghost use Rattle.topology.specs.Networks.{switch_count};
ghost use Rattle.flow_stats.specs.declared.fault.StatsFault.TheVariants.{Memory};
ghost use Rattle.flow_stats.specs.Lines as lines;

use crate::fault::StatsFault;
use net_base::{SwitchId, cut_first};
use std::alloc::Global;
use text_lines::read_digits;
use topology::Net;

/// The bytes of a message and the switch that sent it.
#[derive(Drop)]
pub struct SentMessage {
    pub switch: SwitchId,
    pub bytes: Vec<u8>,
}

/// Reads a line that is text.
#[tactic(auto, unfolding(crate::specs::Lines::text_in))]
fn read_text(alloc: Global, net: &Net, number: u32, text: &str) -> Result<SentMessage, StatsFault>
    ensures read { Gives Memory lines.sent_seen result (lines.text_in net.now number text.now) }
    ensures within { IfOk result (λ s. s.switch.0 < switch_count net.now) }
{
    let (name, digits) = cut_first(text, ' ').ok_or(StatsFault::BadLine(number))?;
    let switch = net.find(name).ok_or(StatsFault::BadLine(number))?;
    let bytes = read_digits(alloc, digits)?.ok_or(StatsFault::BadLine(number))?;
    Ok(SentMessage { switch, bytes })
}

/// Reads a line that is no comment.
pub fn read_sent(
    alloc: Global,
    net: &Net,
    number: u32,
    line: &[u8],
) -> Result<SentMessage, StatsFault>
    ensures read { Gives Memory lines.sent_seen result (lines.sent_in net.now number line.now) }
    ensures within { IfOk result (λ s. s.switch.0 < switch_count net.now) }
{
    match str::from_utf8(line) {
        Ok(text) => read_text(alloc, net, number, text),
        Err(_) => Err(StatsFault::BadLine(number)),
    }
}
