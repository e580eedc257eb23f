//! What bytes ask for as a line: `start`, `back`, `reopen` or `dead` with the name of a switch, `feed` with a name and bytes
//! in hexadecimal digits, or nothing.
ghost use Rattle.std.specs.Prelude.{IfOk};
ghost use Rattle.net_base.specs.Reading.{Gives};
ghost use Rattle.serve_lines.specs.declared.fault.LineFault.TheVariants.{Memory};
ghost use Rattle.serve_lines.specs.Lines as lines;

use crate::fault::LineFault;
use crate::line::ServeLine;
use crate::open_line::MOST_BYTES;
use driver_input::Piece;
use net_base::{cut_first, is_comment};
use std::alloc::Global;
use text_lines::read_digits;
use topology::Net;

/// Reads a switch's name and a piece.
#[tactic(auto, unfolding(crate::specs::Lines::fed_in))]
fn read_fed(alloc: Global, net: &Net, text: &str) -> Result<ServeLine, LineFault>
    ensures read { Gives Memory (λ l. l) result (lines.fed_in net.now text.now) }
    ensures within { IfOk result (lines.IsLineOf net.now) }
{
    let (name, digits) = cut_first(text, ' ').ok_or(LineFault::Bad)?;
    let switch = net.find(name).ok_or(LineFault::Bad)?;
    let bytes = read_digits(alloc, digits)?.ok_or(LineFault::Bad)?;
    Ok(ServeLine::Feed(switch, Piece::make(bytes)))
}

/// Reads the name of a switch whose session is opened again.
#[tactic(auto, unfolding(crate::specs::Lines::reopened_in))]
fn read_reopened(net: &Net, name: &str) -> Result<ServeLine, LineFault>
    ensures read { Gives Memory (λ l. l) result (lines.reopened_in net.now name.now) }
    ensures within { IfOk result (lines.IsLineOf net.now) }
{
    let switch = net.find(name).ok_or(LineFault::Bad)?;
    Ok(ServeLine::Reopen(switch))
}

/// Reads the name of a switch that died.
#[tactic(auto, unfolding(crate::specs::Lines::dead_in))]
fn read_dead(net: &Net, name: &str) -> Result<ServeLine, LineFault>
    ensures read { Gives Memory (λ l. l) result (lines.dead_in net.now name.now) }
    ensures within { IfOk result (lines.IsLineOf net.now) }
{
    let switch = net.find(name).ok_or(LineFault::Bad)?;
    Ok(ServeLine::Dead(switch))
}

/// Reads what a word with what stands behind it asks for.
#[tactic(auto, unfolding(crate::specs::Lines::worded_in))]
fn read_worded(alloc: Global, net: &Net, text: &str) -> Result<ServeLine, LineFault>
    ensures read { Gives Memory (λ l. l) result (lines.worded_in net.now text.now) }
    ensures within { IfOk result (lines.IsLineOf net.now) }
{
    let (word, rest) = cut_first(text, ' ').ok_or(LineFault::Bad)?;
    if word == "feed" {
        return read_fed(alloc, net, rest);
    }
    if word == "reopen" {
        return read_reopened(net, rest);
    }
    if word == "dead" {
        return read_dead(net, rest);
    }
    Err(LineFault::Bad)
}

/// Reads a line that is text, and no comment.
#[tactic(auto, unfolding(crate::specs::Lines::text_in))]
fn read_text(alloc: Global, net: &Net, text: &str) -> Result<ServeLine, LineFault>
    ensures read { Gives Memory (λ l. l) result (lines.text_in net.now text.now) }
    ensures within { IfOk result (lines.IsLineOf net.now) }
{
    if text == "start" {
        return Ok(ServeLine::Start);
    }
    if text == "back" {
        return Ok(ServeLine::Back);
    }
    read_worded(alloc, net, text)
}

/// Reads a line that is no comment.
#[tactic(auto, unfolding(crate::specs::Lines::spelled_in))]
fn read_spelled(alloc: Global, net: &Net, line: &[u8]) -> Result<ServeLine, LineFault>
    ensures read { Gives Memory (λ l. l) result (lines.spelled_in net.now line.now) }
    ensures within { IfOk result (lines.IsLineOf net.now) }
{
    match str::from_utf8(line) {
        Ok(text) => read_text(alloc, net, text),
        Err(_) => Err(LineFault::Bad),
    }
}

/// What bytes, without a line end, ask for as a line: `start`; `back`; `reopen SWITCH`; `dead SWITCH`; `feed SWITCH HEX`, where
/// HEX is an even number of at least two hexadecimal digits of either case; or nothing, where the line is empty or begins with
/// `#`, whatever bytes follow. All else is `Bad`: a switch that the network doesn't have, and a line of more than 262,144 bytes, even one
/// that begins as a comment. The cost is that of one pass over the bytes.
pub fn read_line(alloc: Global, net: &Net, line: &[u8]) -> Result<ServeLine, LineFault>
    ensures read { Gives Memory (λ l. l) result (lines.line_in net.now line.now) }
    ensures within { IfOk result (lines.IsLineOf net.now) }
{
    if line.len() > MOST_BYTES {
        return Err(LineFault::Bad);
    }
    if is_comment(line) {
        return Ok(ServeLine::Comment);
    }
    read_spelled(alloc, net, line)
}
